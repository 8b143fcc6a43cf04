// For each call the first reason that refuses it, in the order of the table of refusals. `caller` is a number, as in a
// request: the clauses speak of every number, and a narrower type would ask more of callers.
//
// Create, delete and prioritise stand for each kind of object, since each clause names its own chain: a trait with the chains would have an impl
// for each kind as long as its functions.

#![tactic(auto, unfolding(crate::specs::Chains::unless, crate::specs::Chains::create_refusal, crate::specs::Chains::delete_refusal, crate::specs::Chains::resume_refusal, crate::specs::Chains::suspend_refusal, crate::specs::Chains::terminate_refusal, crate::specs::Chains::reset_refusal, crate::specs::Chains::thread_only_refusal, crate::specs::Chains::abort_refusal, crate::specs::Chains::priority_refusal, crate::specs::Chains::preemption_refusal, crate::specs::Chains::tick_refusal, crate::specs::Chains::read_refusal, crate::specs::Chains::semaphore_create_refusal, crate::specs::Chains::semaphore_delete_refusal, crate::specs::Chains::semaphore_get_refusal, crate::specs::Chains::put_refusal, crate::specs::Chains::ceiling_refusal, crate::specs::Chains::semaphore_refusal, crate::specs::Chains::queue_create_refusal, crate::specs::Chains::queue_delete_refusal, crate::specs::Chains::send_refusal, crate::specs::Chains::receive_refusal, crate::specs::Chains::queue_refusal, crate::specs::Chains::group_create_refusal, crate::specs::Chains::group_delete_refusal, crate::specs::Chains::set_refusal, crate::specs::Chains::get_refusal, crate::specs::Chains::pool_create_refusal, crate::specs::Chains::pool_delete_refusal, crate::specs::Chains::allocate_refusal, crate::specs::Chains::release_refusal, crate::specs::Chains::pool_refusal), using(crate::proofs::Laws::Refusals::status_above, crate::proofs::Laws::Refusals::first_holds, crate::proofs::Laws::Refusals::first_fails))]

ghost use Rattle.std.specs.Prelude.{◌≡◌};
ghost use Rattle.calls.specs.Refusals.{status_of, reason_of};
ghost use Rattle.calls.specs.Chains.{nobody_runsb, unless, create_refusal, delete_refusal, resume_refusal, suspend_refusal, terminate_refusal, reset_refusal, thread_only_refusal, abort_refusal, priority_refusal, preemption_refusal, tick_refusal, read_refusal, semaphore_create_refusal, semaphore_delete_refusal, semaphore_get_refusal, put_refusal, ceiling_refusal, semaphore_refusal, queue_create_refusal, queue_delete_refusal, send_refusal, receive_refusal, queue_refusal, group_create_refusal, group_delete_refusal, set_refusal, get_refusal, pool_create_refusal, pool_delete_refusal, allocate_refusal, release_refusal, pool_refusal};

use super::call::{INTERRUPT, STARTUP, THREAD, option_of};
use super::status::{
    CALLER_ERROR, CEILING_EXCEEDED, DELETE_ERROR, GROUP_ERROR, INVALID_CEILING, NO_EVENTS,
    NO_INSTANCE, NO_MEMORY, NOT_DONE, OPTION_ERROR, POOL_ERROR, PRIORITY_ERROR, PTR_ERROR,
    QUEUE_EMPTY, QUEUE_ERROR, QUEUE_FULL, RESUME_ERROR, SEMAPHORE_ERROR, SIZE_ERROR, START_ERROR,
    SUSPEND_ERROR, THREAD_ERROR, THRESH_ERROR, WAIT_ABORT_ERROR, WAIT_ERROR,
};
use blocks::pool::Pool;
use numbers::{
    GroupId, NO_GROUP, NO_POOL, NO_QUEUE, NO_SEMAPHORE, NOBODY, PRIORITIES, PoolId, QueueId,
    SemaphoreId, ThreadId,
};
use objects::group::{Group, is_met};
use objects::queue::{Queue, sizes_fit};
use objects::semaphore::{LARGEST_COUNT, Semaphore};
use scheduler::thread::{COMPLETED, SUSPENDED, TERMINATED, Thread};

// The reasons that refuse a call, by ThreadX's names.
#[derive(Clone, Copy, PartialEq, Eq)]
pub enum Refusal {
    ThreadError,
    PriorityError,
    ThreshError,
    StartError,
    CallerError,
    DeleteError,
    ResumeError,
    SuspendError,
    WaitAbortError,
    NotDone,
    SemaphoreError,
    WaitError,
    NoInstance,
    CeilingExceeded,
    InvalidCeiling,
    QueueError,
    SizeError,
    PtrError,
    QueueFull,
    QueueEmpty,
    GroupError,
    OptionError,
    NoEvents,
    PoolError,
    NoMemory,
}

// The status of a reason.
impl From<Refusal> for u32 {
    ghost from_gives = { λ r status. status ≡ status_of r };

    fn from(refusal: Refusal) -> u32 {
        match refusal {
            Refusal::ThreadError => THREAD_ERROR,
            Refusal::PriorityError => PRIORITY_ERROR,
            Refusal::ThreshError => THRESH_ERROR,
            Refusal::StartError => START_ERROR,
            Refusal::CallerError => CALLER_ERROR,
            Refusal::DeleteError => DELETE_ERROR,
            Refusal::ResumeError => RESUME_ERROR,
            Refusal::SuspendError => SUSPEND_ERROR,
            Refusal::WaitAbortError => WAIT_ABORT_ERROR,
            Refusal::NotDone => NOT_DONE,
            Refusal::SemaphoreError => SEMAPHORE_ERROR,
            Refusal::WaitError => WAIT_ERROR,
            Refusal::NoInstance => NO_INSTANCE,
            Refusal::CeilingExceeded => CEILING_EXCEEDED,
            Refusal::InvalidCeiling => INVALID_CEILING,
            Refusal::QueueError => QUEUE_ERROR,
            Refusal::SizeError => SIZE_ERROR,
            Refusal::PtrError => PTR_ERROR,
            Refusal::QueueFull => QUEUE_FULL,
            Refusal::QueueEmpty => QUEUE_EMPTY,
            Refusal::GroupError => GROUP_ERROR,
            Refusal::OptionError => OPTION_ERROR,
            Refusal::NoEvents => NO_EVENTS,
            Refusal::PoolError => POOL_ERROR,
            Refusal::NoMemory => NO_MEMORY,
        }
    }
}

// The reason, unless the test holds.
fn check(fine: bool, refusal: Refusal) -> Result<(), Refusal>
    ensures { reason_of result ≡ unless fine (status_of refusal) }
{
    if fine { Ok(()) } else { Err(refusal) }
}

// Whether a thread calls and nobody runs.
pub fn nobody_runs(caller: u32, running: ThreadId) -> bool
    ensures { result ≡ nobody_runsb caller running.0 }
{
    (caller == THREAD) & !(running.0 < NOBODY)
}

pub fn create(
    t: ThreadId,
    th: Thread,
    priority: u32,
    threshold: u32,
    start: u32,
    caller: u32,
) -> Result<(), Refusal>
    ensures { reason_of result ≡ create_refusal t.0 th priority threshold start caller }
{
    check((t.0 < NOBODY) & !th.created, Refusal::ThreadError)?;
    check(priority < PRIORITIES, Refusal::PriorityError)?;
    check(threshold <= priority, Refusal::ThreshError)?;
    check(start < 2, Refusal::StartError)?;
    check(
        (caller == STARTUP) | (caller == THREAD),
        Refusal::CallerError,
    )
}

pub fn delete(th: Thread, caller: u32) -> Result<(), Refusal>
    ensures { reason_of result ≡ delete_refusal th caller }
{
    check(th.created, Refusal::ThreadError)?;
    check(caller == THREAD, Refusal::CallerError)?;
    check(
        (th.state == COMPLETED) | (th.state == TERMINATED),
        Refusal::DeleteError,
    )
}

pub fn resume(th: Thread) -> Result<(), Refusal>
    ensures { reason_of result ≡ resume_refusal th }
{
    check(th.created, Refusal::ThreadError)?;
    check(
        (th.state == SUSPENDED) | th.suspending,
        Refusal::ResumeError,
    )
}

pub fn suspend(th: Thread) -> Result<(), Refusal>
    ensures { reason_of result ≡ suspend_refusal th }
{
    check(th.created, Refusal::ThreadError)?;
    check(
        !((th.state == COMPLETED) | (th.state == TERMINATED)),
        Refusal::SuspendError,
    )
}

pub fn terminate(th: Thread, caller: u32) -> Result<(), Refusal>
    ensures { reason_of result ≡ terminate_refusal th caller }
{
    check(th.created, Refusal::ThreadError)?;
    check(caller == THREAD, Refusal::CallerError)
}

pub fn reset(th: Thread, caller: u32) -> Result<(), Refusal>
    ensures { reason_of result ≡ reset_refusal th caller }
{
    check(th.created, Refusal::ThreadError)?;
    check(caller == THREAD, Refusal::CallerError)?;
    check(
        (th.state == COMPLETED) | (th.state == TERMINATED),
        Refusal::NotDone,
    )
}

// Finish, relinquish and sleep.
pub fn thread_only(caller: u32) -> Result<(), Refusal>
    ensures { reason_of result ≡ thread_only_refusal caller }
{
    check(caller == THREAD, Refusal::CallerError)
}

pub fn abort(th: Thread) -> Result<(), Refusal>
    ensures { reason_of result ≡ abort_refusal th }
{
    check(th.created, Refusal::ThreadError)?;
    check(th.is_paused(), Refusal::WaitAbortError)
}

pub fn priority_change(th: Thread, priority: u32, caller: u32) -> Result<(), Refusal>
    ensures { reason_of result ≡ priority_refusal th priority caller }
{
    check(th.created, Refusal::ThreadError)?;
    check(priority < PRIORITIES, Refusal::PriorityError)?;
    check(caller == THREAD, Refusal::CallerError)
}

pub fn preemption_change(th: Thread, threshold: u32, caller: u32) -> Result<(), Refusal>
    ensures { reason_of result ≡ preemption_refusal th threshold caller }
{
    check(th.created, Refusal::ThreadError)?;
    check(threshold <= th.priority as u32, Refusal::ThreshError)?;
    check(caller == THREAD, Refusal::CallerError)
}

pub fn tick(caller: u32) -> Result<(), Refusal>
    ensures { reason_of result ≡ tick_refusal caller }
{
    check(caller == INTERRUPT, Refusal::CallerError)
}

// The reads of state and words.
pub fn read(th: Thread) -> Result<(), Refusal>
    ensures { reason_of result ≡ read_refusal th }
{
    check(th.created, Refusal::ThreadError)
}

pub fn semaphore_create(n: SemaphoreId, x: Semaphore, caller: u32) -> Result<(), Refusal>
    ensures { reason_of result ≡ semaphore_create_refusal n.0 x caller }
{
    check((n.0 < NO_SEMAPHORE) & !x.created, Refusal::SemaphoreError)?;
    check(
        (caller == STARTUP) | (caller == THREAD),
        Refusal::CallerError,
    )
}

pub fn semaphore_delete(x: Semaphore, caller: u32) -> Result<(), Refusal>
    ensures { reason_of result ≡ semaphore_delete_refusal x caller }
{
    check(x.created, Refusal::SemaphoreError)?;
    check(caller == THREAD, Refusal::CallerError)
}

pub fn semaphore_get(x: Semaphore, wait: u32, caller: u32) -> Result<(), Refusal>
    ensures { reason_of result ≡ semaphore_get_refusal x wait caller }
{
    check(x.created, Refusal::SemaphoreError)?;
    check((wait == 0) | (caller == THREAD), Refusal::WaitError)?;
    check((0 < wait) | (0 < x.count), Refusal::NoInstance)
}

pub fn put(x: Semaphore) -> Result<(), Refusal>
    ensures { reason_of result ≡ put_refusal x }
{
    check(x.created, Refusal::SemaphoreError)?;
    check(x.count < LARGEST_COUNT, Refusal::CeilingExceeded)
}

pub fn ceiling_put(x: Semaphore, ceiling: u32) -> Result<(), Refusal>
    ensures { reason_of result ≡ ceiling_refusal x ceiling }
{
    check(x.created, Refusal::SemaphoreError)?;
    check(0 < ceiling, Refusal::InvalidCeiling)?;
    check(x.count < ceiling, Refusal::CeilingExceeded)
}

// Prioritise.
pub fn semaphore(x: Semaphore) -> Result<(), Refusal>
    ensures { reason_of result ≡ semaphore_refusal x }
{
    check(x.created, Refusal::SemaphoreError)
}

pub fn queue_create(
    n: QueueId,
    q: Queue,
    words: u32,
    storage: u32,
    caller: u32,
) -> Result<(), Refusal>
    ensures { reason_of result ≡ queue_create_refusal n.0 q words storage caller }
{
    check((n.0 < NO_QUEUE) & !q.created, Refusal::QueueError)?;
    check(sizes_fit(words, storage), Refusal::SizeError)?;
    check(
        (caller == STARTUP) | (caller == THREAD),
        Refusal::CallerError,
    )
}

pub fn queue_delete(q: Queue, caller: u32) -> Result<(), Refusal>
    ensures { reason_of result ≡ queue_delete_refusal q caller }
{
    check(q.created, Refusal::QueueError)?;
    check(caller == THREAD, Refusal::CallerError)
}

// Send and front send; `area` is the number of words that are lent.
pub fn send(q: Queue, index: u32, area: usize, wait: u32, caller: u32) -> Result<(), Refusal>
    ensures { reason_of result ≡ send_refusal q index area wait caller }
{
    check(q.created, Refusal::QueueError)?;
    check(
        (index as usize) + (q.words as usize) <= area,
        Refusal::PtrError,
    )?;
    check((wait == 0) | (caller == THREAD), Refusal::WaitError)?;
    check((0 < wait) | q.has_room(), Refusal::QueueFull)
}

pub fn receive(q: Queue, wait: u32, caller: u32) -> Result<(), Refusal>
    ensures { reason_of result ≡ receive_refusal q wait caller }
{
    check(q.created, Refusal::QueueError)?;
    check((wait == 0) | (caller == THREAD), Refusal::WaitError)?;
    check((0 < wait) | !q.is_empty(), Refusal::QueueEmpty)
}

// Flush and prioritise.
pub fn queue(q: Queue) -> Result<(), Refusal>
    ensures { reason_of result ≡ queue_refusal q }
{
    check(q.created, Refusal::QueueError)
}

pub fn group_create(n: GroupId, g: Group, caller: u32) -> Result<(), Refusal>
    ensures { reason_of result ≡ group_create_refusal n.0 g caller }
{
    check((n.0 < NO_GROUP) & !g.created, Refusal::GroupError)?;
    check(
        (caller == STARTUP) | (caller == THREAD),
        Refusal::CallerError,
    )
}

pub fn group_delete(g: Group, caller: u32) -> Result<(), Refusal>
    ensures { reason_of result ≡ group_delete_refusal g caller }
{
    check(g.created, Refusal::GroupError)?;
    check(caller == THREAD, Refusal::CallerError)
}

pub fn flags_set(g: Group, option: u32) -> Result<(), Refusal>
    ensures { reason_of result ≡ set_refusal g option }
{
    check(g.created, Refusal::GroupError)?;
    check((option == 0) | (option == 2), Refusal::OptionError)
}

pub fn flags_get(g: Group, request: u32, option: u32, wait: u32, caller: u32) -> Result<(), Refusal>
    ensures { reason_of result ≡ get_refusal g request option wait caller }
{
    check(g.created, Refusal::GroupError)?;
    check(option <= 3, Refusal::OptionError)?;
    check((wait == 0) | (caller == THREAD), Refusal::WaitError)?;
    check(
        (0 < wait) | is_met(g.flags, request, option_of(option)),
        Refusal::NoEvents,
    )
}

pub fn pool_create(n: PoolId, p: Pool, block: u32, total: u32, caller: u32) -> Result<(), Refusal>
    ensures { reason_of result ≡ pool_create_refusal n.0 p block total caller }
{
    check((n.0 < NO_POOL) & !p.created, Refusal::PoolError)?;
    check(blocks::pool::sizes_fit(block, total), Refusal::SizeError)?;
    check(
        (caller == STARTUP) | (caller == THREAD),
        Refusal::CallerError,
    )
}

pub fn pool_delete(p: Pool, caller: u32) -> Result<(), Refusal>
    ensures { reason_of result ≡ pool_delete_refusal p caller }
{
    check(p.created, Refusal::PoolError)?;
    check(caller == THREAD, Refusal::CallerError)
}

pub fn allocate(p: Pool, wait: u32, caller: u32) -> Result<(), Refusal>
    ensures { reason_of result ≡ allocate_refusal p wait caller }
{
    check(p.created, Refusal::PoolError)?;
    check((wait == 0) | (caller == THREAD), Refusal::WaitError)?;
    check((0 < wait) | p.has_free(), Refusal::NoMemory)
}

pub fn release(p: Pool, block: u32) -> Result<(), Refusal>
    ensures { reason_of result ≡ release_refusal p block }
{
    check(p.created, Refusal::PoolError)?;
    check(p.is_used(block), Refusal::PtrError)
}

// Prioritise.
pub fn pool(p: Pool) -> Result<(), Refusal>
    ensures { reason_of result ≡ pool_refusal p }
{
    check(p.created, Refusal::PoolError)
}
