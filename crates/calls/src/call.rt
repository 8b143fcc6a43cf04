// A call, decoded from its number and arguments.
ghost use Rattle.std.specs.Prelude.{◌≡◌, min};
ghost use Rattle.numbers.specs.Numbers.{slots};
ghost use Rattle.calls.specs.Calls.{decoded};

use numbers::{GroupId, PoolId, QueueId, SLOTS, SemaphoreId, ThreadId};

// Who calls is a number and no enum: the clauses speak of every number, and a narrower type would ask more of callers.
pub const STARTUP: u32 = 0;

pub const INTERRUPT: u32 = 1;

pub const THREAD: u32 = 2;

// What a caller asks: the number of a call, the caller's kind and four arguments. All are numbers, as C and a tape pass them: the clauses speak of
// every number, also of those that are no call, no start of a thread and no option.
#[derive(Clone, Copy)]
pub struct Request {
    pub number: u32,
    pub caller: u32,
    pub a: u32,
    pub b: u32,
    pub c: u32,
    pub d: u32,
}

// A known call with its arguments, by ThreadX's service names.
#[derive(Clone, Copy)]
pub enum Call {
    ThreadCreate(ThreadId, u32, u32, u32),
    ThreadDelete(ThreadId),
    ThreadResume(ThreadId),
    ThreadSuspend(ThreadId),
    ThreadTerminate(ThreadId),
    ThreadReset(ThreadId),
    ThreadFinish,
    ThreadRelinquish,
    ThreadSleep(u32),
    ThreadWaitAbort(ThreadId),
    ThreadPriorityChange(ThreadId, u32),
    ThreadPreemptionChange(ThreadId, u32),
    TimeGet,
    TimeSet(u32),
    Tick,
    SemaphoreCreate(SemaphoreId, u32),
    SemaphoreDelete(SemaphoreId),
    SemaphoreGet(SemaphoreId, u32),
    SemaphorePut(SemaphoreId),
    SemaphoreCeilingPut(SemaphoreId, u32),
    SemaphorePrioritize(SemaphoreId),
    QueueCreate(QueueId, u32, u32),
    QueueDelete(QueueId),
    QueueSend(QueueId, u32, u32),
    QueueFrontSend(QueueId, u32, u32),
    QueueReceive(QueueId, u32),
    QueueFlush(QueueId),
    QueuePrioritize(QueueId),
    EventFlagsCreate(GroupId),
    EventFlagsDelete(GroupId),
    EventFlagsSet(GroupId, u32, u32),
    EventFlagsGet(GroupId, u32, u32, u32),
    BlockPoolCreate(PoolId, u32, u32),
    BlockPoolDelete(PoolId),
    BlockAllocate(PoolId, u32),
    BlockRelease(PoolId, u8),
    BlockPoolPrioritize(PoolId),
    ThreadStateRead(ThreadId),
    ThreadWordsRead(ThreadId),
}

// A block's number as a byte; every number past the last block that a pool can have stands for none.
pub fn block_number(b: u32) -> u8
    ensures { result ≡ min b slots }
{
    b.min(SLOTS as u32) as u8
}

// A request's option as a byte; every option past the last stands for the one behind it, which no call has.
pub fn option_of(option: u32) -> u8
    ensures { result ≡ min option 4 }
{
    option.min(4) as u8
}

// The call that a request is for; none where its number or its caller is unknown.
#[tactic(auto, unfolding(crate::specs::Calls::decoded, crate::specs::Calls::known_call))]
pub fn decode(request: Request) -> Option<Call>
    ensures { result ≡ decoded request }
{
    let Request {
        number,
        caller,
        a,
        b,
        c,
        d,
    } = request;
    if THREAD < caller {
        return None;
    }
    let t = ThreadId::from(a);
    let s = SemaphoreId::from(a);
    let q = QueueId::from(a);
    let g = GroupId::from(a);
    let p = PoolId::from(a);
    let n = block_number(b);
    Some(match number {
        1 => Call::ThreadCreate(t, b, c, d),
        2 => Call::ThreadDelete(t),
        3 => Call::ThreadResume(t),
        4 => Call::ThreadSuspend(t),
        5 => Call::ThreadTerminate(t),
        6 => Call::ThreadReset(t),
        7 => Call::ThreadFinish,
        8 => Call::ThreadRelinquish,
        9 => Call::ThreadSleep(a),
        10 => Call::ThreadWaitAbort(t),
        11 => Call::ThreadPriorityChange(t, b),
        12 => Call::ThreadPreemptionChange(t, b),
        13 => Call::TimeGet,
        14 => Call::TimeSet(a),
        15 => Call::Tick,
        16 => Call::SemaphoreCreate(s, b),
        17 => Call::SemaphoreDelete(s),
        18 => Call::SemaphoreGet(s, b),
        19 => Call::SemaphorePut(s),
        20 => Call::SemaphoreCeilingPut(s, b),
        21 => Call::SemaphorePrioritize(s),
        22 => Call::QueueCreate(q, b, c),
        23 => Call::QueueDelete(q),
        24 => Call::QueueSend(q, b, c),
        25 => Call::QueueFrontSend(q, b, c),
        26 => Call::QueueReceive(q, b),
        27 => Call::QueueFlush(q),
        28 => Call::QueuePrioritize(q),
        29 => Call::EventFlagsCreate(g),
        30 => Call::EventFlagsDelete(g),
        31 => Call::EventFlagsSet(g, b, c),
        32 => Call::EventFlagsGet(g, b, c, d),
        33 => Call::BlockPoolCreate(p, b, c),
        34 => Call::BlockPoolDelete(p),
        35 => Call::BlockAllocate(p, b),
        36 => Call::BlockRelease(p, n),
        37 => Call::BlockPoolPrioritize(p),
        38 => Call::ThreadStateRead(t),
        39 => Call::ThreadWordsRead(t),
        _ => return None,
    })
}
