// Tests of what a thread holds and waits for, and of the tables of objects.
ghost use Rattle.std.specs.Prelude.{◌≡◌, ◌==◌};
ghost use Rattle.waiting.specs.Fit.{blank_from, resting_fitb, held_zerob, paused_fitb, semaphore_waitb, queue_waitb, group_waitb, pool_waitb, semaphores_fitb, groups_fitb};

use blocks::pool::Pool;
use calls::held::Held;
use calls::status::WAITING;
use lines::slots::are_blank;
use numbers::{GROUPS, MESSAGE_WORDS, SEMAPHORES};
use objects::group::{Group, is_met};
use objects::queue::Queue;
use objects::semaphore::Semaphore;
use scheduler::thread::{ON_FLAGS, ON_QUEUE, Thread};

// Whether the words from `from` on are zero.
pub fn is_blank(words: [u32; MESSAGE_WORDS], from: u8) -> bool
    ensures { result ≡ blank_from from words }
{
    let n = (from as usize).min(MESSAGE_WORDS);
    are_blank(&words[n..], 0)
}

// Whether a thread waits or sleeps, and may hold this.
pub fn paused_fits(th: Thread, h: Held) -> bool
    ensures { result ≡ paused_fitb th h }
{
    if !th.is_paused() {
        return false;
    }
    let unsent = is_blank(h.words, 0) & !h.sending & !h.front;
    let unasked = (h.request == 0) & (h.option == 0);
    if h.status != WAITING {
        return false;
    }
    match th.state {
        ON_QUEUE => (h.sending | unsent) & unasked,
        ON_FLAGS => unsent & (h.option <= 3),
        _ => unsent & unasked,
    }
}

// Whether a created thread that neither waits nor sleeps may hold this: its words may be any.
#[tactic(auto, unfolding(crate::specs::Fit::resting_fitb))]
pub fn resting_fits(h: Held) -> bool
    ensures { result ≡ resting_fitb h }
{
    (h.status != WAITING) & !h.sending & !h.front & ((h.request == 0) & (h.option == 0))
}

// Whether a thread that is not created may hold this: it is zero. By hand: of the derived equality with a zero record the proof did not close.
#[tactic(auto, unfolding(crate::specs::Fit::held_zerob))]
pub fn unheld_fits(h: Held) -> bool
    ensures { result ≡ held_zerob h }
{
    (h.status == 0)
        & is_blank(h.words, 0)
        & !h.sending
        & !h.front
        & ((h.request == 0) & (h.option == 0))
}

// Whether a semaphore may have a waiter.
#[tactic(auto, unfolding(crate::specs::Fit::semaphore_waitb))]
pub fn semaphore_waits(x: Semaphore) -> bool
    ensures { result ≡ semaphore_waitb x }
{
    x.created & (x.count == 0)
}

// Whether a queue may have a waiter that holds `h`.
#[tactic(auto, unfolding(crate::specs::Fit::queue_waitb, calls::specs::Held::message_of))]
pub fn queue_waits(h: Held, q: Queue) -> bool
    ensures { result ≡ queue_waitb h q }
{
    if h.sending {
        return q.created & (q.is_full() & is_blank(h.words, q.words));
    }
    q.created & q.is_empty()
}

// Whether a group may have a waiter that holds `h`.
#[tactic(auto, unfolding(crate::specs::Fit::group_waitb))]
pub fn group_waits(h: Held, g: Group) -> bool
    ensures { result ≡ group_waitb h g }
{
    g.created & !is_met(g.flags, h.request, h.option)
}

// Whether a pool may have a waiter.
#[tactic(auto, unfolding(crate::specs::Fit::pool_waitb))]
pub fn pool_waits(p: Pool) -> bool
    ensures { result ≡ pool_waitb p }
{
    p.created & (p.free == 0)
}

// Whether every semaphore's record is fit in itself. One function for both tables would take the test as a closure and be no shorter. Every record
// is looked at, whatever is found.
pub fn semaphores_fit(all: [Semaphore; SEMAPHORES]) -> bool
    ensures { result ≡ semaphores_fitb all }
{
    all.iter().fold(true, |ok, x| ok & x.is_fit())
}

// Whether every group's record is fit in itself.
pub fn groups_fit(all: [Group; GROUPS]) -> bool
    ensures { result ≡ groups_fitb all }
{
    all.iter().fold(true, |ok, x| ok & x.is_fit())
}
