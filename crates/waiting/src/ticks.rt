// The clock's next time, the ticks of one thread's wait, and what a wait that times out leaves.
ghost use Rattle.std.specs.Prelude.{◌≡◌};
ghost use Rattle.waiting.specs.Ticks.{next_time, timedb, last_tickb, timeout_status, with_ticks};

use calls::held::Held;
use calls::status::{NO_EVENTS, NO_INSTANCE, NO_MEMORY, QUEUE_EMPTY, QUEUE_FULL, SUCCESS};
use scheduler::thread::{ASLEEP, ON_FLAGS, ON_QUEUE, ON_SEMAPHORE, Thread};

// The ticks of a wait without end. A number and no Option: an argument, a record and the block have it, and `timedb` speaks of it.
pub const FOREVER: u32 = 0xFFFFFFFF;

// The clock after a tick; after the last number of 32 bits comes 0.
#[tactic(auto, unfolding(crate::specs::Ticks::next_time))]
pub fn next_time(time: u32) -> u32
    ensures { result ≡ next_time time }
{
    time.wrapping_add(1)
}

// Whether the thread's wait or sleep has an end of its own.
#[tactic(auto, unfolding(crate::specs::Ticks::timedb))]
pub fn is_timed(th: Thread) -> bool
    ensures { result ≡ timedb th }
{
    th.is_paused() & !(th.ticks == FOREVER)
}

// Whether the next tick ends the thread's wait.
pub fn is_last_tick(th: Thread) -> bool
    ensures { result ≡ last_tickb th }
{
    is_timed(th) & (th.ticks < 2)
}

#[tactic(auto, unfolding(crate::specs::Ticks::with_ticks))]
pub fn with_ticks(th: Thread, ticks: u32) -> Thread
    ensures { result ≡ with_ticks ticks th }
{
    Thread { ticks, ..th }
}

// What a wait that times out leaves.
#[tactic(auto, unfolding(crate::specs::Ticks::timeout_status))]
pub fn timeout_status(th: Thread, h: Held) -> u32
    ensures { result ≡ timeout_status th h }
{
    match th.state {
        ASLEEP => SUCCESS,
        ON_QUEUE if h.sending => QUEUE_FULL,
        ON_QUEUE => QUEUE_EMPTY,
        ON_SEMAPHORE => NO_INSTANCE,
        ON_FLAGS => NO_EVENTS,
        _ => NO_MEMORY,
    }
}
