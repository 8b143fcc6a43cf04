// Waits: the scheduler when one begins, and the end of several at once.
ghost use Rattle.std.specs.Prelude.{◌≡◌};
ghost use Rattle.scheduler.specs.Orders.{thread_at, joined, moved};
ghost use Rattle.lines.specs.Lines.{members};
ghost use Rattle.scheduler.specs.Threads.{asleep, in_state};
ghost use Rattle.kernel.specs.Answers.{answer_of};
ghost use Rattle.kernel.specs.Edits.{Cause, Holds, carried_out};
ghost use Rattle.kernel.specs.Effects.{does, ends_each};

use super::{Answer, Kernel, NO_WORDS};
use calls::held::Held;
use calls::status::SUCCESS;
use lines::Line;
use lines::slots::store;
use numbers::{MESSAGE_WORDS, ThreadId};
use scheduler::Scheduler;
use scheduler::thread::Place;

// The scheduler after its running thread began to wait at a place.
pub(crate) fn with_runner_waiting(s: Scheduler, front: bool, p: Place, ticks: u32) -> Scheduler
    ensures { result ≡ joined s front s.running.0 (in_state p.state p.number ticks (thread_at s s.running.0)) }
{
    let t = s.running;
    let th = s.thread_at(t);
    s.joined(front, t, th.waiting_at(p, ticks))
}

// The scheduler after its running thread began to sleep.
pub(crate) fn with_runner_asleep(s: Scheduler, ticks: u32) -> Scheduler
    ensures { result ≡ moved s s.running.0 (in_state asleep 0 ticks (thread_at s s.running.0)) }
{
    let t = s.running;
    let th = s.thread_at(t);
    s.moved(t, th.sleeping(ticks))
}

impl Kernel {
    // The waits of all in the line end with a status and words, in order, and the call is done.
    pub(crate) fn ended_each(
        mut self,
        line: Line,
        status: u32,
        words: [u32; MESSAGE_WORDS],
    ) -> Answer
        ensures { (c : Cause) → Holds c status → result ≡ answer_of (carried_out self (does (ends_each c words (members line)))) }
    {
        let h = Held::of(status, words);
        let mut s = self.scheduler;
        for x in line.as_slice() {
            s = s.woken(ThreadId(*x));
            store(&mut self.held, *x, h);
        }
        self.carried(s, SUCCESS, NO_WORDS, u32::from(line.size()))
    }
}
