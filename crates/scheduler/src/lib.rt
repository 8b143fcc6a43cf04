// Threads, the order in which they stand, and the choice of the one that runs.
//
// One line holds every thread that is ready or waits on an object, by the time of its joining. The order of a place
// (the ready threads of a priority, the waiters of an object) is the part of that line whose threads are there.

#![tactic(auto)]

ghost use Rattle.std.specs.Prelude.{◌≡◌};
ghost use Rattle.lines.specs.Lines.{members, line_of};
ghost use Rattle.scheduler.specs.Orders.{thread_at, line_at, first_at, with_thread, idle};

use lines::Line;
use lines::slots::{record_in, store};
use numbers::{NOBODY, THREADS, ThreadId};
use thread::{Place, Thread};

pub mod changes;
pub mod choice;
pub mod moves;
pub mod sound;
pub mod thread;

// `running` is a number, 32 for nobody, since damaged tables hold any byte.
#[derive(Clone, Copy)]
pub struct Scheduler {
    pub running: ThreadId,
    pub order: Line,
    pub threads: [Thread; THREADS],
}

impl Scheduler {
    // No thread created, nobody runs.
    pub fn start() -> Scheduler
        ensures { result ≡ idle }
    {
        Scheduler {
            running: ThreadId(NOBODY),
            order: Line::empty(),
            threads: [Thread::uncreated(); THREADS],
        }
    }

    // The record of thread `t`.
    pub fn thread_at(self, t: ThreadId) -> Thread
        ensures { result ≡ thread_at self t.0 }
    {
        record_in(&self.threads, t.0, Thread::uncreated())
    }

    // The same with another record for thread `t`, which stands where it stood.
    pub fn with_thread(mut self, t: ThreadId, th: Thread) -> Scheduler
        ensures { result ≡ with_thread self t.0 th }
    {
        store(&mut self.threads, t.0, th);
        self
    }

    // Who is first at a place.
    pub fn first_at(self, p: Place) -> ThreadId
        ensures { result.0 ≡ first_at self p }
    {
        let o = self.order;
        let found = o.as_slice().iter().copied().find(|x| {
            let th = record_in(&self.threads, *x, Thread::uncreated());
            th.is_at(p)
        });
        ThreadId(found.unwrap_or(NOBODY))
    }

    // The order of a place, whole: it never has more than 32 members.
    pub fn line_at(self, p: Place) -> Line
        ensures { (result ≡ line_of (line_at self p)) × (members result ≡ line_at self p) }
    {
        let o = self.order;
        let mut l = Line::empty();
        for x in o.as_slice() {
            if record_in(&self.threads, *x, Thread::uncreated()).is_at(p) {
                l.push(ThreadId(*x));
            }
        }
        l
    }
}
