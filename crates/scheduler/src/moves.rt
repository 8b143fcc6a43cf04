// Moves: a thread gets another record and joins the order that the record puts it in.
ghost use Rattle.std.specs.Prelude.{◌≡◌};
ghost use Rattle.scheduler.specs.Orders.{moved, moved_front, joined, woken, prioritised_at};

use super::Scheduler;
use super::thread::{Place, Thread};
use lines::slots::store;
use numbers::ThreadId;

impl Scheduler {
    // Thread `t` gets another record, and joins the front of its order or the end, or none. The record is stored where the tables lie: through
    // `with_thread`, which takes them by value, a move takes a third more instructions.
    fn join(&mut self, front: bool, t: ThreadId, th: Thread)
        ensures { self.new ≡ joined self.old front t.0 th }
    {
        let o = self.order;
        store(&mut self.threads, t.0, th);
        self.order = if !th.is_standing() {
            o.without(t)
        } else if front {
            o.joined_front(t)
        } else {
            o.joined_end(t)
        };
    }

    // Thread `t` with another record, at the end of its order, or in none.
    pub fn moved(mut self, t: ThreadId, th: Thread) -> Scheduler
        ensures { result ≡ moved self t.0 th }
    {
        self.join(false, t, th);
        self
    }

    // Thread `t` with another record, at the front of its order, or in none.
    pub fn moved_front(mut self, t: ThreadId, th: Thread) -> Scheduler
        ensures { result ≡ moved_front self t.0 th }
    {
        self.join(true, t, th);
        self
    }

    // Thread `t` with another record, at the front of its order or at the end, or in none. `front` is a word of the definition `joined`.
    pub fn joined(mut self, front: bool, t: ThreadId, th: Thread) -> Scheduler
        ensures { result ≡ joined self front t.0 th }
    {
        self.join(front, t, th);
        self
    }

    // The wait or sleep of thread `t` ends.
    pub fn woken(self, t: ThreadId) -> Scheduler
        ensures { result ≡ woken self t.0 }
    {
        let th = self.thread_at(t);
        self.moved(t, th.awake())
    }

    // The first of the best priority at a place moved to its front, and nothing else.
    pub fn prioritised(mut self, p: Place) -> Scheduler
        ensures { result ≡ prioritised_at self p }
    {
        let b = self.best(p);
        self.order = self.order.fronted(b);
        self
    }
}
