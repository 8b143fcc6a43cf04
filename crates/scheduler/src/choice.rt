// The choice of the next thread.
ghost use Rattle.std.specs.Prelude.{◌≡◌, refl, Bool, false, ◌&&◌, ◌||◌, not, ◌≤◌, ltb};
ghost use Rattle.numbers.specs.Numbers.{nobody};
ghost use Rattle.scheduler.specs.Choice.{best_among, best_ready, rescheduled, relinquished};
ghost use Rattle.scheduler.specs.declared.thread.Thread.{Thread};
ghost use Rattle.scheduler.specs.Threads.{uncreated, readyb, waitsb, standsb, placedb};
ghost use Rattle.scheduler.specs.Loops.{considered_of};

use super::Scheduler;
use super::thread::{Place, Thread};
use lines::slots::record_in;
use lines::{Best, LARGEST_KEY, better};
use numbers::{NOBODY, THREADS, ThreadId};

// What a pass over nobody has found.
const NOBODY_YET: Best = Best {
    id: ThreadId(NOBODY),
    key: LARGEST_KEY,
};

// Of thread `x` and the best of those behind it the better; a thread that is not wanted does not count. A priority is
// a byte, so nobody's key is never the smaller.
fn considered(wanted: bool, x: Best, b: Best) -> Best
    ensures best { result ≡ considered_of wanted x b }
    ensures in_byte { x.key ≤ 255 }
{
    if wanted { better(x.id, x.key, b) } else { b }
}

// Whether the best ready thread overtakes thread `t`: there is one, and `t` is nobody or its threshold lets it pass.
fn overtakes(best: Best, t: ThreadId, threshold: u8) -> bool
    ensures { result ≡ (ltb best.id.0 nobody && (not (ltb t.0 nobody) || ltb best.key threshold)) }
{
    (best.id.0 < NOBODY) & (!(t.0 < NOBODY) | (best.key < threshold))
}

// A test of a thread's record, by which the best is looked for. It holds of no record past the table.
pub(crate) trait Test: Copy {
    ghost test: { Self → Thread → Bool };

    fn holds(self, th: Thread) -> bool
        ensures { result ≡ test self th };

    ghost none_past: { (x : Self) → test x uncreated ≡ false };
}

// The test of the ready threads.
#[derive(Clone, Copy)]
pub(crate) struct Ready;

impl Test for Ready {
    ghost test = { λ r. readyb };

    ghost none_past = { λ r. unfold readyb in unfold uncreated in refl };

    fn holds(self, th: Thread) -> bool {
        th.is_ready()
    }
}

// The test of the threads at a place.
impl Test for Place {
    ghost test = { placedb };

    ghost none_past = { λ p. unfold placedb in unfold standsb in unfold readyb in unfold waitsb in unfold uncreated in refl };

    fn holds(self, th: Thread) -> bool {
        th.is_at(self)
    }
}

impl Scheduler {
    // The first of the best priority among those for whose records a test holds.
    pub(crate) fn best<T: Test>(self, wanted: T) -> ThreadId
        ensures { result.0 ≡ best_among (T.test wanted) self }
    {
        let o = self.order;
        let mut b = NOBODY_YET;
        for x in o.as_slice().iter().rev() {
            if let Some(th) = self.threads.get(*x as usize) {
                let x = Best {
                    id: ThreadId(*x),
                    key: th.priority,
                };
                b = considered(wanted.holds(*th), x, b);
            }
        }
        b.id
    }

    // The first ready thread of the best priority.
    pub fn best_ready(self) -> ThreadId
        ensures { result.0 ≡ best_ready self }
    {
        self.best(Ready)
    }

    // The choice after a call, made where the tables lie: one pass finds the best ready thread and the best marked one. A runner that stays,
    // else the best marked thread, goes on unless the best ready thread overtakes it. Two passes by `best` would be slower, and this ends almost
    // every call.
    pub fn rescheduled(mut self, relinquished: bool) -> Scheduler
        ensures { result ≡ rescheduled self relinquished }
    {
        let o = self.order;
        let mut ready = NOBODY_YET;
        let mut marked = NOBODY_YET;
        for x in o.as_slice().iter().rev() {
            if let Some(th) = self.threads.get(*x as usize) {
                let x = Best {
                    id: ThreadId(*x),
                    key: th.priority,
                };
                let is_ready = th.is_ready();
                ready = considered(is_ready, x, ready);
                marked = considered(is_ready & th.marked, x, marked);
            }
        }
        let r = self.running;
        let runner = record_in(&self.threads, r.0, Thread::uncreated());
        let stays = runner.is_ready() & !relinquished;
        let mut next = if stays { r } else { marked.id };
        let other = record_in(&self.threads, next.0, Thread::uncreated());
        if overtakes(ready, next, other.threshold) {
            if stays {
                self.threads[r.0 as usize].marked = runner.threshold < runner.priority;
            }
            next = ready.id;
        }
        // By index: one field is written, where `store` would write the whole record.
        let i = next.0 as usize;
        if i < THREADS {
            self.threads[i].marked = false;
        }
        self.running = next;
        self
    }

    // The runner goes to the end of its order, and the choice is made as for one who gives up the processor.
    pub fn relinquished(self) -> Scheduler
        ensures { result ≡ relinquished self }
    {
        let r = self.running;
        let th = self.thread_at(r);
        self.moved(r, th).rescheduled(true)
    }
}
