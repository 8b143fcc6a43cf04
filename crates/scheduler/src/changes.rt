// Priority change and preemption change.
ghost use Rattle.std.specs.Prelude.{◌≡◌};
ghost use Rattle.scheduler.specs.Changes.{with_levels, priority_changed, preemption_changed};

use super::Scheduler;
use super::thread::Thread;
use numbers::ThreadId;

impl Thread {
    // Another priority and threshold; a mark lasts while the threshold is below the priority.
    fn with_levels(mut self, priority: u8, threshold: u8) -> Thread
        ensures { result ≡ with_levels priority threshold self }
    {
        self.priority = priority;
        self.threshold = threshold;
        self.marked = self.marked & (threshold < priority);
        self
    }
}

impl Scheduler {
    // The threshold is the new priority too. A ready thread joins the end of its new order, any other keeps its place.
    pub fn priority_changed(self, t: ThreadId, priority: u8) -> Scheduler
        ensures { result ≡ priority_changed self t.0 priority }
    {
        let old = self.thread_at(t);
        let th = old.with_levels(priority, priority);
        if old.is_ready() {
            return self.moved(t, th);
        }
        self.with_thread(t, th)
    }

    // Another preemption threshold; the thread keeps its place.
    pub fn preemption_changed(self, t: ThreadId, threshold: u8) -> Scheduler
        ensures { result ≡ preemption_changed self t.0 threshold }
    {
        let old = self.thread_at(t);
        let th = old.with_levels(old.priority, threshold);
        self.with_thread(t, th)
    }
}
