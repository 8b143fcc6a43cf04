// The test of the scheduler's tables.
ghost use Rattle.std.specs.Prelude.{◌≡◌};
ghost use Rattle.scheduler.specs.Sound.{soundb};

use super::Scheduler;
use numbers::{NOBODY, THREADS};

impl Scheduler {
    // Whether the tables are sound: the line is clean, each thread stands as often as its fit record says, no ready thread is
    // better than the runner's threshold, and the runner is a ready thread with no mark, or nobody where no thread is ready.
    pub fn is_sound(self) -> bool
        ensures { result ≡ soundb self }
    {
        let o = self.order;
        let r = self.running;
        let runner = self.thread_at(r);
        let limit = runner.threshold;
        let counts = o.tally();
        // The count by its number: `counts` has one slot more, and a `zip` would read no plainer.
        for (t, th) in self.threads.iter().enumerate() {
            if !th.is_placed(counts[t], limit) {
                return false;
            }
        }
        let lined = o.is_clean() & (counts[THREADS] == 0);
        if r.0 < NOBODY {
            return lined & (runner.is_ready() & !runner.marked);
        }
        let h = self.best_ready();
        lined & ((r.0 == NOBODY) & (h.0 == NOBODY))
    }
}
