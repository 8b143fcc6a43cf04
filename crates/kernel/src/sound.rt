// The test of the tables: scheduling, what threads hold and wait for, and the records of the objects.
ghost use Rattle.std.specs.Prelude.{◌≡◌};
ghost use Rattle.blocks.specs.Pools.{pool_fitb};
ghost use Rattle.kernel.specs.Loops.{asks_fitb};
ghost use Rattle.kernel.specs.Sound.{soundb};
ghost use Rattle.objects.specs.Queues.{queue_fitb};
ghost use Rattle.waiting.specs.Fit.{held_fitb};

use super::Kernel;
use blocks::pool::Pool;
use calls::held::Held;
use numbers::THREADS;
use objects::queue::Queue;
use scheduler::thread::{ON_BLOCK, ON_FLAGS, ON_QUEUE, ON_SEMAPHORE, Thread};
use waiting::fit::{
    group_waits, groups_fit, paused_fits, pool_waits, queue_waits, resting_fits, semaphore_waits,
    semaphores_fit, unheld_fits,
};

// Whether a thread with this record may hold `h`.
fn held_fits(th: Thread, h: &Held) -> bool
    ensures { result ≡ held_fitb th h.now }
{
    if th.is_paused() {
        paused_fits(th, *h)
    } else if th.created {
        resting_fits(*h)
    } else {
        unheld_fits(*h)
    }
}

// Whether a queue's record is fit in itself. An empty one is tested faster.
fn queue_fits(q: &Queue) -> bool
    ensures { result ≡ queue_fitb q.now }
{
    if q.stored == 0 {
        q.is_fit_empty()
    } else {
        q.is_fit()
    }
}

// Whether a pool's record is fit in itself. An uncreated one is tested faster.
fn pool_fits(p: &Pool) -> bool
    ensures { result ≡ pool_fitb p.now }
{
    if p.created { p.is_fit() } else { p.is_zero() }
}

impl Kernel {
    // Whether a thread that holds `h` may wait on what it waits on, if it waits.
    fn wait_fits(&self, th: Thread, h: &Held) -> bool
        ensures { result ≡ asks_fitb self.now th h.now }
    {
        if !th.created {
            return true;
        }
        let n = th.object as usize;
        match th.state {
            ON_QUEUE => self.queues.get(n).is_some_and(|q| queue_waits(*h, *q)),
            ON_SEMAPHORE => self.semaphores.get(n).is_some_and(|x| semaphore_waits(*x)),
            ON_FLAGS => self.groups.get(n).is_some_and(|g| group_waits(*h, *g)),
            ON_BLOCK => self.pools.get(n).is_some_and(|p| pool_waits(*p)),
            _ => true,
        }
    }

    // Whether the tables are sound. Every record is looked at, whatever is found.
    pub fn is_sound(self) -> bool
        ensures { result ≡ soundb self }
    {
        let s = self.scheduler;
        let mut held = true;
        let mut waits = true;
        // The thread by its number: the two tables are read together, and a `zip` would name them no plainer.
        for (t, h) in self.held.iter().enumerate() {
            let th = s.threads[t];
            held &= held_fits(th, h);
            waits &= self.wait_fits(th, h);
        }
        let queues = self.queues.iter().fold(true, |ok, q| ok & queue_fits(q));
        let pools = self.pools.iter().fold(true, |ok, p| ok & pool_fits(p));
        s.is_sound()
            & held
            & waits
            & semaphores_fit(self.semaphores)
            & queues
            & groups_fit(self.groups)
            & pools
    }
}
