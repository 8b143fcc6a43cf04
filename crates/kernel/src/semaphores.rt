// Semaphore services.
//
// Create, delete and prioritise stand in each kind's file: tried as one function for all kinds, which takes the tables by value and copies them again.
ghost use Rattle.std.specs.Prelude.{◌≡◌};
ghost use Rattle.calls.specs.Held.{no_words};
ghost use Rattle.calls.specs.Statuses.{success};
ghost use Rattle.calls.specs.Chains.{semaphore_create_refusal, semaphore_get_refusal, put_refusal, ceiling_refusal, semaphore_refusal, semaphore_delete_refusal};
ghost use Rattle.kernel.specs.Tables.{semaphore_at};
ghost use Rattle.kernel.specs.Answers.{answer_of};
ghost use Rattle.kernel.specs.Loops.{answered};
ghost use Rattle.kernel.specs.Kinds.{Kind};
ghost use Rattle.kernel.specs.Edits.{carried_out, guarded};
ghost use Rattle.kernel.specs.Effects.{store_effect, give_effect, remove_effect, rank_effect, counting};
ghost use Rattle.kernel.specs.Semaphores.{semaphore_get_effect, put_effect};

use super::{Answer, Kernel, NO_WORDS};
use calls::held::Held;
use calls::refusal;
use calls::status::{DELETED, SUCCESS, WAITING};
use lines::slots::{record_in, store};
use numbers::{NOBODY, SemaphoreId};
use objects::semaphore::Semaphore;
use scheduler::thread::Place;

// A created semaphore with a count.
#[tactic(auto, unfolding(crate::specs::Effects::counting))]
fn counting(count: u32) -> Semaphore
    ensures { result ≡ counting count }
{
    Semaphore {
        created: true,
        count,
    }
}

impl Kernel {
    // The first waiter is served, else the semaphore has this count; so many waits have ended.
    fn put(&mut self, n: SemaphoreId, count: u32) -> u32
        ensures { answered self.new self.new.scheduler success no_words result ≡ answer_of (carried_out self.old (give_effect self.old Kind.semaphore n.0 no_words (counting count))) }
    {
        let first = self.scheduler.first_at(Place::semaphore(n));
        if first.0 < NOBODY {
            self.serve(first, NO_WORDS);
            1
        } else {
            store(&mut self.semaphores, n.0, counting(count));
            0
        }
    }

    pub(crate) fn semaphore_create(mut self, caller: u32, n: SemaphoreId, count: u32) -> Answer
        ensures { result ≡ answer_of (guarded self (semaphore_create_refusal n.0 (semaphore_at self n.0) caller) (store_effect Kind.semaphore n.0 (counting count))) }
    {
        let x = record_in(&self.semaphores, n.0, Semaphore::none());
        if let Err(reason) = refusal::semaphore_create(n, x, caller) {
            return self.refused(u32::from(reason));
        }
        store(&mut self.semaphores, n.0, counting(count));
        self.carried(self.scheduler, SUCCESS, NO_WORDS, 0)
    }

    pub(crate) fn semaphore_get(mut self, caller: u32, n: SemaphoreId, wait: u32) -> Answer
        ensures { result ≡ answer_of (guarded self (semaphore_get_refusal (semaphore_at self n.0) wait caller) (semaphore_get_effect self n.0 wait)) }
    {
        let x = record_in(&self.semaphores, n.0, Semaphore::none());
        if let Err(reason) = refusal::semaphore_get(x, wait, caller) {
            return self.refused(u32::from(reason));
        }
        let status = if 0 < x.count {
            store(&mut self.semaphores, n.0, counting(x.count - 1));
            SUCCESS
        } else {
            let h = Held::of(WAITING, NO_WORDS);
            self.begin_wait(false, Place::semaphore(n), wait, h);
            WAITING
        };
        self.carried(self.scheduler, status, NO_WORDS, 0)
    }

    pub(crate) fn semaphore_put(mut self, n: SemaphoreId) -> Answer
        ensures { result ≡ answer_of (guarded self (put_refusal (semaphore_at self n.0)) (put_effect self n.0)) }
    {
        let x = record_in(&self.semaphores, n.0, Semaphore::none());
        if let Err(reason) = refusal::put(x) {
            return self.refused(u32::from(reason));
        }
        let ended = self.put(n, x.count + 1);
        self.carried(self.scheduler, SUCCESS, NO_WORDS, ended)
    }

    // A put that the ceiling does not forbid.
    pub(crate) fn semaphore_ceiling_put(mut self, n: SemaphoreId, ceiling: u32) -> Answer
        ensures { result ≡ answer_of (guarded self (ceiling_refusal (semaphore_at self n.0) ceiling) (put_effect self n.0)) }
    {
        let x = record_in(&self.semaphores, n.0, Semaphore::none());
        if let Err(reason) = refusal::ceiling_put(x, ceiling) {
            return self.refused(u32::from(reason));
        }
        let ended = self.put(n, x.count + 1);
        self.carried(self.scheduler, SUCCESS, NO_WORDS, ended)
    }

    pub(crate) fn semaphore_prioritize(self, n: SemaphoreId) -> Answer
        ensures { result ≡ answer_of (guarded self (semaphore_refusal (semaphore_at self n.0)) (rank_effect Kind.semaphore n.0)) }
    {
        // From a copy of the semaphores: a borrow would copy all tables.
        let semaphores = self.semaphores;
        let x = record_in(&semaphores, n.0, Semaphore::none());
        if let Err(reason) = refusal::semaphore(x) {
            return self.refused(u32::from(reason));
        }
        let s = self.scheduler.prioritised(Place::semaphore(n));
        self.carried(s, SUCCESS, NO_WORDS, 0)
    }

    pub(crate) fn semaphore_delete(mut self, caller: u32, n: SemaphoreId) -> Answer
        ensures { result ≡ answer_of (guarded self (semaphore_delete_refusal (semaphore_at self n.0) caller) (remove_effect self Kind.semaphore n.0)) }
    {
        let x = record_in(&self.semaphores, n.0, Semaphore::none());
        if let Err(reason) = refusal::semaphore_delete(x, caller) {
            return self.refused(u32::from(reason));
        }
        let line = self.scheduler.line_at(Place::semaphore(n));
        store(&mut self.semaphores, n.0, Semaphore::none());
        self.ended_each(line, DELETED, NO_WORDS)
    }
}
