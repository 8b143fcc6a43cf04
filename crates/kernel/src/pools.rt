// Block pool services.
//
// Create, delete and prioritise stand in each kind's file: tried as one function for all kinds, which takes the tables by value and copies them again.
ghost use Rattle.std.specs.Prelude.{◌≡◌};
ghost use Rattle.blocks.specs.Pools.{fresh_pool};
ghost use Rattle.calls.specs.Chains.{pool_create_refusal, pool_delete_refusal, allocate_refusal, release_refusal, pool_refusal};
ghost use Rattle.kernel.specs.Tables.{pool_at};
ghost use Rattle.kernel.specs.Answers.{answer_of};
ghost use Rattle.kernel.specs.Kinds.{Kind};
ghost use Rattle.kernel.specs.Edits.{guarded};
ghost use Rattle.kernel.specs.Effects.{store_effect, remove_effect, rank_effect};
ghost use Rattle.kernel.specs.Pools.{allocate_effect, release_effect};

use super::{Answer, Kernel, NO_WORDS, two_words};
use blocks::pool::Pool;
use calls::held::Held;
use calls::refusal;
use calls::status::{DELETED, SUCCESS, WAITING};
use lines::slots::{record_in, store};
use numbers::{NOBODY, PoolId};
use scheduler::thread::Place;

impl Kernel {
    pub(crate) fn block_pool_create(
        mut self,
        caller: u32,
        n: PoolId,
        block: u32,
        total: u32,
    ) -> Answer
        ensures { result ≡ answer_of (guarded self (pool_create_refusal n.0 (pool_at self n.0) block total caller) (store_effect Kind.pool n.0 (fresh_pool block total))) }
    {
        let p = record_in(&self.pools, n.0, Pool::none());
        if let Err(reason) = refusal::pool_create(n, p, block, total, caller) {
            return self.refused(u32::from(reason));
        }
        store(&mut self.pools, n.0, Pool::of(block, total));
        self.carried(self.scheduler, SUCCESS, NO_WORDS, 0)
    }

    pub(crate) fn block_pool_delete(mut self, caller: u32, n: PoolId) -> Answer
        ensures { result ≡ answer_of (guarded self (pool_delete_refusal (pool_at self n.0) caller) (remove_effect self Kind.pool n.0)) }
    {
        let p = record_in(&self.pools, n.0, Pool::none());
        if let Err(reason) = refusal::pool_delete(p, caller) {
            return self.refused(u32::from(reason));
        }
        let line = self.scheduler.line_at(Place::pool(n));
        store(&mut self.pools, n.0, Pool::none());
        self.ended_each(line, DELETED, NO_WORDS)
    }

    pub(crate) fn block_allocate(mut self, caller: u32, n: PoolId, wait: u32) -> Answer
        ensures { result ≡ answer_of (guarded self (allocate_refusal (pool_at self n.0) wait caller) (allocate_effect self n.0 wait)) }
    {
        let p = record_in(&self.pools, n.0, Pool::none());
        if let Err(reason) = refusal::allocate(p, wait, caller) {
            return self.refused(u32::from(reason));
        }
        let (status, words) = if p.has_free() {
            store(&mut self.pools, n.0, p.without_next());
            (SUCCESS, two_words(p.next() as u32, 0))
        } else {
            self.begin_wait(false, Place::pool(n), wait, Held::of(WAITING, NO_WORDS));
            (WAITING, NO_WORDS)
        };
        self.carried(self.scheduler, status, words, 0)
    }

    // The first in line gets the block, else it is free again.
    pub(crate) fn block_release(mut self, n: PoolId, block: u8) -> Answer
        ensures { result ≡ answer_of (guarded self (release_refusal (pool_at self n.0) block) (release_effect self n.0 block)) }
    {
        let p = record_in(&self.pools, n.0, Pool::none());
        if let Err(reason) = refusal::release(p, block as u32) {
            return self.refused(u32::from(reason));
        }
        let first = self.scheduler.first_at(Place::pool(n));
        let ended = if first.0 < NOBODY {
            self.serve(first, two_words(block as u32, 0));
            1
        } else {
            store(&mut self.pools, n.0, p.with_free(block));
            0
        };
        self.carried(self.scheduler, SUCCESS, NO_WORDS, ended)
    }

    pub(crate) fn block_pool_prioritize(self, n: PoolId) -> Answer
        ensures { result ≡ answer_of (guarded self (pool_refusal (pool_at self n.0)) (rank_effect Kind.pool n.0)) }
    {
        // From a copy of the pools: a borrow would copy all tables.
        let pools = self.pools;
        let p = record_in(&pools, n.0, Pool::none());
        if let Err(reason) = refusal::pool(p) {
            return self.refused(u32::from(reason));
        }
        let s = self.scheduler.prioritised(Place::pool(n));
        self.carried(s, SUCCESS, NO_WORDS, 0)
    }
}
