// Values that have a fixed number of bytes in a block, and tables of them, one behind the other.
ghost use Rattle.std.specs.Prelude.{◌≡◌, ◌*◌, ℕ, List, length};
ghost use Rattle.words.specs.Words.{word_size, half_size, word_bytes, half_bytes};
ghost use Rattle.codec.specs.Blocks.{word_of, half_of, table_of, all_bytes};
ghost use Rattle.codec.specs.Layout.{thread_size, held_size, flagged_size, queue_size, pool_size, scheduler_size, state_bytes};
ghost use Rattle.codec.specs.State.{thread_of, held_of, semaphore_of, queue_of, group_of, pool_of, scheduler_of, kernel_of};
ghost use Rattle.codec.specs.Bytes.{thread_bytes, held_bytes, semaphore_bytes, queue_bytes, group_bytes, pool_bytes, scheduler_bytes, bytes_of as kernel_bytes};

use super::layout;
use blocks::pool::Pool;
use calls::held::Held;
use kernel::Kernel;
use objects::group::Group;
use objects::queue::Queue;
use objects::semaphore::Semaphore;
use scheduler::Scheduler;
use scheduler::thread::Thread;
use words::{HALF_BYTES, WORD_BYTES, bytes_of, half_bytes_of, half_joined, joined};

// A value of BYTES bytes: it is read from a part of a block that has just that size, and written to one.
pub(crate) trait Record {
    const BYTES: usize;

    ghost BYTES: { ℕ };

    // The value that bytes spell.
    ghost value_of: { List ℕ → Self };

    // The bytes of a value.
    ghost bytes_of: { Self → List ℕ };

    // The length is asked for here and below once for all records; each part that is passed on has it.
    fn read(&mut self, b: &[u8])
        requires { length b.now ≡ BYTES }
        ensures { self.new ≡ value_of b.now };

    fn write(&self, b: &mut [u8])
        requires { length b.old ≡ BYTES }
        ensures { b.new ≡ bytes_of self.now };
}

// By index, here and below: of `iter_mut` zipped with the parts of the block a proof knows no element afterwards.
#[tactic(auto, using(crate::proofs::Laws::Reading::reads))]
pub(crate) fn read_table<T: Record, const N: usize>(all: &mut [T; N], b: &[u8])
    requires { length b.now ≡ T.BYTES * N }
    ensures { all.new ≡ table_of T.value_of T.BYTES N b.now }
{
    for i in 0..N {
        let start = T::BYTES * i;
        let end = start + T::BYTES;
        all[i].read(&b[start..end]);
    }
}

#[tactic(auto, using(crate::proofs::Laws::Writing::puts))]
pub(crate) fn write_table<T: Record + Copy, const N: usize>(all: &[T; N], b: &mut [u8])
    requires { length b.old ≡ T.BYTES * N }
    ensures { b.new ≡ all_bytes T.bytes_of all.now }
{
    for i in 0..N {
        let start = T::BYTES * i;
        let end = start + T::BYTES;
        // A variable of its own overlaps no other memory, so its words are written several at once.
        let record = all[i];
        record.write(&mut b[start..end]);
    }
}

impl Record for u32 {
    const BYTES: usize = WORD_BYTES;

    ghost BYTES = { word_size };

    ghost value_of = { word_of };

    ghost bytes_of = { word_bytes };

    #[tactic(auto, unfolding(crate::specs::Blocks::word_of))]
    fn read(&mut self, b: &[u8]) {
        *self = joined(b[0], b[1], b[2], b[3]);
    }

    fn write(&self, b: &mut [u8]) {
        b.copy_from_slice(&bytes_of(*self));
    }
}

impl Record for u16 {
    const BYTES: usize = HALF_BYTES;

    ghost BYTES = { half_size };

    ghost value_of = { half_of };

    ghost bytes_of = { half_bytes };

    #[tactic(auto, unfolding(crate::specs::Blocks::half_of))]
    fn read(&mut self, b: &[u8]) {
        *self = half_joined(b[0], b[1]);
    }

    fn write(&self, b: &mut [u8]) {
        b.copy_from_slice(&half_bytes_of(*self));
    }
}

impl Record for Thread {
    const BYTES: usize = layout::THREAD_BYTES;

    ghost BYTES = { thread_size };

    ghost value_of = { thread_of };

    ghost bytes_of = { thread_bytes };

    #[tactic(auto, unfolding(crate::specs::State::thread_of, crate::specs::Blocks::part))]
    fn read(&mut self, b: &[u8]) {
        self.created = b[layout::THREAD_CREATED] == 1;
        self.state = b[layout::THREAD_STATE];
        self.priority = b[layout::THREAD_PRIORITY];
        self.threshold = b[layout::THREAD_THRESHOLD];
        self.marked = b[layout::THREAD_MARKED] == 1;
        self.suspending = b[layout::THREAD_SUSPENDING] == 1;
        self.object = b[layout::THREAD_OBJECT];
        self.ticks
            .read(&b[layout::THREAD_TICKS..layout::THREAD_BYTES]);
    }

    fn write(&self, b: &mut [u8]) {
        b[layout::THREAD_CREATED] = u8::from(self.created);
        b[layout::THREAD_STATE] = self.state;
        b[layout::THREAD_PRIORITY] = self.priority;
        b[layout::THREAD_THRESHOLD] = self.threshold;
        b[layout::THREAD_MARKED] = u8::from(self.marked);
        b[layout::THREAD_SUSPENDING] = u8::from(self.suspending);
        b[layout::THREAD_OBJECT] = self.object;
        self.ticks
            .write(&mut b[layout::THREAD_TICKS..layout::THREAD_BYTES]);
    }
}

impl Record for Held {
    const BYTES: usize = layout::HELD_BYTES;

    ghost BYTES = { held_size };

    ghost value_of = { held_of };

    ghost bytes_of = { held_bytes };

    #[tactic(auto, unfolding(crate::specs::State::held_of, crate::specs::Blocks::part))]
    fn read(&mut self, b: &[u8]) {
        self.status
            .read(&b[layout::HELD_STATUS..layout::HELD_WORDS]);
        read_table(
            &mut self.words,
            &b[layout::HELD_WORDS..layout::HELD_SENDING],
        );
        self.sending = b[layout::HELD_SENDING] == 1;
        self.front = b[layout::HELD_FRONT] == 1;
        self.request
            .read(&b[layout::HELD_REQUEST..layout::HELD_OPTION]);
        self.option = b[layout::HELD_OPTION];
    }

    fn write(&self, b: &mut [u8]) {
        self.status
            .write(&mut b[layout::HELD_STATUS..layout::HELD_WORDS]);
        write_table(
            &self.words,
            &mut b[layout::HELD_WORDS..layout::HELD_SENDING],
        );
        b[layout::HELD_SENDING] = u8::from(self.sending);
        b[layout::HELD_FRONT] = u8::from(self.front);
        self.request
            .write(&mut b[layout::HELD_REQUEST..layout::HELD_OPTION]);
        b[layout::HELD_OPTION] = self.option;
    }
}

impl Record for Semaphore {
    const BYTES: usize = layout::FLAGGED_BYTES;

    ghost BYTES = { flagged_size };

    ghost value_of = { semaphore_of };

    ghost bytes_of = { semaphore_bytes };

    #[tactic(auto, unfolding(crate::specs::State::semaphore_of, crate::specs::Blocks::part))]
    fn read(&mut self, b: &[u8]) {
        self.created = b[layout::FLAGGED_CREATED] == 1;
        self.count
            .read(&b[layout::FLAGGED_WORD..layout::FLAGGED_BYTES]);
    }

    fn write(&self, b: &mut [u8]) {
        b[layout::FLAGGED_CREATED] = u8::from(self.created);
        self.count
            .write(&mut b[layout::FLAGGED_WORD..layout::FLAGGED_BYTES]);
    }
}

impl Record for Queue {
    const BYTES: usize = layout::QUEUE_BYTES;

    ghost BYTES = { queue_size };

    ghost value_of = { queue_of };

    ghost bytes_of = { queue_bytes };

    #[tactic(auto, unfolding(crate::specs::State::queue_of, crate::specs::Blocks::part))]
    fn read(&mut self, b: &[u8]) {
        self.created = b[layout::QUEUE_CREATED] == 1;
        self.words = b[layout::QUEUE_WORDS];
        self.storage = b[layout::QUEUE_STORAGE];
        self.stored = b[layout::QUEUE_STORED];
        read_table(
            &mut self.store,
            &b[layout::QUEUE_STORE..layout::QUEUE_BYTES],
        );
    }

    fn write(&self, b: &mut [u8]) {
        b[layout::QUEUE_CREATED] = u8::from(self.created);
        b[layout::QUEUE_WORDS] = self.words;
        b[layout::QUEUE_STORAGE] = self.storage;
        b[layout::QUEUE_STORED] = self.stored;
        write_table(
            &self.store,
            &mut b[layout::QUEUE_STORE..layout::QUEUE_BYTES],
        );
    }
}

impl Record for Group {
    const BYTES: usize = layout::FLAGGED_BYTES;

    ghost BYTES = { flagged_size };

    ghost value_of = { group_of };

    ghost bytes_of = { group_bytes };

    #[tactic(auto, unfolding(crate::specs::State::group_of, crate::specs::Blocks::part))]
    fn read(&mut self, b: &[u8]) {
        self.created = b[layout::FLAGGED_CREATED] == 1;
        self.flags
            .read(&b[layout::FLAGGED_WORD..layout::FLAGGED_BYTES]);
    }

    fn write(&self, b: &mut [u8]) {
        b[layout::FLAGGED_CREATED] = u8::from(self.created);
        self.flags
            .write(&mut b[layout::FLAGGED_WORD..layout::FLAGGED_BYTES]);
    }
}

impl Record for Pool {
    const BYTES: usize = layout::POOL_BYTES;

    ghost BYTES = { pool_size };

    ghost value_of = { pool_of };

    ghost bytes_of = { pool_bytes };

    #[tactic(auto, unfolding(crate::specs::State::pool_of, crate::specs::Blocks::part))]
    fn read(&mut self, b: &[u8]) {
        self.created = b[layout::POOL_CREATED] == 1;
        self.block.read(&b[layout::POOL_BLOCK..layout::POOL_TOTAL]);
        self.total.read(&b[layout::POOL_TOTAL..layout::POOL_FREE]);
        self.free = b[layout::POOL_FREE];
        self.list
            .copy_from_slice(&b[layout::POOL_LIST..layout::POOL_BYTES]);
    }

    fn write(&self, b: &mut [u8]) {
        b[layout::POOL_CREATED] = u8::from(self.created);
        self.block
            .write(&mut b[layout::POOL_BLOCK..layout::POOL_TOTAL]);
        self.total
            .write(&mut b[layout::POOL_TOTAL..layout::POOL_FREE]);
        b[layout::POOL_FREE] = self.free;
        b[layout::POOL_LIST..layout::POOL_BYTES].copy_from_slice(&self.list);
    }
}

impl Record for Scheduler {
    const BYTES: usize = layout::SCHEDULER_BYTES;

    ghost BYTES = { scheduler_size };

    ghost value_of = { scheduler_of };

    ghost bytes_of = { scheduler_bytes };

    #[tactic(auto, unfolding(crate::specs::State::scheduler_of, crate::specs::Blocks::part))]
    fn read(&mut self, b: &[u8]) {
        self.running.0 = b[layout::SCHEDULER_RUNNING];
        self.order
            .ids
            .copy_from_slice(&b[layout::SCHEDULER_IDS..layout::SCHEDULER_LEN]);
        self.order.len = b[layout::SCHEDULER_LEN];
        read_table(
            &mut self.threads,
            &b[layout::SCHEDULER_THREADS..layout::SCHEDULER_BYTES],
        );
    }

    fn write(&self, b: &mut [u8]) {
        b[layout::SCHEDULER_RUNNING] = self.running.0;
        b[layout::SCHEDULER_IDS..layout::SCHEDULER_LEN].copy_from_slice(&self.order.ids);
        b[layout::SCHEDULER_LEN] = self.order.len;
        write_table(
            &self.threads,
            &mut b[layout::SCHEDULER_THREADS..layout::SCHEDULER_BYTES],
        );
    }
}

impl Record for Kernel {
    const BYTES: usize = layout::STATE_BYTES;

    ghost BYTES = { state_bytes };

    ghost value_of = { kernel_of };

    ghost bytes_of = { kernel_bytes };

    #[tactic(auto, unfolding(crate::specs::State::kernel_of, crate::specs::Blocks::part))]
    fn read(&mut self, b: &[u8]) {
        self.scheduler
            .read(&b[layout::SCHEDULER_AT..layout::HELD_AT]);
        read_table(&mut self.held, &b[layout::HELD_AT..layout::SEMAPHORES_AT]);
        read_table(
            &mut self.semaphores,
            &b[layout::SEMAPHORES_AT..layout::QUEUES_AT],
        );
        read_table(&mut self.queues, &b[layout::QUEUES_AT..layout::GROUPS_AT]);
        read_table(&mut self.groups, &b[layout::GROUPS_AT..layout::POOLS_AT]);
        read_table(&mut self.pools, &b[layout::POOLS_AT..layout::CLOCK_AT]);
        self.clock.read(&b[layout::CLOCK_AT..layout::STATE_BYTES]);
    }

    fn write(&self, b: &mut [u8]) {
        self.scheduler
            .write(&mut b[layout::SCHEDULER_AT..layout::HELD_AT]);
        write_table(&self.held, &mut b[layout::HELD_AT..layout::SEMAPHORES_AT]);
        write_table(
            &self.semaphores,
            &mut b[layout::SEMAPHORES_AT..layout::QUEUES_AT],
        );
        write_table(&self.queues, &mut b[layout::QUEUES_AT..layout::GROUPS_AT]);
        write_table(&self.groups, &mut b[layout::GROUPS_AT..layout::POOLS_AT]);
        write_table(&self.pools, &mut b[layout::POOLS_AT..layout::CLOCK_AT]);
        self.clock
            .write(&mut b[layout::CLOCK_AT..layout::STATE_BYTES]);
    }
}
