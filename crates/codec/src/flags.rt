// Flags in a block: bytes that are 0 or 1.
ghost use Rattle.std.specs.Prelude.{◌≡◌, ◌&&◌, ◌+◌, ◌*◌, ◌<◌, length, eqb};
ghost use Rattle.lines.specs.Logic.{all_below};
ghost use Rattle.codec.specs.Layout.{state_bytes};
ghost use Rattle.codec.specs.State.{flagb, flags_fitb};

use super::layout;
use super::layout::{
    FLAGGED_BYTES, GROUPS, HELD_BYTES, POOL_BYTES, POOLS, QUEUE_BYTES, QUEUES, SEMAPHORES,
    THREAD_BYTES, THREADS,
};

// Where the first flag of each kind lies.
const THREAD_CREATED: usize = layout::THREADS_AT + layout::THREAD_CREATED;

const THREAD_MARKED: usize = layout::THREADS_AT + layout::THREAD_MARKED;

const THREAD_SUSPENDING: usize = layout::THREADS_AT + layout::THREAD_SUSPENDING;

const HELD_SENDING: usize = layout::HELD_AT + layout::HELD_SENDING;

const HELD_FRONT: usize = layout::HELD_AT + layout::HELD_FRONT;

const SEMAPHORE_CREATED: usize = layout::SEMAPHORES_AT + layout::FLAGGED_CREATED;

const QUEUE_CREATED: usize = layout::QUEUES_AT + layout::QUEUE_CREATED;

const GROUP_CREATED: usize = layout::GROUPS_AT + layout::FLAGGED_CREATED;

const POOL_CREATED: usize = layout::POOLS_AT + layout::POOL_CREATED;

// Whether n records of `size` bytes each have a flag at a byte, which for the first of them is byte `first`.
#[tactic(auto, using(crate::proofs::Laws::Flags::tests))]
fn are_flags(block: &[u8], first: usize, size: usize, n: usize) -> bool
    requires { first + size * n < length block.now }
    ensures { result ≡ all_below n (λ i. flagb block.now (first + size * i)) }
{
    // By index: one flag is looked at in each record, and no part of the block is handed on.
    let mut fit = true;
    for i in 0..n {
        fit &= block[first + size * i] <= 1;
    }
    fit
}

// Whether these bytes are a block of tables, and every flag of it is 0 or 1.
pub fn are_fit(block: &[u8]) -> bool
    ensures { result ≡ (eqb (length block.now) state_bytes && flags_fitb block.now) }
{
    if block.len() != layout::STATE_BYTES {
        return false;
    }
    are_flags(block, THREAD_CREATED, THREAD_BYTES, THREADS)
        & are_flags(block, THREAD_MARKED, THREAD_BYTES, THREADS)
        & are_flags(block, THREAD_SUSPENDING, THREAD_BYTES, THREADS)
        & are_flags(block, HELD_SENDING, HELD_BYTES, THREADS)
        & are_flags(block, HELD_FRONT, HELD_BYTES, THREADS)
        & are_flags(block, SEMAPHORE_CREATED, FLAGGED_BYTES, SEMAPHORES)
        & are_flags(block, QUEUE_CREATED, QUEUE_BYTES, QUEUES)
        & are_flags(block, GROUP_CREATED, FLAGGED_BYTES, GROUPS)
        & are_flags(block, POOL_CREATED, POOL_BYTES, POOLS)
}
