// How many of each thing there are, and the types of their numbers.

#![tactic(auto)]

ghost use Rattle.std.specs.Prelude.{◌≡◌, min};
ghost use Rattle.numbers.specs.Numbers.{threads, semaphores, queues, groups, pools};

pub const THREADS: usize = 32;

// Priorities are 0 to 31, the best first.
pub const PRIORITIES: u32 = 32;

pub const SEMAPHORES: usize = 16;

pub const QUEUES: usize = 8;

pub const GROUPS: usize = 8;

pub const POOLS: usize = 4;

// The most words that a message has, and the words of a reply.
pub const MESSAGE_WORDS: usize = 16;

// A queue's store has so many words, and a pool's list room for so many blocks.
pub const SLOTS: usize = 64;

// The numbers that stand for nobody and for no object: one past the last. Numbers and no Option, since tables, tapes and replies hold them and
// the clauses speak of them: `first_at`, `next_block`, the next thread of an answer.
pub const NOBODY: u8 = THREADS as u8;

pub const NO_SEMAPHORE: u8 = SEMAPHORES as u8;

pub const NO_QUEUE: u8 = QUEUES as u8;

pub const NO_GROUP: u8 = GROUPS as u8;

pub const NO_POOL: u8 = POOLS as u8;

pub const NO_BLOCK: u8 = SLOTS as u8;

// The number of a thread, 0 to 31. 32 stands for nobody. Each kind of thing has a type of its own, so that a queue's number cannot be taken for a
// group's; a type with a parameter for the kind would say the same in more words.
#[derive(Clone, Copy)]
pub struct ThreadId(pub u8);

// The number of a semaphore, 0 to 15. 16 stands for none.
#[derive(Clone, Copy)]
pub struct SemaphoreId(pub u8);

// The number of a queue, 0 to 7. 8 stands for none.
#[derive(Clone, Copy)]
pub struct QueueId(pub u8);

// The number of a group, 0 to 7. 8 stands for none.
#[derive(Clone, Copy)]
pub struct GroupId(pub u8);

// The number of a pool, 0 to 3. 4 stands for none.
#[derive(Clone, Copy)]
pub struct PoolId(pub u8);

// A thread's number; every number past the last stands for nobody.
impl From<u32> for ThreadId {
    ghost from_gives = { λ a r. r.0 ≡ min a threads };

    fn from(a: u32) -> ThreadId {
        ThreadId(a.min(THREADS as u32) as u8)
    }
}

// A semaphore's number; every number past the last stands for none.
impl From<u32> for SemaphoreId {
    ghost from_gives = { λ a r. r.0 ≡ min a semaphores };

    fn from(a: u32) -> SemaphoreId {
        SemaphoreId(a.min(SEMAPHORES as u32) as u8)
    }
}

// A queue's number; every number past the last stands for none.
impl From<u32> for QueueId {
    ghost from_gives = { λ a r. r.0 ≡ min a queues };

    fn from(a: u32) -> QueueId {
        QueueId(a.min(QUEUES as u32) as u8)
    }
}

// A group's number; every number past the last stands for none.
impl From<u32> for GroupId {
    ghost from_gives = { λ a r. r.0 ≡ min a groups };

    fn from(a: u32) -> GroupId {
        GroupId(a.min(GROUPS as u32) as u8)
    }
}

// A pool's number; every number past the last stands for none.
impl From<u32> for PoolId {
    ghost from_gives = { λ a r. r.0 ≡ min a pools };

    fn from(a: u32) -> PoolId {
        PoolId(a.min(POOLS as u32) as u8)
    }
}
