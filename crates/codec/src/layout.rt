// How tables lie in a block: how many records each has, where each field of a record begins, from the one before, and how many bytes it has.
use words::{HALF_BYTES, WORD_BYTES};

// ---- how many there are
pub(crate) const THREADS: usize = numbers::THREADS;

pub(crate) const SEMAPHORES: usize = numbers::SEMAPHORES;

pub(crate) const QUEUES: usize = numbers::QUEUES;

pub(crate) const GROUPS: usize = numbers::GROUPS;

pub(crate) const POOLS: usize = numbers::POOLS;

pub(crate) const WORDS: usize = numbers::MESSAGE_WORDS;

pub(crate) const STORE_WORDS: usize = numbers::SLOTS;

pub(crate) const LIST_BLOCKS: usize = numbers::SLOTS;

// ---- a thread
pub(crate) const THREAD_CREATED: usize = 0;

pub(crate) const THREAD_STATE: usize = THREAD_CREATED + 1;

pub(crate) const THREAD_PRIORITY: usize = THREAD_STATE + 1;

pub(crate) const THREAD_THRESHOLD: usize = THREAD_PRIORITY + 1;

pub(crate) const THREAD_MARKED: usize = THREAD_THRESHOLD + 1;

pub(crate) const THREAD_SUSPENDING: usize = THREAD_MARKED + 1;

pub(crate) const THREAD_OBJECT: usize = THREAD_SUSPENDING + 1;

pub(crate) const THREAD_TICKS: usize = THREAD_OBJECT + 1;

pub(crate) const THREAD_BYTES: usize = THREAD_TICKS + WORD_BYTES;

// ---- what a thread holds
pub(crate) const WORDS_BYTES: usize = WORD_BYTES * WORDS;

pub(crate) const HELD_STATUS: usize = 0;

pub(crate) const HELD_WORDS: usize = HELD_STATUS + WORD_BYTES;

pub(crate) const HELD_SENDING: usize = HELD_WORDS + WORDS_BYTES;

pub(crate) const HELD_FRONT: usize = HELD_SENDING + 1;

pub(crate) const HELD_REQUEST: usize = HELD_FRONT + 1;

pub(crate) const HELD_OPTION: usize = HELD_REQUEST + WORD_BYTES;

pub(crate) const HELD_BYTES: usize = HELD_OPTION + 1;

// ---- a semaphore, or a group: a flag and a word
pub(crate) const FLAGGED_CREATED: usize = 0;

pub(crate) const FLAGGED_WORD: usize = FLAGGED_CREATED + 1;

pub(crate) const FLAGGED_BYTES: usize = FLAGGED_WORD + WORD_BYTES;

// ---- a queue
pub(crate) const STORE_BYTES: usize = WORD_BYTES * STORE_WORDS;

pub(crate) const QUEUE_CREATED: usize = 0;

pub(crate) const QUEUE_WORDS: usize = QUEUE_CREATED + 1;

pub(crate) const QUEUE_STORAGE: usize = QUEUE_WORDS + 1;

pub(crate) const QUEUE_STORED: usize = QUEUE_STORAGE + 1;

pub(crate) const QUEUE_STORE: usize = QUEUE_STORED + 1;

pub(crate) const QUEUE_BYTES: usize = QUEUE_STORE + STORE_BYTES;

// ---- a pool
pub(crate) const POOL_CREATED: usize = 0;

pub(crate) const POOL_BLOCK: usize = POOL_CREATED + 1;

pub(crate) const POOL_TOTAL: usize = POOL_BLOCK + HALF_BYTES;

pub(crate) const POOL_FREE: usize = POOL_TOTAL + WORD_BYTES;

pub(crate) const POOL_LIST: usize = POOL_FREE + 1;

pub(crate) const POOL_BYTES: usize = POOL_LIST + LIST_BLOCKS;

// ---- the scheduler
pub(crate) const SCHEDULER_RUNNING: usize = 0;

pub(crate) const SCHEDULER_IDS: usize = SCHEDULER_RUNNING + 1;

pub(crate) const SCHEDULER_LEN: usize = SCHEDULER_IDS + THREADS;

pub(crate) const SCHEDULER_THREADS: usize = SCHEDULER_LEN + 1;

pub(crate) const SCHEDULER_BYTES: usize = SCHEDULER_THREADS + THREAD_BYTES * THREADS;

// ---- the tables
pub(crate) const SCHEDULER_AT: usize = 0;

pub(crate) const THREADS_AT: usize = SCHEDULER_AT + SCHEDULER_THREADS;

pub(crate) const HELD_AT: usize = SCHEDULER_AT + SCHEDULER_BYTES;

pub(crate) const SEMAPHORES_AT: usize = HELD_AT + HELD_BYTES * THREADS;

pub(crate) const QUEUES_AT: usize = SEMAPHORES_AT + FLAGGED_BYTES * SEMAPHORES;

pub(crate) const GROUPS_AT: usize = QUEUES_AT + QUEUE_BYTES * QUEUES;

pub(crate) const POOLS_AT: usize = GROUPS_AT + FLAGGED_BYTES * GROUPS;

pub(crate) const CLOCK_AT: usize = POOLS_AT + POOL_BYTES * POOLS;

pub const STATE_BYTES: usize = CLOCK_AT + WORD_BYTES;
