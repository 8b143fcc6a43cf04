// The statuses, by ThreadX's names where it has one. Those from 0x100 on are this library's own.
// They are numbers and no enum, since C reads them and the clauses of answers and of what a thread holds speak of every number.
pub const SUCCESS: u32 = 0x00;

pub const DELETED: u32 = 0x01;

pub const POOL_ERROR: u32 = 0x02;

pub const PTR_ERROR: u32 = 0x03;

pub const WAIT_ERROR: u32 = 0x04;

pub const SIZE_ERROR: u32 = 0x05;

pub const GROUP_ERROR: u32 = 0x06;

pub const NO_EVENTS: u32 = 0x07;

pub const OPTION_ERROR: u32 = 0x08;

pub const QUEUE_ERROR: u32 = 0x09;

pub const QUEUE_EMPTY: u32 = 0x0A;

pub const QUEUE_FULL: u32 = 0x0B;

pub const SEMAPHORE_ERROR: u32 = 0x0C;

pub const NO_INSTANCE: u32 = 0x0D;

pub const THREAD_ERROR: u32 = 0x0E;

pub const PRIORITY_ERROR: u32 = 0x0F;

pub const START_ERROR: u32 = 0x10;

pub const NO_MEMORY: u32 = 0x10;

pub const DELETE_ERROR: u32 = 0x11;

pub const RESUME_ERROR: u32 = 0x12;

pub const CALLER_ERROR: u32 = 0x13;

pub const SUSPEND_ERROR: u32 = 0x14;

pub const THRESH_ERROR: u32 = 0x18;

pub const SUSPEND_LIFTED: u32 = 0x19;

pub const WAIT_ABORTED: u32 = 0x1A;

pub const WAIT_ABORT_ERROR: u32 = 0x1B;

pub const NOT_DONE: u32 = 0x20;

pub const CEILING_EXCEEDED: u32 = 0x21;

pub const INVALID_CEILING: u32 = 0x22;

pub const TABLES_UNSOUND: u32 = 0x100;

pub const WAITING: u32 = 0x101;

pub const NOBODY_RUNS: u32 = 0x102;

pub const TAPE_REFUSED: u32 = 0x103;

pub const UNKNOWN_CALL: u32 = 0x104;
