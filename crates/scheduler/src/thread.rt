// What scheduling needs of a thread, and the place where a thread stands.
ghost use Rattle.std.specs.Prelude.{◌≡◌, ◌&&◌, leb};
ghost use Rattle.lines.specs.Logic.{implies};
ghost use Rattle.scheduler.specs.Threads.{asleep, on_queue, on_semaphore, on_flags, on_block, uncreated, readyb, waitsb, pausedb, restsb, standsb, number_of, placedb, ready_at, waiters_at, in_state, at_rest, awake, with_suspension, created};
ghost use Rattle.scheduler.specs.Sound.{limitsb, zerob, fitb, countedb};

use numbers::{GroupId, PRIORITIES, PoolId, QueueId, SemaphoreId};

// The states are numbers, since damaged tables hold any byte: the soundness test answers for those past the last too.
pub const READY: u8 = 0;

pub const COMPLETED: u8 = 1;

pub const TERMINATED: u8 = 2;

pub const SUSPENDED: u8 = 3;

pub const ASLEEP: u8 = 4;

pub const ON_QUEUE: u8 = 5;

pub const ON_SEMAPHORE: u8 = 6;

pub const ON_FLAGS: u8 = 7;

pub const ON_BLOCK: u8 = 8;

// A thread's record. `suspending` says that a suspension is held until the wait ends; `ticks` are those left of a
// wait or sleep, the largest number for one without end. `created` stands beside the fields, and no Option around them: damaged tables may hold an
// uncreated record that is not zero, which `fitb` refuses.
#[derive(Clone, Copy, PartialEq, Eq)]
pub struct Thread {
    pub created: bool,
    pub state: u8,
    pub priority: u8,
    pub threshold: u8,
    pub marked: bool,
    pub suspending: bool,
    pub object: u8,
    pub ticks: u32,
}

// Where threads stand: a state, and the priority of the ready threads or the object of the waiters. Two numbers, since they are compared
// with those of a record, which may be any; an enum would be taken apart into them at each test.
#[derive(Clone, Copy)]
pub struct Place {
    state: u8,
    number: u8,
}

// One constructor for each type of number: a trait for them would have an impl as long as each of these.
impl Place {
    // Where the ready threads of a priority stand.
    pub fn ready(priority: u8) -> Place
        ensures { result ≡ ready_at priority }
    {
        Place {
            state: READY,
            number: priority,
        }
    }

    // Where those who wait on a semaphore stand.
    pub fn semaphore(n: SemaphoreId) -> Place
        ensures { result ≡ waiters_at on_semaphore n.0 }
    {
        Place {
            state: ON_SEMAPHORE,
            number: n.0,
        }
    }

    // Where those who wait on a queue stand.
    pub fn queue(n: QueueId) -> Place
        ensures { result ≡ waiters_at on_queue n.0 }
    {
        Place {
            state: ON_QUEUE,
            number: n.0,
        }
    }

    // Where those who wait for flags of a group stand.
    pub fn group(n: GroupId) -> Place
        ensures { result ≡ waiters_at on_flags n.0 }
    {
        Place {
            state: ON_FLAGS,
            number: n.0,
        }
    }

    // Where those who wait for a block of a pool stand.
    pub fn pool(n: PoolId) -> Place
        ensures { result ≡ waiters_at on_block n.0 }
    {
        Place {
            state: ON_BLOCK,
            number: n.0,
        }
    }
}

impl Thread {
    // The record of a thread that is not created, and of one past the table: all zero.
    pub fn uncreated() -> Thread
        ensures { result ≡ uncreated }
    {
        Thread {
            created: false,
            state: READY,
            priority: 0,
            threshold: 0,
            marked: false,
            suspending: false,
            object: 0,
            ticks: 0,
        }
    }

    // The record of a thread that is created.
    pub fn created(state: u8, priority: u8, threshold: u8) -> Thread
        ensures { result ≡ created state priority threshold }
    {
        Thread {
            created: true,
            state,
            priority,
            threshold,
            ..Thread::uncreated()
        }
    }

    // The thread in another state: its mark and a held suspension end.
    fn in_state(mut self, state: u8, object: u8, ticks: u32) -> Thread
        ensures { result ≡ in_state state object ticks self }
    {
        self.state = state;
        self.marked = false;
        self.suspending = false;
        self.object = object;
        self.ticks = ticks;
        self
    }

    // The thread ready, suspended, completed or terminated.
    pub fn at_rest(self, state: u8) -> Thread
        ensures { result ≡ at_rest state self }
    {
        self.in_state(state, 0, 0)
    }

    // The thread waiting at place `p`.
    pub fn waiting_at(self, p: Place, ticks: u32) -> Thread
        ensures { result ≡ in_state p.state p.number ticks self }
    {
        self.in_state(p.state, p.number, ticks)
    }

    // The thread asleep.
    pub fn sleeping(self, ticks: u32) -> Thread
        ensures { result ≡ in_state asleep 0 ticks self }
    {
        self.in_state(ASLEEP, 0, ticks)
    }

    // The thread when its wait or sleep has ended: a held suspension takes effect.
    pub fn awake(self) -> Thread
        ensures { result ≡ awake self }
    {
        if self.suspending {
            self.at_rest(SUSPENDED)
        } else {
            self.at_rest(READY)
        }
    }

    // The thread with a suspension held, or lifted.
    pub fn with_suspension(mut self, held: bool) -> Thread
        ensures { result ≡ with_suspension held self }
    {
        self.suspending = held;
        self
    }

    pub fn is_ready(self) -> bool
        ensures { result ≡ readyb self }
    {
        self.created & (self.state == READY)
    }

    // Whether the thread waits on an object.
    pub fn is_waiting(self) -> bool
        ensures { result ≡ waitsb self }
    {
        self.created & (ASLEEP < self.state)
    }

    // Whether the thread waits or sleeps.
    pub fn is_paused(self) -> bool
        ensures { result ≡ pausedb self }
    {
        self.is_waiting() | (self.created & (self.state == ASLEEP))
    }

    // Whether the thread stands in an order.
    pub fn is_standing(self) -> bool
        ensures { result ≡ standsb self }
    {
        self.is_ready() | self.is_waiting()
    }

    // The number beside the state of the place where the thread stands.
    fn number(self) -> u8
        ensures { result ≡ number_of self }
    {
        if self.state == READY {
            self.priority
        } else {
            self.object
        }
    }

    // Whether the thread stands at place `p`.
    pub fn is_at(self, p: Place) -> bool
        ensures { result ≡ placedb p self }
    {
        self.is_standing() & (self.state == p.state) & (self.number() == p.number)
    }

    // Whether the record of a thread that is not created is zero. The field `created` is not looked at.
    fn is_zero(self) -> bool
        ensures { result ≡ zerob self }
    {
        let th = Thread {
            created: false,
            ..self
        };
        th == Thread::uncreated()
    }

    // Whether state, priority and threshold are within bounds.
    fn is_limited(self) -> bool
        ensures { result ≡ limitsb self }
    {
        (self.state <= ON_BLOCK)
            & ((self.priority as u32) < PRIORITIES)
            & (self.threshold <= self.priority)
    }

    // Whether the thread is ready and not better than `limit`, and its record fit in itself.
    fn is_fit_ready(self, limit: u8) -> bool
        ensures { result ≡ (readyb self && fitb self && leb limit self.priority) }
    {
        let mark = !self.marked | (self.threshold < self.priority);
        let fit = self.is_ready()
            & self.is_limited()
            & mark
            & !self.suspending
            & (self.ticks == 0)
            & (self.object == 0);
        fit & (limit <= self.priority)
    }

    // Whether the thread is completed, terminated or suspended, and its record fit in itself.
    fn is_fit_resting(self) -> bool
        ensures { result ≡ (restsb self && fitb self) }
    {
        let rests = self.created & (READY < self.state) & (self.state < ASLEEP);
        rests
            & self.is_limited()
            & !self.marked
            & !self.suspending
            & (self.ticks == 0)
            & (self.object == 0)
    }

    // Whether the thread waits or sleeps, and its record is fit in itself.
    fn is_fit_paused(self) -> bool
        ensures { result ≡ (pausedb self && fitb self) }
    {
        let object = (ASLEEP < self.state) | (self.object == 0);
        self.is_paused() & self.is_limited() & !self.marked & (0 < self.ticks) & object
    }

    // Whether the record is fit, says that its thread stands `n` times, and is not that of a ready thread better than `limit`.
    // Each state has its own few tests.
    pub fn is_placed(self, n: u8, limit: u8) -> bool
        ensures { result ≡ (countedb n self && implies (readyb self) (leb limit self.priority)) }
    {
        if self.created {
            if self.state == READY {
                return (n == 1) & self.is_fit_ready(limit);
            }
            if self.state < ASLEEP {
                return (n == 0) & self.is_fit_resting();
            }
            if self.state == ASLEEP {
                return (n == 0) & self.is_fit_paused();
            }
            return (n == 1) & self.is_fit_paused();
        }
        (n == 0) & self.is_zero()
    }
}
