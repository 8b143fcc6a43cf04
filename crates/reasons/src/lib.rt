// Why waits end, and how many have ended for each reason.

#![tactic(auto)]

ghost use Rattle.std.specs.Prelude.{◌≡◌};
ghost use Rattle.reasons.specs.Reasons.{counts_of};

// Why a wait has ended: its object served it, its last tick has passed, it was aborted, its object was deleted.
#[derive(Clone, Copy)]
pub enum Reason {
    Served,
    TimedOut,
    Aborted,
    Deleted,
}

// How many waits a call has ended for each reason.
#[repr(C)]
#[derive(Clone, Copy)]
pub struct Counts {
    pub served: u32,
    pub timeouts: u32,
    pub aborted: u32,
    pub deleted: u32,
}

// The counts of a call that has ended no wait.
pub const NO_WAITS: Counts = Counts {
    served: 0,
    timeouts: 0,
    aborted: 0,
    deleted: 0,
};

impl Counts {
    // `n` waits have ended, all for one reason.
    pub fn of(reason: Reason, n: u32) -> Counts
        ensures { result ≡ counts_of reason n }
    {
        match reason {
            Reason::Served => Counts {
                served: n,
                ..NO_WAITS
            },
            Reason::TimedOut => Counts {
                timeouts: n,
                ..NO_WAITS
            },
            Reason::Aborted => Counts {
                aborted: n,
                ..NO_WAITS
            },
            Reason::Deleted => Counts {
                deleted: n,
                ..NO_WAITS
            },
        }
    }
}
