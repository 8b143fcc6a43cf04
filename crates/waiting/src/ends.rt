// The end of one wait: what the thread holds then, and why its wait has ended.
ghost use Rattle.std.specs.Prelude.{◌≡◌};
ghost use Rattle.waiting.specs.Ends.{reason_by, status_left, end_by};

use calls::held::Held;
use calls::status::{DELETED, SUCCESS, WAIT_ABORTED};
use numbers::MESSAGE_WORDS;
use reasons::Reason;

// What ends a wait: something is given to its object; a sender's message is taken; its object is emptied, or deleted; its last tick passes,
// with the status that this leaves; it is aborted.
#[derive(Clone, Copy)]
pub enum By {
    Give,
    Take,
    Empty,
    Delete,
    Tick(u32),
    Abort,
}

// A wait that has ended.
#[derive(Clone, Copy)]
pub struct End {
    pub held: Held,
    pub reason: Reason,
}

fn reason_of(by: By) -> Reason
    ensures { result ≡ reason_by by }
{
    match by {
        By::Give | By::Take | By::Empty => Reason::Served,
        By::Delete => Reason::Deleted,
        By::Tick(_) => Reason::TimedOut,
        By::Abort => Reason::Aborted,
    }
}

fn status_left(by: By) -> u32
    ensures { result ≡ status_left by }
{
    match by {
        By::Give | By::Take | By::Empty => SUCCESS,
        By::Delete => DELETED,
        By::Tick(status) => status,
        By::Abort => WAIT_ABORTED,
    }
}

// The step that ends one wait. The words are those that the thread is served with, zero where it is not served.
pub fn ended(by: By, words: [u32; MESSAGE_WORDS]) -> End
    ensures { result ≡ end_by by words }
{
    let held = Held::of(status_left(by), words);
    End {
        held,
        reason: reason_of(by),
    }
}
