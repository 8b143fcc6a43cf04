// Which waiters of an event flags group a set wakes, and which flags they clear.

#![tactic(auto)]

ghost use Rattle.std.specs.Prelude.{◌≡◌};
ghost use Rattle.lines.specs.Lines.{members, line_of};
ghost use Rattle.matching.specs.Loops.{woken_of, clears_of};

use lines::Line;
use numbers::{THREADS, ThreadId};
use objects::group::{cleared_by, is_met};

// The woken waiters in line order, and the flags that are taken off afterwards.
#[derive(Clone, Copy)]
pub struct Matched {
    pub line: Line,
    pub clears: u32,
}

// Tests every waiter of the line, in order, against the same flags. A thread's request and option stand under its number, in two arrays,
// since `woken_of` and `clears_of`, by which the clauses say the answer, speak of two lists.
pub fn woken(line: Line, flags: u32, requests: [u32; THREADS], options: [u8; THREADS]) -> Matched
    ensures line { result.line ≡ line_of (woken_of flags requests options (members line)) }
    ensures clears { result.clears ≡ clears_of flags requests options (members line) }
{
    let mut woken = Line::empty();
    let mut clears: u32 = 0;
    for x in line.as_slice() {
        let t = *x as usize;
        if t < THREADS {
            if is_met(flags, requests[t], options[t]) {
                clears |= cleared_by(requests[t], options[t]);
                woken.push(ThreadId(*x));
            }
        }
    }
    Matched {
        line: woken,
        clears,
    }
}
