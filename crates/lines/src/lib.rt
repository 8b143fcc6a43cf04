// Ordered lines of thread numbers.

#![tactic(auto)]

pub mod slots;

ghost use Rattle.std.specs.Prelude.{◌≡◌, List, ℕ, [], ◌∷◌, ◌++◌, length};
ghost use Rattle.lines.specs.Lists.{without, only_if, to_end, to_front, count, first, fronted};
ghost use Rattle.lines.specs.Lines.{members, line_of, pushed, cleanb};
ghost use Rattle.lines.specs.Loops.{slot_of, tally, better_of};

use numbers::{NOBODY, THREADS, ThreadId};
use slots::are_blank;

// How many a line has room for.
const CAPACITY: u8 = THREADS as u8;

// An ordered line of thread numbers: the first `len` slots, in order. The slots behind them are zero.
// An array and a length, and no Vec: the library has no heap, and these are the fields of the lent block.
#[derive(Clone, Copy)]
pub struct Line {
    pub ids: [u8; THREADS],
    pub len: u8,
}

// A thread and the key by which it is compared: the smaller is the better.
#[derive(Clone, Copy)]
pub struct Best {
    pub id: ThreadId,
    pub key: u8,
}

// The largest key. It stands beside nobody, whose place a thread of any key takes. No Option: `better_of` is of this key, and the choice compares
// keys alone.
pub const LARGEST_KEY: u8 = 255;

impl Line {
    // The line in which nobody stands.
    pub fn empty() -> Line
        ensures { result ≡ line_of [] }
    {
        Line {
            ids: [0; THREADS],
            len: 0,
        }
    }

    // How many stand in the line.
    pub fn size(self) -> u8
        ensures { result ≡ length (members self) }
    {
        self.len.min(CAPACITY)
    }

    // The members, in order.
    pub fn as_slice(&self) -> &[u8]
        ensures { result.now ≡ members self.now }
    {
        &self.ids[..self.size() as usize]
    }

    // Who stands first.
    #[tactic(auto, unfolding(crate::specs::Lists::first))]
    pub fn first(self) -> ThreadId
        ensures { result.0 ≡ first (members self) }
    {
        ThreadId(self.as_slice().first().copied().unwrap_or(NOBODY))
    }

    // How often `t` stands in the line.
    pub fn count(self, t: ThreadId) -> u8
        ensures { result ≡ count t.0 (members self) }
    {
        let mut k: u8 = 0;
        for x in self.as_slice() {
            if *x == t.0 {
                k += 1;
            }
        }
        k
    }

    // Puts `t` behind the last, where there is room.
    #[tactic(auto, unfolding(crate::specs::Lines::pushed))]
    pub fn push(&mut self, t: ThreadId)
        ensures { self.new ≡ pushed self.old t.0 }
    {
        let n = self.len as usize;
        if n < THREADS {
            self.ids[n] = t.0;
            self.len += 1;
        }
    }

    // The members other than `t`, in order, behind `t` itself where `lead` says so: one walk for all that join the front or leave.
    fn gathered(self, lead: bool, t: ThreadId) -> Line
        ensures { result ≡ line_of (only_if lead t.0 ++ without t.0 (members self)) }
    {
        let mut l = Line::empty();
        if lead {
            l.push(t);
        }
        for x in self.as_slice() {
            if *x != t.0 {
                l.push(ThreadId(*x));
            }
        }
        l
    }

    // The line without `t`.
    pub fn without(self, t: ThreadId) -> Line
        ensures { result ≡ line_of (without t.0 (members self)) }
    {
        self.gathered(false, t)
    }

    // The line with `t` at its front and nowhere else.
    #[tactic(auto, unfolding(crate::specs::Lists::to_front))]
    pub fn joined_front(self, t: ThreadId) -> Line
        ensures { result ≡ line_of (to_front t.0 (members self)) }
    {
        self.gathered(true, t)
    }

    // The line with `t` at its end and nowhere else.
    pub fn joined_end(self, t: ThreadId) -> Line
        ensures { result ≡ line_of (to_end t.0 (members self)) }
    {
        let mut l = self.gathered(false, t);
        l.push(t);
        l
    }

    // The line with `t` moved to its front, where it is somebody, and nothing else.
    #[tactic(auto, unfolding(crate::specs::Lists::fronted))]
    pub fn fronted(self, t: ThreadId) -> Line
        ensures { result ≡ line_of (fronted t.0 (members self)) }
    {
        self.gathered(t.0 < NOBODY, t)
    }

    // How often each number stands in the line: slot 32 has all that are 32 or more.
    pub fn tally(self) -> [u8; THREADS + 1]
        ensures { result ≡ tally (members self) }
    {
        let mut counts: [u8; THREADS + 1] = [0; THREADS + 1];
        for x in self.as_slice() {
            counts[slot(ThreadId(*x))] += 1;
        }
        counts
    }

    // Whether at most 32 stand in the line and the slots behind them are zero.
    pub fn is_clean(self) -> bool
        ensures { result ≡ cleanb self }
    {
        let n = self.size() as usize;
        (self.len <= CAPACITY) & are_blank(&self.ids[n..], 0)
    }
}

// Of `x` with key `k` and the best of those behind it the better, `x` where the keys are equal. A step, and no `min_by_key`: `better_of` says the
// step, and one pass takes it for two bests.
pub fn better(x: ThreadId, k: u8, b: Best) -> Best
    ensures { result ≡ better_of x.0 k b }
{
    if b.key < k { b } else { Best { id: x, key: k } }
}

fn slot(t: ThreadId) -> usize
    ensures { result ≡ slot_of t.0 }
{
    t.0.min(NOBODY) as usize
}
