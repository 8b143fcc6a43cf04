// The kernel: the tables of everything, the services on them, and the general call.
//
// A service takes the tables by value and returns them inside its answer.

#![tactic(auto)]

ghost use Rattle.std.specs.Prelude.{◌≡◌, ℕ};
ghost use Rattle.calls.specs.Held.{two_words};
ghost use Rattle.kernel.specs.Tables.{started, runner_of};
ghost use Rattle.kernel.specs.Answers.{answer_of, refused};
ghost use Rattle.kernel.specs.Kinds.{Kind};
ghost use Rattle.kernel.specs.Edits.{edited};
ghost use Rattle.kernel.specs.Edits.Cause.{served};
ghost use Rattle.kernel.specs.Edits.Move.{ends, starts};
ghost use Rattle.kernel.specs.Edits.Edit.{moves};
ghost use Rattle.kernel.specs.Loops.{answered};

use blocks::pool::Pool;
use calls::held::Held;
use calls::status::SUCCESS;
use lines::slots::store;
use numbers::{GROUPS, MESSAGE_WORDS, POOLS, QUEUES, SEMAPHORES, THREADS, ThreadId};
use objects::group::Group;
use objects::queue::Queue;
use objects::semaphore::Semaphore;
use scheduler::Scheduler;
use scheduler::thread::Place;
use waits::with_runner_waiting;

pub mod clock;
pub mod general;
pub mod groups;
pub mod pools;
pub mod queues;
pub mod run;
pub mod semaphores;
pub mod sound;
pub mod threads;
pub mod view;
pub mod waits;

// The words of a message or an answer that has none.
pub(crate) const NO_WORDS: [u32; MESSAGE_WORDS] = [0; MESSAGE_WORDS];

// `held` stands beside the scheduler's threads, by the same numbers, as it does in the definitions and in the block.
#[derive(Clone, Copy)]
pub struct Kernel {
    pub scheduler: Scheduler,
    pub held: [Held; THREADS],
    pub semaphores: [Semaphore; SEMAPHORES],
    pub queues: [Queue; QUEUES],
    pub groups: [Group; GROUPS],
    pub pools: [Pool; POOLS],
    pub clock: u32,
}

// A call's result. `next` is 32 where nobody runs, `ended` counts the waits that the call ended with a status.
#[derive(Clone, Copy)]
pub struct Answer {
    pub status: u32,
    pub words: [u32; MESSAGE_WORDS],
    pub next: ThreadId,
    pub ended: u32,
    pub kernel: Kernel,
}

impl Kernel {
    // Nothing created.
    #[tactic(auto, unfolding(crate::specs::Tables::started))]
    pub fn start() -> Kernel
        ensures { result ≡ started }
    {
        Kernel {
            scheduler: Scheduler::start(),
            held: [Held::of(0, NO_WORDS); THREADS],
            semaphores: [Semaphore::none(); SEMAPHORES],
            queues: [Queue::none(); QUEUES],
            groups: [Group::none(); GROUPS],
            pools: [Pool::none(); POOLS],
            clock: 0,
        }
    }

    // The answer of a refused call: the tables as they are.
    #[tactic(auto, unfolding(crate::specs::Answers::answer_of, crate::specs::Answers::refused))]
    pub(crate) fn refused(self, status: u32) -> Answer
        ensures { result ≡ answer_of (refused self status) }
    {
        let s = self.scheduler;
        let next = s.running;
        Answer {
            status,
            words: NO_WORDS,
            next,
            ended: 0,
            kernel: self,
        }
    }

    // The answer of a call that was carried out, after which the next thread is chosen on `s`.
    #[tactic(auto, unfolding(crate::specs::Loops::answered, crate::specs::Tables::with_scheduler))]
    pub(crate) fn carried(
        mut self,
        s: Scheduler,
        status: u32,
        words: [u32; MESSAGE_WORDS],
        ended: u32,
    ) -> Answer
        ensures { result ≡ answered self s status words ended }
    {
        let chosen = s.rescheduled(false);
        let next = chosen.running;
        self.scheduler = chosen;
        Answer {
            status,
            words,
            next,
            ended,
            kernel: self,
        }
    }

    // The running thread begins to wait at a place, at the end of its line or at the front, and holds `h`.
    fn begin_wait(&mut self, front: bool, p: Place, ticks: u32, h: Held)
        ensures { self.new ≡ edited self.old (moves (runner_of self.old) (starts front p.state p.number ticks h)) }
    {
        let s = self.scheduler;
        store(&mut self.held, s.running.0, h);
        self.scheduler = with_runner_waiting(s, front, p, ticks);
    }

    // The wait of thread `t` ends: its object serves it with words.
    fn serve(&mut self, t: ThreadId, words: [u32; MESSAGE_WORDS])
        ensures { (d : Kind) → (n : ℕ) → self.new ≡ edited self.old (moves t.0 (ends (served d n) words)) }
    {
        let s = self.scheduler;
        store(&mut self.held, t.0, Held::of(SUCCESS, words));
        self.scheduler = s.woken(t);
    }
}

// Sixteen words that begin with these two.
pub(crate) fn two_words(a: u32, b: u32) -> [u32; MESSAGE_WORDS]
    ensures { result ≡ two_words a b }
{
    [a, b, 0, 0, 0, 0, 0, 0, 0, 0, 0, 0, 0, 0, 0, 0]
}
