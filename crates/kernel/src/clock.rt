// Clock services.
ghost use Rattle.std.specs.Prelude.{◌≡◌};
ghost use Rattle.calls.specs.Chains.{tick_refusal};
ghost use Rattle.kernel.specs.Answers.{answer_of};
ghost use Rattle.kernel.specs.Edits.{guarded};
ghost use Rattle.kernel.specs.Clock.{clock_effect, clock_set_effect, tick_effect};

use super::{Answer, Kernel, NO_WORDS, two_words};
use calls::held::Held;
use calls::refusal;
use calls::status::SUCCESS;
use numbers::{THREADS, ThreadId};
use waiting::ticks::{is_last_tick, is_timed, next_time, timeout_status, with_ticks};

impl Kernel {
    pub(crate) fn time_get(self) -> Answer
        ensures { result ≡ answer_of (guarded self 0 (clock_effect self)) }
    {
        self.carried(self.scheduler, SUCCESS, two_words(self.clock, 0), 0)
    }

    pub(crate) fn time_set(mut self, time: u32) -> Answer
        ensures { result ≡ answer_of (guarded self 0 (clock_set_effect time)) }
    {
        self.clock = time;
        self.carried(self.scheduler, SUCCESS, NO_WORDS, 0)
    }

    // The clock goes up by one, and every timed wait has one tick less.
    pub(crate) fn tick(mut self, caller: u32) -> Answer
        ensures { result ≡ answer_of (guarded self (tick_refusal caller) (tick_effect self)) }
    {
        if let Err(reason) = refusal::tick(caller) {
            return self.refused(u32::from(reason));
        }
        let time = next_time(self.clock);
        let mut s = self.scheduler;
        let mut ended: u32 = 0;
        // By index: a turn changes the records of two tables, and a wait that ends changes the whole line.
        for t in 0..THREADS {
            let th = s.threads[t];
            if is_last_tick(th) {
                let status = timeout_status(th, self.held[t]);
                self.held[t] = Held::of(status, NO_WORDS);
                s = s.woken(ThreadId(t as u8));
                ended += 1;
            } else if is_timed(th) {
                s.threads[t] = with_ticks(th, th.ticks - 1);
            }
        }
        self.clock = time;
        self.carried(s, SUCCESS, NO_WORDS, ended)
    }
}
