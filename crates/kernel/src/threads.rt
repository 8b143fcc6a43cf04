// Thread services.
ghost use Rattle.std.specs.Prelude.{if◌then◌else◌, ◌≡◌, eqb};
ghost use Rattle.scheduler.specs.Threads.{ready, completed, suspended};
ghost use Rattle.scheduler.specs.Orders.{moved};
ghost use Rattle.calls.specs.Held.{no_held, no_words};
ghost use Rattle.calls.specs.Statuses.{success};
ghost use Rattle.calls.specs.Chains.{create_refusal, delete_refusal, resume_refusal, suspend_refusal, terminate_refusal, reset_refusal, thread_only_refusal, abort_refusal, priority_refusal, preemption_refusal, read_refusal};
ghost use Rattle.kernel.specs.Tables.{thread_of, runner_of, with_held};
ghost use Rattle.kernel.specs.Answers.{answer_of};
ghost use Rattle.kernel.specs.Loops.{answered};
ghost use Rattle.kernel.specs.Edits.{guarded};
ghost use Rattle.kernel.specs.Threads.{create_effect, delete_effect, resume_effect, suspend_effect, terminate_effect, rest_effect, relinquish_effect, sleep_effect, abort_effect, priority_effect, preemption_effect, state_effect, words_effect};

use super::waits::with_runner_asleep;
use super::{Answer, Kernel, NO_WORDS, two_words};
use calls::held::Held;
use calls::refusal;
use calls::status::{SUCCESS, SUSPEND_LIFTED, WAIT_ABORTED, WAITING};
use lines::slots::{record_in, store};
use numbers::ThreadId;
use scheduler::thread::{COMPLETED, READY, SUSPENDED, TERMINATED, Thread};

fn start_state(start: u32) -> u8
    ensures { result ≡ (if eqb start 1 then ready else suspended) }
{
    if start == 1 { READY } else { SUSPENDED }
}

impl Kernel {
    // Thread `t` gets another record, goes to the end of the order that the record puts it in, and holds nothing; the call is done.
    fn moved(mut self, t: ThreadId, th: Thread) -> Answer
        ensures { result ≡ answered (with_held self t.0 no_held) (moved self.scheduler t.0 th) success no_words 0 }
    {
        store(&mut self.held, t.0, Held::of(0, NO_WORDS));
        self.carried(self.scheduler.moved(t, th), SUCCESS, NO_WORDS, 0)
    }

    pub(crate) fn thread_create(
        self,
        caller: u32,
        t: ThreadId,
        priority: u32,
        threshold: u32,
        start: u32,
    ) -> Answer
        ensures { result ≡ answer_of (guarded self (create_refusal t.0 (thread_of self t.0) priority threshold start caller) (create_effect t.0 priority threshold start)) }
    {
        let th = self.scheduler.thread_at(t);
        if let Err(reason) = refusal::create(t, th, priority, threshold, start, caller) {
            return self.refused(u32::from(reason));
        }
        let state = start_state(start);
        self.moved(t, Thread::created(state, priority as u8, threshold as u8))
    }

    pub(crate) fn thread_delete(self, caller: u32, t: ThreadId) -> Answer
        ensures { result ≡ answer_of (guarded self (delete_refusal (thread_of self t.0) caller) (delete_effect t.0)) }
    {
        let s = self.scheduler;
        if let Err(reason) = refusal::delete(s.thread_at(t), caller) {
            return self.refused(u32::from(reason));
        }
        self.moved(t, Thread::uncreated())
    }

    pub(crate) fn thread_resume(self, t: ThreadId) -> Answer
        ensures { result ≡ answer_of (guarded self (resume_refusal (thread_of self t.0)) (resume_effect self t.0)) }
    {
        let s = self.scheduler;
        let th = s.thread_at(t);
        if let Err(reason) = refusal::resume(th) {
            return self.refused(u32::from(reason));
        }
        if th.suspending {
            return self.carried(
                s.with_thread(t, th.with_suspension(false)),
                SUSPEND_LIFTED,
                NO_WORDS,
                0,
            );
        }
        self.carried(s.moved(t, th.at_rest(READY)), SUCCESS, NO_WORDS, 0)
    }

    pub(crate) fn thread_suspend(self, t: ThreadId) -> Answer
        ensures { result ≡ answer_of (guarded self (suspend_refusal (thread_of self t.0)) (suspend_effect self t.0)) }
    {
        let s = self.scheduler;
        let th = s.thread_at(t);
        if let Err(reason) = refusal::suspend(th) {
            return self.refused(u32::from(reason));
        }
        if th.is_paused() {
            return self.carried(
                s.with_thread(t, th.with_suspension(true)),
                SUCCESS,
                NO_WORDS,
                0,
            );
        }
        if th.is_ready() {
            return self.carried(s.moved(t, th.at_rest(SUSPENDED)), SUCCESS, NO_WORDS, 0);
        }
        self.carried(s, SUCCESS, NO_WORDS, 0)
    }

    pub(crate) fn thread_terminate(self, caller: u32, t: ThreadId) -> Answer
        ensures { result ≡ answer_of (guarded self (terminate_refusal (thread_of self t.0) caller) (terminate_effect self t.0)) }
    {
        let s = self.scheduler;
        let th = s.thread_at(t);
        if let Err(reason) = refusal::terminate(th, caller) {
            return self.refused(u32::from(reason));
        }
        if (th.state == COMPLETED) | (th.state == TERMINATED) {
            return self.carried(s, SUCCESS, NO_WORDS, 0);
        }
        self.moved(t, th.at_rest(TERMINATED))
    }

    pub(crate) fn thread_reset(self, caller: u32, t: ThreadId) -> Answer
        ensures { result ≡ answer_of (guarded self (reset_refusal (thread_of self t.0) caller) (rest_effect t.0 suspended)) }
    {
        let s = self.scheduler;
        let th = s.thread_at(t);
        if let Err(reason) = refusal::reset(th, caller) {
            return self.refused(u32::from(reason));
        }
        self.moved(t, th.at_rest(SUSPENDED))
    }

    pub(crate) fn thread_finish(self, caller: u32) -> Answer
        ensures { result ≡ answer_of (guarded self (thread_only_refusal caller) (rest_effect (runner_of self) completed)) }
    {
        if let Err(reason) = refusal::thread_only(caller) {
            return self.refused(u32::from(reason));
        }
        let s = self.scheduler;
        let t = s.running;
        self.moved(t, s.thread_at(t).at_rest(COMPLETED))
    }

    pub(crate) fn thread_relinquish(mut self, caller: u32) -> Answer
        ensures { result ≡ answer_of (guarded self (thread_only_refusal caller) (relinquish_effect self)) }
    {
        if let Err(reason) = refusal::thread_only(caller) {
            return self.refused(u32::from(reason));
        }
        let s = self.scheduler;
        let chosen = s.relinquished();
        let next = chosen.running;
        self.scheduler = chosen;
        Answer {
            status: SUCCESS,
            words: NO_WORDS,
            next,
            ended: 0,
            kernel: self,
        }
    }

    pub(crate) fn thread_sleep(mut self, caller: u32, ticks: u32) -> Answer
        ensures { result ≡ answer_of (guarded self (thread_only_refusal caller) (sleep_effect self ticks)) }
    {
        if let Err(reason) = refusal::thread_only(caller) {
            return self.refused(u32::from(reason));
        }
        let s = self.scheduler;
        let status = if ticks == 0 {
            SUCCESS
        } else {
            store(&mut self.held, s.running.0, Held::of(WAITING, NO_WORDS));
            self.scheduler = with_runner_asleep(s, ticks);
            WAITING
        };
        self.carried(self.scheduler, status, NO_WORDS, 0)
    }

    pub(crate) fn thread_wait_abort(mut self, t: ThreadId) -> Answer
        ensures { result ≡ answer_of (guarded self (abort_refusal (thread_of self t.0)) (abort_effect t.0)) }
    {
        let s = self.scheduler;
        if let Err(reason) = refusal::abort(s.thread_at(t)) {
            return self.refused(u32::from(reason));
        }
        store(&mut self.held, t.0, Held::of(WAIT_ABORTED, NO_WORDS));
        self.carried(s.woken(t), SUCCESS, NO_WORDS, 1)
    }

    pub(crate) fn thread_priority_change(self, caller: u32, t: ThreadId, priority: u32) -> Answer
        ensures { result ≡ answer_of (guarded self (priority_refusal (thread_of self t.0) priority caller) (priority_effect self t.0 priority)) }
    {
        let s = self.scheduler;
        let th = s.thread_at(t);
        if let Err(reason) = refusal::priority_change(th, priority, caller) {
            return self.refused(u32::from(reason));
        }
        let words = two_words(th.priority as u32, 0);
        self.carried(s.priority_changed(t, priority as u8), SUCCESS, words, 0)
    }

    pub(crate) fn thread_preemption_change(self, caller: u32, t: ThreadId, threshold: u32) -> Answer
        ensures { result ≡ answer_of (guarded self (preemption_refusal (thread_of self t.0) threshold caller) (preemption_effect self t.0 threshold)) }
    {
        let s = self.scheduler;
        let th = s.thread_at(t);
        if let Err(reason) = refusal::preemption_change(th, threshold, caller) {
            return self.refused(u32::from(reason));
        }
        let words = two_words(th.threshold as u32, 0);
        self.carried(s.preemption_changed(t, threshold as u8), SUCCESS, words, 0)
    }

    // A thread's state and held status.
    pub(crate) fn thread_state_read(self, t: ThreadId) -> Answer
        ensures { result ≡ answer_of (guarded self (read_refusal (thread_of self t.0)) (state_effect self t.0)) }
    {
        let s = self.scheduler;
        let th = s.thread_at(t);
        if let Err(reason) = refusal::read(th) {
            return self.refused(u32::from(reason));
        }
        // From a copy of what is held: a borrow would copy all tables.
        let held = self.held;
        let h = record_in(&held, t.0, Held::of(0, NO_WORDS));
        self.carried(s, SUCCESS, two_words(th.state as u32, h.status), 0)
    }

    // A thread's held words.
    pub(crate) fn thread_words_read(self, t: ThreadId) -> Answer
        ensures { result ≡ answer_of (guarded self (read_refusal (thread_of self t.0)) (words_effect self t.0)) }
    {
        let s = self.scheduler;
        if let Err(reason) = refusal::read(s.thread_at(t)) {
            return self.refused(u32::from(reason));
        }
        // From a copy of what is held: a borrow would copy all tables.
        let held = self.held;
        let h = record_in(&held, t.0, Held::of(0, NO_WORDS));
        self.carried(s, SUCCESS, h.held_words(), 0)
    }
}
