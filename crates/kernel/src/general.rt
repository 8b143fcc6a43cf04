// The general call, and the step that it shares with the runs of tapes.
ghost use Rattle.std.specs.Prelude.{◌≡◌};
ghost use Rattle.kernel.specs.Answers.{answer_of};
ghost use Rattle.kernel.specs.Edits.{guarded};
ghost use Rattle.kernel.specs.Chains.{chained};
ghost use Rattle.kernel.specs.General.{effect_of, call};

use super::{Answer, Kernel, NO_WORDS};
use calls::call::{Call, Request, decode};
use calls::refusal::nobody_runs;
use calls::status::{NOBODY_RUNS, TABLES_UNSOUND, UNKNOWN_CALL};
use numbers::{NOBODY, ThreadId};

impl Kernel {
    // One call. `messages` are the lent words that a send takes its message from. Unsound tables are refused.
    pub fn call(self, request: Request, messages: &[u32]) -> Answer
        ensures { result ≡ call self request messages.now }
    {
        if !self.is_sound() {
            return Answer {
                status: TABLES_UNSOUND,
                words: NO_WORDS,
                next: ThreadId(NOBODY),
                ended: 0,
                kernel: self,
            };
        }
        let Some(call) = decode(request) else {
            return self.refused(UNKNOWN_CALL);
        };
        self.step(request.caller, call, messages)
    }

    // A known call, on tables that are not tested. Each arm returns its service's answer at once: with one answer for all arms a step of a run
    // takes 7% longer. A match and no table of functions: the arms differ in what they pass on, and a call without an arm is refused by the compiler.
    pub(crate) fn step(self, caller: u32, call: Call, messages: &[u32]) -> Answer
        ensures { result ≡ answer_of (guarded self (chained self caller call messages.now) (effect_of self call messages.now)) }
    {
        if nobody_runs(caller, self.scheduler.running) {
            return self.refused(NOBODY_RUNS);
        }
        match call {
            Call::ThreadCreate(t, priority, threshold, start) => return self.thread_create(
                caller, t, priority, threshold, start,
            ),
            Call::ThreadDelete(t) => return self.thread_delete(caller, t),
            Call::ThreadResume(t) => return self.thread_resume(t),
            Call::ThreadSuspend(t) => return self.thread_suspend(t),
            Call::ThreadTerminate(t) => return self.thread_terminate(caller, t),
            Call::ThreadReset(t) => return self.thread_reset(caller, t),
            Call::ThreadFinish => return self.thread_finish(caller),
            Call::ThreadRelinquish => return self.thread_relinquish(caller),
            Call::ThreadSleep(ticks) => return self.thread_sleep(caller, ticks),
            Call::ThreadWaitAbort(t) => return self.thread_wait_abort(t),
            Call::ThreadPriorityChange(t, priority) => return self.thread_priority_change(
                caller, t, priority,
            ),
            Call::ThreadPreemptionChange(t, threshold) => return self.thread_preemption_change(
                caller, t, threshold,
            ),
            Call::TimeGet => return self.time_get(),
            Call::TimeSet(time) => return self.time_set(time),
            Call::Tick => return self.tick(caller),
            Call::SemaphoreCreate(n, count) => return self.semaphore_create(caller, n, count),
            Call::SemaphoreDelete(n) => return self.semaphore_delete(caller, n),
            Call::SemaphoreGet(n, wait) => return self.semaphore_get(caller, n, wait),
            Call::SemaphorePut(n) => return self.semaphore_put(n),
            Call::SemaphoreCeilingPut(n, ceiling) => return self.semaphore_ceiling_put(n, ceiling),
            Call::SemaphorePrioritize(n) => return self.semaphore_prioritize(n),
            Call::QueueCreate(n, words, storage) => return self.queue_create(
                caller, n, words, storage,
            ),
            Call::QueueDelete(n) => return self.queue_delete(caller, n),
            Call::QueueSend(n, wait, index) => return self.queue_send(
                caller, n, wait, index, false, messages,
            ),
            Call::QueueFrontSend(n, wait, index) => return self.queue_send(
                caller, n, wait, index, true, messages,
            ),
            Call::QueueReceive(n, wait) => return self.queue_receive(caller, n, wait),
            Call::QueueFlush(n) => return self.queue_flush(n),
            Call::QueuePrioritize(n) => return self.queue_prioritize(n),
            Call::EventFlagsCreate(n) => return self.event_flags_create(caller, n),
            Call::EventFlagsDelete(n) => return self.event_flags_delete(caller, n),
            Call::EventFlagsSet(n, flags, option) => return self.event_flags_set(n, flags, option),
            Call::EventFlagsGet(n, request, option, wait) => return self.event_flags_get(
                caller, n, request, option, wait,
            ),
            Call::BlockPoolCreate(n, block, total) => return self.block_pool_create(
                caller, n, block, total,
            ),
            Call::BlockPoolDelete(n) => return self.block_pool_delete(caller, n),
            Call::BlockAllocate(n, wait) => return self.block_allocate(caller, n, wait),
            Call::BlockRelease(n, block) => return self.block_release(n, block),
            Call::BlockPoolPrioritize(n) => return self.block_pool_prioritize(n),
            Call::ThreadStateRead(t) => return self.thread_state_read(t),
            Call::ThreadWordsRead(t) => return self.thread_words_read(t),
        }
    }
}
