// Queue services.
//
// Create, delete and prioritise stand in each kind's file: tried as one function for all kinds, which takes the tables by value and copies them again.
ghost use Rattle.std.specs.Prelude.{◌≡◌, length};
ghost use Rattle.objects.specs.Queues.{empty_queue};
ghost use Rattle.calls.specs.Messages.{message_in};
ghost use Rattle.calls.specs.Chains.{queue_create_refusal, queue_delete_refusal, send_refusal, receive_refusal, queue_refusal};
ghost use Rattle.kernel.specs.Tables.{queue_at};
ghost use Rattle.kernel.specs.Answers.{answer_of};
ghost use Rattle.kernel.specs.Kinds.{Kind};
ghost use Rattle.kernel.specs.Edits.{guarded};
ghost use Rattle.kernel.specs.Effects.{store_effect, remove_effect, rank_effect};
ghost use Rattle.kernel.specs.Queues.{send_effect, receive_effect, flush_effect};

use super::{Answer, Kernel, NO_WORDS};
use calls::held::Held;
use calls::message::message_in;
use calls::refusal;
use calls::status::{DELETED, SUCCESS, WAITING};
use lines::slots::{record_in, store};
use numbers::{NOBODY, QueueId};
use objects::queue::Queue;
use scheduler::thread::Place;

impl Kernel {
    pub(crate) fn queue_create(
        mut self,
        caller: u32,
        n: QueueId,
        words: u32,
        storage: u32,
    ) -> Answer
        ensures { result ≡ answer_of (guarded self (queue_create_refusal n.0 (queue_at self n.0) words storage caller) (store_effect Kind.queue n.0 (empty_queue words storage))) }
    {
        let q = record_in(&self.queues, n.0, Queue::none());
        if let Err(reason) = refusal::queue_create(n, q, words, storage, caller) {
            return self.refused(u32::from(reason));
        }
        store(&mut self.queues, n.0, Queue::of(words, storage));
        self.carried(self.scheduler, SUCCESS, NO_WORDS, 0)
    }

    pub(crate) fn queue_delete(mut self, caller: u32, n: QueueId) -> Answer
        ensures { result ≡ answer_of (guarded self (queue_delete_refusal (queue_at self n.0) caller) (remove_effect self Kind.queue n.0)) }
    {
        let q = record_in(&self.queues, n.0, Queue::none());
        if let Err(reason) = refusal::queue_delete(q, caller) {
            return self.refused(u32::from(reason));
        }
        let line = self.scheduler.line_at(Place::queue(n));
        store(&mut self.queues, n.0, Queue::none());
        self.ended_each(line, DELETED, NO_WORDS)
    }

    // Send, and front send where `front` says so. The message is at `index` of the lent words; it goes to the first receiver in
    // line, or into the store, or waits with its sender.
    pub(crate) fn queue_send(
        mut self,
        caller: u32,
        n: QueueId,
        wait: u32,
        index: u32,
        front: bool,
        messages: &[u32],
    ) -> Answer
        ensures { result ≡ answer_of (guarded self (send_refusal (queue_at self n.0) index (length messages.now) wait caller) (send_effect self n.0 wait front (message_in messages.now index (queue_at self n.0).words))) }
    {
        let q = record_in(&self.queues, n.0, Queue::none());
        if let Err(reason) = refusal::send(q, index, messages.len(), wait, caller) {
            return self.refused(u32::from(reason));
        }
        let message = message_in(messages, index, q.words);
        let (status, ended) = if q.has_room() {
            let first = self.scheduler.first_at(Place::queue(n));
            if first.0 < NOBODY {
                self.serve(first, message);
                (SUCCESS, 1)
            } else {
                store(&mut self.queues, n.0, q.with_sent(front, message));
                (SUCCESS, 0)
            }
        } else {
            self.begin_wait(front, Place::queue(n), wait, Held::sender(front, message));
            (WAITING, 0)
        };
        self.carried(self.scheduler, status, NO_WORDS, ended)
    }

    // The receiver waits, or gets a message; the first sender in line may then pass or store its own.
    pub(crate) fn queue_receive(mut self, caller: u32, n: QueueId, wait: u32) -> Answer
        ensures { result ≡ answer_of (guarded self (receive_refusal (queue_at self n.0) wait caller) (receive_effect self n.0 wait)) }
    {
        let q = record_in(&self.queues, n.0, Queue::none());
        if let Err(reason) = refusal::receive(q, wait, caller) {
            return self.refused(u32::from(reason));
        }
        let (status, words, ended) = if q.is_empty() {
            self.begin_wait(false, Place::queue(n), wait, Held::of(WAITING, NO_WORDS));
            (WAITING, NO_WORDS, 0)
        } else {
            let first = self.scheduler.first_at(Place::queue(n));
            if first.0 < NOBODY {
                let sender = record_in(&self.held, first.0, Held::of(0, NO_WORDS));
                let message = sender.message();
                self.serve(first, NO_WORDS);
                store(&mut self.queues, n.0, q.left_past(sender.front, message));
                (SUCCESS, q.given_past(sender.front, message), 1)
            } else {
                store(&mut self.queues, n.0, q.without_oldest());
                (SUCCESS, q.oldest(), 0)
            }
        };
        self.carried(self.scheduler, status, words, ended)
    }

    pub(crate) fn queue_flush(mut self, n: QueueId) -> Answer
        ensures { result ≡ answer_of (guarded self (queue_refusal (queue_at self n.0)) (flush_effect self n.0)) }
    {
        let q = record_in(&self.queues, n.0, Queue::none());
        if let Err(reason) = refusal::queue(q) {
            return self.refused(u32::from(reason));
        }
        if q.is_empty() {
            return self.carried(self.scheduler, SUCCESS, NO_WORDS, 0);
        }
        let line = self.scheduler.line_at(Place::queue(n));
        store(&mut self.queues, n.0, q.flushed());
        self.ended_each(line, SUCCESS, NO_WORDS)
    }

    pub(crate) fn queue_prioritize(self, n: QueueId) -> Answer
        ensures { result ≡ answer_of (guarded self (queue_refusal (queue_at self n.0)) (rank_effect Kind.queue n.0)) }
    {
        // From a copy of the queues: a borrow would copy all tables.
        let queues = self.queues;
        let q = record_in(&queues, n.0, Queue::none());
        if let Err(reason) = refusal::queue(q) {
            return self.refused(u32::from(reason));
        }
        let s = self.scheduler.prioritised(Place::queue(n));
        self.carried(s, SUCCESS, NO_WORDS, 0)
    }
}
