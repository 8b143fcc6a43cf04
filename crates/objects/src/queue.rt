// A message queue: messages of `words` words in a store of `storage` words, the oldest first.
ghost use Rattle.std.specs.Prelude.{◌≡◌, ◌&&◌, min};
ghost use Rattle.lines.specs.Slots.{zero_from};
ghost use Rattle.numbers.specs.Numbers.{slots};
ghost use Rattle.objects.specs.Queues.{no_queue, capacity_of, emptyb, fullb, roomb, used_words, sizes_fitb, queue_limitsb, queue_fitb, empty_queue, stored_words, oldest, without_oldest, with_last, with_first, with_sent, given_past, left_past, flushed};

use lines::slots::{are_blank, packed};
use numbers::{MESSAGE_WORDS, SLOTS};

// The longest message and the largest store, in words.
const LONGEST: u32 = MESSAGE_WORDS as u32;

const LARGEST: u32 = SLOTS as u32;

// `stored` counts messages; the words of the store behind them are zero. An array and a count, and no Vec: the library has no heap.
// `created` stands beside the fields, and no Option around them: tables may hold an uncreated record that is not zero, which `queue_fitb` refuses.
#[derive(Clone, Copy)]
pub struct Queue {
    pub created: bool,
    pub words: u8,
    pub storage: u8,
    pub stored: u8,
    pub store: [u32; SLOTS],
}

impl Queue {
    // The record of a queue that is not created: all zero.
    pub fn none() -> Queue
        ensures { result ≡ no_queue }
    {
        Queue {
            created: false,
            words: 0,
            storage: 0,
            stored: 0,
            store: [0; SLOTS],
        }
    }

    // How many messages the store has room for.
    pub fn capacity(self) -> u8
        ensures { result ≡ capacity_of self }
    {
        self.storage.checked_div(self.words).unwrap_or(0)
    }

    // Whether no message is stored.
    pub fn is_empty(self) -> bool
        ensures { result ≡ emptyb self }
    {
        self.stored == 0
    }

    // Whether there is no room for a further message.
    pub fn is_full(self) -> bool
        ensures { result ≡ fullb self }
    {
        self.stored == self.capacity()
    }

    // Whether there is room for a further message.
    pub fn has_room(self) -> bool
        ensures { result ≡ roomb self }
    {
        self.stored < self.capacity()
    }

    // Whether the sizes are within bounds and a message fits.
    fn is_limited(self) -> bool
        ensures { result ≡ queue_limitsb self }
    {
        sizes_fit(self.words as u32, self.storage as u32)
    }

    // Whether the words of the store behind the messages are zero.
    fn is_clean(self) -> bool
        ensures { result ≡ zero_from (used_words self) self.store }
    {
        let n = self.used();
        are_blank(&self.store[n..], 0)
    }

    // Whether the record is fit in itself: sizes and messages within bounds, what is not in use zero.
    pub fn is_fit(self) -> bool
        ensures { result ≡ queue_fitb self }
    {
        let clean = self.is_clean();
        if self.created {
            let room = self.capacity();
            self.is_limited() & ((self.stored <= room) & clean)
        } else {
            (self.words == 0) & (self.storage == 0) & (self.stored == 0) & clean
        }
    }

    // Whether every word of the store is zero.
    fn is_blank(self) -> bool
        ensures { result ≡ zero_from 0 self.store }
    {
        are_blank(&self.store, 0)
    }

    // Whether no message is stored and the record is fit in itself: the quick case, since then all words of the store are alike.
    pub fn is_fit_empty(self) -> bool
        ensures { result ≡ (emptyb self && queue_fitb self) }
    {
        if !self.is_empty() {
            return false;
        }
        if !self.is_blank() {
            return false;
        }
        if self.created {
            self.is_limited()
        } else {
            (self.words == 0) & (self.storage == 0)
        }
    }

    // A created queue with no message. Sizes past a byte, which no queue has, become 255.
    pub fn of(words: u32, storage: u32) -> Queue
        ensures { result ≡ empty_queue (min words 255) (min storage 255) }
    {
        Queue {
            created: true,
            words: u8::try_from(words).unwrap_or(u8::MAX),
            storage: u8::try_from(storage).unwrap_or(u8::MAX),
            ..Queue::none()
        }
    }

    // How many words of the store the messages take, 64 at the most.
    fn used(self) -> usize
        ensures { result ≡ min (used_words self) slots }
    {
        let words = (self.stored as usize) * (self.words as usize);
        words.min(SLOTS)
    }

    // The words of the messages, those of the first message first.
    fn stored_words(&self) -> &[u32]
        ensures { result.now ≡ stored_words self.now }
    {
        &self.store[..self.used()]
    }

    // The queue with so many messages, in this store.
    fn storing(self, stored: u8, store: [u32; SLOTS]) -> Queue
        ensures { result ≡ record { created = self.created; words = self.words; storage = self.storage; stored = stored; store = store } }
    {
        Queue {
            stored,
            store,
            ..self
        }
    }

    // The oldest message, as sixteen words.
    pub fn oldest(self) -> [u32; MESSAGE_WORDS]
        ensures { result ≡ oldest self }
    {
        let stored = self.stored_words();
        let size = (self.words as usize).min(stored.len());
        packed(0, &stored[..size], &[])
    }

    // The queue without its oldest message.
    pub fn without_oldest(self) -> Queue
        ensures { result ≡ without_oldest self }
    {
        let stored = self.stored_words();
        let from = (self.words as usize).min(stored.len());
        let left = packed(0, &stored[from..], &[]);
        self.storing(self.stored.saturating_sub(1), left)
    }

    // The queue with a message behind the others, where there is room.
    pub fn with_last(self, message: [u32; MESSAGE_WORDS]) -> Queue
        ensures { result ≡ with_last self message }
    {
        self.with_sent(false, message)
    }

    // The queue with a message before the others, where there is room.
    pub fn with_first(self, message: [u32; MESSAGE_WORDS]) -> Queue
        ensures { result ≡ with_first self message }
    {
        self.with_sent(true, message)
    }

    // The queue with a sent message: a front send's before the others, an ordinary one's behind them. `front` is a word of the definitions
    // (`with_sent`, `given_past`, `left_past`), here and below.
    pub fn with_sent(self, front: bool, message: [u32; MESSAGE_WORDS]) -> Queue
        ensures { result ≡ with_sent self front message }
    {
        if !self.has_room() {
            return self;
        }
        let stored = self.stored_words();
        let size = (self.words as usize).min(MESSAGE_WORDS);
        let sent = &message[..size];
        let store = if front {
            packed(0, sent, stored)
        } else {
            packed(0, stored, sent)
        };
        self.storing(self.stored + 1, store)
    }

    // What a receive gives while a sender with this message is first in line: a front sender's message goes past the store.
    pub fn given_past(self, front: bool, message: [u32; MESSAGE_WORDS]) -> [u32; MESSAGE_WORDS]
        ensures { result ≡ given_past self front message }
    {
        if front { message } else { self.oldest() }
    }

    // The queue that such a receive leaves: an ordinary sender's message is stored behind the others.
    pub fn left_past(self, front: bool, message: [u32; MESSAGE_WORDS]) -> Queue
        ensures { result ≡ left_past self front message }
    {
        if front {
            self
        } else {
            self.without_oldest().with_sent(false, message)
        }
    }

    // The queue with no message left.
    pub fn flushed(self) -> Queue
        ensures { result ≡ flushed self }
    {
        self.storing(0, [0; SLOTS])
    }
}

// Whether messages have 1 to 16 words, the store 1 to 64, and at least one message fits.
pub fn sizes_fit(words: u32, storage: u32) -> bool
    ensures { result ≡ sizes_fitb words storage }
{
    if words == 0 {
        false
    } else {
        (1 <= words)
            & (words <= LONGEST)
            & (1 <= storage)
            & (storage <= LARGEST)
            & (1 <= storage / words)
    }
}
