// What a thread holds beside its scheduling record: the status and words that its last wait left it, and what it waits for.

#![tactic(auto, unfolding(crate::specs::Held::holding, crate::specs::Held::sending, crate::specs::Held::requesting, crate::specs::Held::held_words, crate::specs::Held::message_of))]

ghost use Rattle.std.specs.Prelude.{◌≡◌};
ghost use Rattle.calls.specs.Held.{holding, sending, requesting, held_words, message_of};

use super::status::WAITING;
use numbers::MESSAGE_WORDS;

// `words` are those that the last wait left or, of a waiting sender, its message: no thread has both. `sending` and `front` are a waiting
// sender's, `request` and `option` those of a thread that waits for flags. The bytes stand behind the words, so that a record is copied by
// words throughout. They are flags and no Option or enum around what they speak of: damaged tables may hold a message without `sending`, or both
// of a sender's and a requester's fields, which `held_fitb` refuses.
#[derive(Clone, Copy)]
pub struct Held {
    pub status: u32,
    pub request: u32,
    pub words: [u32; MESSAGE_WORDS],
    pub sending: bool,
    pub front: bool,
    pub option: u8,
}

impl Held {
    // A status and words, and nothing waited for.
    pub fn of(status: u32, words: [u32; MESSAGE_WORDS]) -> Held
        ensures { result ≡ holding status words }
    {
        Held {
            status,
            words,
            sending: false,
            front: false,
            request: 0,
            option: 0,
        }
    }

    // A sender waits with its message, sixteen words by value.
    pub fn sender(front: bool, message: [u32; MESSAGE_WORDS]) -> Held
        ensures { result ≡ sending front message }
    {
        Held {
            sending: true,
            front,
            ..Held::of(WAITING, message)
        }
    }

    // A thread waits for flags.
    pub fn requester(request: u32, option: u8) -> Held
        ensures { result ≡ requesting request option }
    {
        Held {
            request,
            option,
            ..Held::of(WAITING, [0; MESSAGE_WORDS])
        }
    }

    // The words that the last wait left: zero while the thread waits as a sender.
    pub fn held_words(self) -> [u32; MESSAGE_WORDS]
        ensures { result ≡ held_words self }
    {
        if self.sending {
            [0; MESSAGE_WORDS]
        } else {
            self.words
        }
    }

    // The message of a waiting sender, zero words of any other thread.
    pub fn message(self) -> [u32; MESSAGE_WORDS]
        ensures { result ≡ message_of self }
    {
        if self.sending {
            self.words
        } else {
            [0; MESSAGE_WORDS]
        }
    }
}
