// Replies to the records of a tape, written one after the other into lent words.
ghost use Rattle.std.specs.Prelude.{◌≡◌};
ghost use Rattle.tape.specs.Replies.{refusal, reply_words, replied, replied_each};

use numbers::{MESSAGE_WORDS, ThreadId};

// The words of a reply: status, sixteen words, next thread, ended waits.
pub const REPLY_WORDS: usize = 19;

// A call's result without the tables: status, sixteen words, the next thread (32 for none) and how many waits the call ended.
#[repr(C)]
#[derive(Clone, Copy)]
pub struct Reply {
    pub status: u32,
    pub words: [u32; MESSAGE_WORDS],
    pub next: u32,
    pub ended: u32,
}

// The reply to a refused call, with the thread that runs next.
#[tactic(auto, unfolding(crate::specs::Replies::refusal))]
pub fn refusal(status: u32, next: ThreadId) -> Reply
    ensures { result ≡ refusal status next.0 }
{
    Reply {
        status,
        words: [0; MESSAGE_WORDS],
        next: next.0 as u32,
        ended: 0,
    }
}

// A reply as nineteen words. Written out, as `reply_words` is, so that each word has its place before the eyes.
fn reply_words(r: Reply) -> [u32; 19]
    ensures { result ≡ reply_words r }
{
    let w = r.words;
    [
        r.status, w[0], w[1], w[2], w[3], w[4], w[5], w[6], w[7], w[8], w[9], w[10], w[11], w[12],
        w[13], w[14], w[15], r.next, r.ended,
    ]
}

// Writes the reply to record `i` to its place, where there is room for all of it.
pub fn put_reply(replies: &mut [u32], i: u32, r: Reply)
    ensures { replies.new ≡ replied replies.old i r }
{
    // A test of the length: with `get_mut` of the part the proof did not close.
    let at = REPLY_WORDS * (i as usize);
    if at + REPLY_WORDS <= replies.len() {
        replies[at..at + REPLY_WORDS].copy_from_slice(&reply_words(r));
    }
}

// Writes the same reply to each of the first `n` records, where there is room for all of it.
pub fn put_replies(replies: &mut [u32], n: u32, r: Reply)
    ensures { replies.new ≡ replied_each replies.old n r }
{
    for i in 0..n {
        put_reply(replies, i, r);
    }
}
