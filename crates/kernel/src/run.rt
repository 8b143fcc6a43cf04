// Runs of call tapes.
ghost use Rattle.std.specs.Prelude.{◌≡◌};
ghost use Rattle.kernel.specs.Runs.{reply_of, ran, ran_replies};

use super::{Answer, Kernel};
use calls::call::decode;
use calls::status::{SUCCESS, TABLES_UNSOUND, TAPE_REFUSED, UNKNOWN_CALL};
use numbers::{NOBODY, ThreadId};
use tape::replies::{Reply, put_replies, put_reply, refusal};

// The tables after a run, and how many records it carried out.
#[derive(Clone, Copy)]
pub struct Ran {
    pub status: u32,
    pub carried: u32,
    pub kernel: Kernel,
}

// An answer without its tables. By value: with the answer lent, a step of a run takes half as long again.
impl From<Answer> for Reply {
    ghost from_gives = { λ a r. r ≡ reply_of a };

    #[tactic(auto, unfolding(crate::specs::Runs::reply_of))]
    fn from(a: Answer) -> Reply {
        let Answer {
            status,
            words,
            next,
            ended,
            ..
        } = a;
        Reply {
            status,
            words,
            next: u32::from(next.0),
            ended,
        }
    }
}

impl Kernel {
    // Carries out the records of a tape in order, at most `most` of them, and writes each reply that there is room for. The starting tables are
    // tested once: every call keeps sound tables sound, and on unsound ones each record is refused and nothing changes. Two
    // answers take turns: a step goes from the tables of the one to the other, so that they need not be copied in between. `in_b` says which
    // one has the present tables.
    pub fn run(self, bytes: &[u8], most: u32, replies: &mut [u32]) -> Ran
        ensures value { result ≡ ran self bytes.now most }
        ensures replies_after { replies.new ≡ ran_replies self bytes.now most replies.old }
    {
        if tape::is_refused(bytes) {
            return Ran {
                status: TAPE_REFUSED,
                carried: 0,
                kernel: self,
            };
        }
        let end = tape::wanted(bytes, most);
        if !self.is_sound() {
            put_replies(replies, end, refusal(TABLES_UNSOUND, ThreadId(NOBODY)));
            return Ran {
                status: TABLES_UNSOUND,
                carried: end,
                kernel: self,
            };
        }
        let words = tape::messages(bytes);
        let messages = &words[..tape::message_count(bytes) as usize];
        let mut next = self.scheduler.running;
        let mut a = self.refused(SUCCESS);
        let mut b = a;
        // A flag, and no Option of either: both places stay.
        let mut in_b = false;
        for i in 0..end {
            let r = tape::record_at(bytes, i as usize);
            let Some(call) = decode(r) else {
                put_reply(replies, i, refusal(UNKNOWN_CALL, next));
                continue;
            };
            if in_b {
                a = b.kernel.step(r.caller, call, messages);
                next = a.next;
                put_reply(replies, i, Reply::from(a));
            } else {
                b = a.kernel.step(r.caller, call, messages);
                next = b.next;
                put_reply(replies, i, Reply::from(b));
            }
            in_b = !in_b;
        }
        Ran {
            status: SUCCESS,
            carried: end,
            kernel: if in_b { b.kernel } else { a.kernel },
        }
    }
}
