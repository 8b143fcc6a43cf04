// The library for C and Rust: the kernel behind five functions on numbers and lent blocks.
//
// The tables cross as a block of bytes that the caller lends. Every block is answered: one of another size with 0x05, one
// that holds no sound tables with 0x100.

#![tactic(auto)]

ghost use Rattle.std.specs.Prelude.{◌≡◌, length};
ghost use Rattle.kernel.specs.Claims.{doneb};
ghost use Rattle.kernel.specs.General.{call};
ghost use Rattle.codec.specs.Layout.{state_bytes};
ghost use Rattle.codec.specs.State.{kernel_of};
ghost use Rattle.apachimo.specs.Library.{block_refusal, start_status, start_block, sound_status, request_of, call_reply, call_block, run_refusal, run_result, run_block, run_replies};
ghost use Rattle.apachimo.specs.Refusals.{refusal_status, result_status};

use calls::call::Request;
use calls::status::{SIZE_ERROR, SUCCESS, SUSPEND_LIFTED, TABLES_UNSOUND, TAPE_REFUSED, WAITING};
use codec::{flags, layout, reading, writing};
use kernel::Kernel;
use numbers::{NOBODY, ThreadId};
use tape::replies::{REPLY_WORDS, Reply, put_replies, refusal};

// A run's result: its own status, and how many records it carried out.
#[repr(C)]
#[derive(Clone, Copy)]
pub struct Run {
    pub status: u32,
    pub carried: u32,
}

// Why a block or a run is refused: its size or its room, no tape, or flags that are neither 0 nor 1.
#[derive(Clone, Copy)]
enum Refused {
    Size,
    Tape,
    Unsound,
}

impl From<Refused> for u32 {
    ghost from_gives = { λ e status. status ≡ refusal_status e };

    fn from(refused: Refused) -> u32 {
        match refused {
            Refused::Size => SIZE_ERROR,
            Refused::Tape => TAPE_REFUSED,
            Refused::Unsound => TABLES_UNSOUND,
        }
    }
}

// Refuses bytes that are no block, and a block with other flags than 0 and 1.
fn block_refusal(state: &[u8]) -> Result<(), Refused>
    ensures { result_status result ≡ block_refusal state.now }
{
    if state.len() != layout::STATE_BYTES {
        return Err(Refused::Size);
    }
    if flags::are_fit(state) {
        Ok(())
    } else {
        Err(Refused::Unsound)
    }
}

// Whether a call with this status was carried out.
#[tactic(auto, unfolding(kernel::specs::Claims::doneb))]
fn is_done(status: u32) -> bool
    ensures { result ≡ doneb status }
{
    matches!(status, SUCCESS | SUSPEND_LIFTED | WAITING)
}

// Refuses a run whose block, tape or room for replies is not as it should be.
fn run_refusal(state: &[u8], tape: &[u8], most: u32, room: usize) -> Result<(), Refused>
    ensures { result_status result ≡ run_refusal state.now tape.now most room }
{
    if state.len() != layout::STATE_BYTES {
        return Err(Refused::Size);
    }
    if tape::is_refused(tape) {
        return Err(Refused::Tape);
    }
    let n = tape::wanted(tape, most);
    if room < REPLY_WORDS * (n as usize) {
        return Err(Refused::Size);
    }
    block_refusal(state)
}

// How many bytes a block of tables has.
pub fn apachimo_state_bytes() -> usize
    ensures { result ≡ state_bytes }
{
    layout::STATE_BYTES
}

// Writes tables in which nothing is created.
pub fn apachimo_start(state: &mut [u8]) -> u32
    ensures value { result ≡ start_status state.old }
    ensures state_after { state.new ≡ start_block state.old }
{
    if state.len() != layout::STATE_BYTES {
        return SIZE_ERROR;
    }
    writing::put_kernel(state, Kernel::start());
    SUCCESS
}

// Whether the tables are sound: 0 or 0x100.
pub fn apachimo_is_sound(state: &[u8]) -> u32
    ensures { result ≡ sound_status state.now }
{
    if let Err(refused) = block_refusal(state) {
        return refused.into();
    }
    let k = reading::kernel_of(state);
    if k.is_sound() {
        SUCCESS
    } else {
        TABLES_UNSOUND
    }
}

// One call: its number, the caller's kind, four arguments, and the lent words that a send takes its message from. The
// tables are written back where the call was carried out, and not touched where it was refused. The arguments are words of their own, as C passes them.
pub fn apachimo_call(
    state: &mut [u8],
    number: u32,
    caller: u32,
    a: u32,
    b: u32,
    c: u32,
    d: u32,
    messages: &[u32],
) -> Reply
    ensures value { result ≡ call_reply state.old (call (kernel_of state.old) (request_of number caller a b c d) messages.now) }
    ensures state_after { state.new ≡ call_block state.old (call (kernel_of state.old) (request_of number caller a b c d) messages.now) }
{
    if let Err(refused) = block_refusal(state) {
        return refusal(refused.into(), ThreadId(NOBODY));
    }
    let k = reading::kernel_of(state);
    let request = Request {
        number,
        caller,
        a,
        b,
        c,
        d,
    };
    let answer = k.call(request, messages);
    let reply = Reply::from(answer);
    if is_done(answer.status) {
        writing::put_answer(state, answer);
    }
    reply
}

// Carries out the records of a tape, at most `most` of them, and writes nineteen words for each: status, sixteen words, next
// thread, ended waits. On unsound tables each record is answered with 0x100.
pub fn apachimo_run(state: &mut [u8], tape: &[u8], most: u32, replies: &mut [u32]) -> Run
    ensures value { result ≡ run_result state.old tape.now most (length replies.old) }
    ensures state_after { state.new ≡ run_block state.old tape.now most (length replies.old) }
    ensures replies_after { replies.new ≡ run_replies state.old tape.now most replies.old }
{
    if let Err(refused) = run_refusal(state, tape, most, replies.len()) {
        return match refused {
            Refused::Unsound => {
                let n = tape::wanted(tape, most);
                put_replies(replies, n, refusal(TABLES_UNSOUND, ThreadId(NOBODY)));
                Run {
                    status: TABLES_UNSOUND,
                    carried: n,
                }
            }
            Refused::Size | Refused::Tape => Run {
                status: refused.into(),
                carried: 0,
            },
        };
    }
    let k = reading::kernel_of(state);
    let ran = k.run(tape, most, replies);
    // By its fields: a `From` would take the tables too.
    let result = Run {
        status: ran.status,
        carried: ran.carried,
    };
    if ran.status == SUCCESS {
        writing::put_kernel(state, ran.kernel);
    }
    result
}
