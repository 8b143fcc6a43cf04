// The static library for C and Rust: the functions of `apachimo` under their C names, each with its own clauses.

#![tactic(auto)]

ghost use Rattle.std.specs.Prelude.{◌≡◌, length};
ghost use Rattle.kernel.specs.General.{call};
ghost use Rattle.codec.specs.Layout.{state_bytes};
ghost use Rattle.codec.specs.State.{kernel_of};
ghost use Rattle.apachimo.specs.Library.{start_status, start_block, sound_status, request_of, call_reply, call_block, run_result, run_block, run_replies};

use apachimo::Run;
use tape::replies::Reply;

// How many bytes a block of tables has.
#[unsafe(no_mangle)]
pub extern "C" fn apachimo_state_bytes() -> usize
    ensures { result ≡ state_bytes }
{
    apachimo::apachimo_state_bytes()
}

// Writes tables in which nothing is created.
#[unsafe(no_mangle)]
pub extern "C" fn apachimo_start(state: &mut [u8]) -> u32
    ensures value { result ≡ start_status state.old }
    ensures state_after { state.new ≡ start_block state.old }
{
    apachimo::apachimo_start(state)
}

// Whether the tables are sound: 0 or 0x100.
#[unsafe(no_mangle)]
pub extern "C" fn apachimo_is_sound(state: &[u8]) -> u32
    ensures { result ≡ sound_status state.now }
{
    apachimo::apachimo_is_sound(state)
}

// One call: its number, the caller's kind, four arguments, and the lent words that a send takes its message from.
#[unsafe(no_mangle)]
pub extern "C" fn apachimo_call(
    state: &mut [u8],
    number: u32,
    caller: u32,
    a: u32,
    b: u32,
    c: u32,
    d: u32,
    messages: &[u32],
) -> Reply
    ensures value { result ≡ call_reply state.old (call (kernel_of state.old) (request_of number caller a b c d) messages.now) }
    ensures state_after { state.new ≡ call_block state.old (call (kernel_of state.old) (request_of number caller a b c d) messages.now) }
{
    apachimo::apachimo_call(state, number, caller, a, b, c, d, messages)
}

// Carries out the records of a tape, at most `most` of them, and writes nineteen words for each.
#[unsafe(no_mangle)]
pub extern "C" fn apachimo_run(state: &mut [u8], tape: &[u8], most: u32, replies: &mut [u32]) -> Run
    ensures value { result ≡ run_result state.old tape.now most (length replies.old) }
    ensures state_after { state.new ≡ run_block state.old tape.now most (length replies.old) }
    ensures replies_after { replies.new ≡ run_replies state.old tape.now most replies.old }
{
    apachimo::apachimo_run(state, tape, most, replies)
}
