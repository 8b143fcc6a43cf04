// The call tape: a header of four words, records of calls, message words. All words are little-endian.

#![tactic(auto)]

ghost use Rattle.std.specs.Prelude.{if◌then◌else◌, ◌≡◌, min, length, get_or};
ghost use Rattle.lines.specs.Lines.{pad};
ghost use Rattle.tape.specs.Tapes.{record_bytes, word_at, records_end, refusedb, count_of, message_count_of, record_from, record_at, most_message_words, messages_of};

use calls::call::Request;
use words::{WORD_BYTES, joined};

pub mod replies;

// The sizes of the tape's parts in bytes, and its limits.
pub const HEADER_BYTES: usize = 4 * WORD_BYTES;

pub const RECORD_BYTES: usize = 6 * WORD_BYTES;

pub const MOST_RECORDS: usize = 2048;

pub const MOST_MESSAGE_WORDS: usize = 4000;

// The byte at `at`, 0 past the end.
fn byte(bytes: &[u8], at: usize) -> u8
    ensures { result ≡ get_or bytes.now at 0 }
{
    bytes.get(at).copied().unwrap_or(0)
}

// The word that starts at byte `at`. The sums of `at` stay inside since the slice is longer than `at`.
pub fn word(bytes: &[u8], at: usize) -> u32
    ensures { result ≡ word_at bytes.now at }
{
    if at < bytes.len() {
        joined(
            byte(bytes, at),
            byte(bytes, at + 1),
            byte(bytes, at + 2),
            byte(bytes, at + 3),
        )
    } else {
        0
    }
}

// Where the bytes behind n records start.
#[tactic(auto, unfolding(crate::specs::Tapes::records_end))]
fn records_end(n: u32) -> usize
    ensures { result ≡ records_end n }
{
    HEADER_BYTES + RECORD_BYTES * (n as usize)
}

// Whether the tape is refused with 0x103. The sums are of 64 bits and the counts of 32, so none wraps.
#[tactic(auto, unfolding(crate::specs::Tapes::refusedb, crate::specs::Tapes::tape_end, crate::specs::Tapes::records_end))]
pub fn is_refused(bytes: &[u8]) -> bool
    ensures { result ≡ refusedb bytes.now }
{
    let n = word(bytes, 0);
    let offset = word(bytes, 4) as usize;
    let m = word(bytes, 8) as usize;
    let second = word(bytes, 12) as usize;
    let end = records_end(n);
    (bytes.len() < HEADER_BYTES)
        | (offset != HEADER_BYTES)
        | (MOST_RECORDS < n as usize)
        | (second != end)
        | (MOST_MESSAGE_WORDS < m)
        | (bytes.len() != end + WORD_BYTES * m)
}

// The word of the header at `at`, 0 in a refused tape: no Option, since `count_of` and `message_count_of` say so.
fn header_word(bytes: &[u8], at: usize) -> u32
    ensures { result ≡ (if refusedb bytes.now then 0 else word_at bytes.now at) }
{
    if is_refused(bytes) {
        0
    } else {
        word(bytes, at)
    }
}

// How many records are to be carried out, 0 for a refused tape.
#[tactic(auto, unfolding(crate::specs::Tapes::count_of))]
pub fn count(bytes: &[u8]) -> u32
    ensures { result ≡ count_of bytes.now }
{
    header_word(bytes, 0)
}

// How many records a run carries out that is given this most number of them.
pub fn wanted(bytes: &[u8], most: u32) -> u32
    ensures { result ≡ min most (count_of bytes.now) }
{
    most.min(count(bytes))
}

// How many message words there are, 0 in a refused tape.
#[tactic(auto, unfolding(crate::specs::Tapes::message_count_of))]
pub fn message_count(bytes: &[u8]) -> u32
    ensures { result ≡ message_count_of bytes.now }
{
    header_word(bytes, 8)
}

// The request that the bytes of a record spell. The length is asked for, since with a test for each byte reading is several times slower.
#[tactic(auto, unfolding(crate::specs::Tapes::record_from, crate::specs::Tapes::word_at))]
fn record_of(b: &[u8]) -> Request
    requires { length b.now ≡ record_bytes }
    ensures { result ≡ record_from b.now 0 }
{
    Request {
        number: joined(b[0], b[1], b[2], b[3]),
        caller: joined(b[4], b[5], b[6], b[7]),
        a: joined(b[8], b[9], b[10], b[11]),
        b: joined(b[12], b[13], b[14], b[15]),
        c: joined(b[16], b[17], b[18], b[19]),
        d: joined(b[20], b[21], b[22], b[23]),
    }
}

// The request of record i, from 0; a request of zeros past the most that a tape can have. A record that the tape's end cuts off is read byte by byte.
#[tactic(auto, unfolding(crate::specs::Tapes::records_end))]
pub fn record_at(bytes: &[u8], i: usize) -> Request
    ensures { result ≡ record_at bytes.now i }
{
    if MOST_RECORDS <= i {
        return Request {
            number: 0,
            caller: 0,
            a: 0,
            b: 0,
            c: 0,
            d: 0,
        };
    }
    let at = records_end(i as u32);
    let end = at + RECORD_BYTES;
    if end <= bytes.len() {
        record_of(&bytes[at..end])
    } else {
        Request {
            number: word(bytes, at),
            caller: word(bytes, at + 4),
            a: word(bytes, at + 8),
            b: word(bytes, at + 12),
            c: word(bytes, at + 16),
            d: word(bytes, at + 20),
        }
    }
}

// The message words at the front, zeros behind them. `message_count` says how many there are. An array, and no Vec: there is no heap.
#[tactic(auto, unfolding(crate::specs::Tapes::records_end))]
pub fn messages(bytes: &[u8]) -> [u32; 4000]
    ensures { result ≡ pad most_message_words (messages_of bytes.now) }
{
    let n = count(bytes);
    let m = message_count(bytes) as usize;
    let start = records_end(n);
    let mut words: [u32; 4000] = [0; 4000];
    // By index: over `words[..m].iter_mut()` the proof did not close, since all 4,000 words are written out in it.
    for i in 0..m {
        words[i] = word(bytes, start + WORD_BYTES * i);
    }
    words
}
