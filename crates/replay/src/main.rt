// Runs a call tape from nothing created, and prints for each call its status, the next thread and how many waits it ended.

#![tactic(auto)]

ghost use Rattle.std.specs.Prelude.{◌≡◌};
ghost use Rattle.tape.specs.Tapes.{records_of};
ghost use Rattle.output.specs.Texts.{Puts};
ghost use Rattle.replay.specs.Replay.{answer_text, count_text, calls_text, replay_text};

use calls::call::Request;
use kernel::Answer;
use output::Writer;
use text::input::{Report, print_report};
use text::records::{RecordReport, put_record_reports};
use text::{put_field, put_refused, put_thread};

// What this program prints of a tape and of a record.
struct Replay;

impl<P: Print> Report<P> for Replay {
    ghost report_text = { replay_text };

    fn put_report(w: &mut Writer<'_, P>, bytes: &[u8]) {
        put_run(w, bytes);
    }
}

impl<P: Print> RecordReport<P> for Replay {
    ghost listed_text = { λ i r a. answer_text a };

    fn put_record(w: &mut Writer<'_, P>, _: u32, _: &Request, a: &Answer) {
        put_answer(w, a);
    }
}

fn put_answer<P: Print>(w: &mut Writer<'_, P>, a: &Answer)
    ensures { Puts w.old (answer_text a.now) w.new }
{
    w.put_decimal(u64::from(a.status));
    w.put_byte(b' ');
    put_thread(w, a.next);
    put_field(w, b" ", a.ended);
    w.put_byte(b'\n');
}

fn put_count<P: Print>(w: &mut Writer<'_, P>, label: &[u8], n: u32)
    ensures { Puts w.old (count_text label.now n) w.new }
{
    put_field(w, label, n);
    w.put_byte(b'\n');
}

// Every call of a tape that is not refused, on the message words that are lent.
fn put_calls<P: Print>(w: &mut Writer<'_, P>, bytes: &[u8], messages: &[u32])
    ensures { Puts w.old (calls_text messages.now (records_of bytes.now)) w.new }
{
    let n = tape::count(bytes);
    put_count(w, b"calls ", n);
    put_record_reports::<Replay, P>(w, bytes, messages);
    put_count(w, b"done ", n);
}

// What is printed of a tape. It stands in `replay` and `inspect`, since one function of both would need more of `Report` for these lines.
fn put_run<P: Print>(w: &mut Writer<'_, P>, bytes: &[u8])
    ensures { Puts w.old (replay_text bytes.now) w.new }
{
    if tape::is_refused(bytes) {
        return put_refused(w);
    }
    let messages = tape::messages(bytes);
    let m = tape::message_count(bytes) as usize;
    put_calls(w, bytes, &messages[..m]);
}

fn main(rt: HostRuntime) {
    print_report::<Replay, _>(&rt);
}
