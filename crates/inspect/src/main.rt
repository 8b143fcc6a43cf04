// Runs a call tape from nothing created, and prints the tables before the first call, and for each call the call itself, its result and the
// tables after it.

#![tactic(auto)]

ghost use Rattle.tape.specs.Tapes.{records_of};
ghost use Rattle.output.specs.Texts.{Puts};
ghost use Rattle.inspect.specs.Inspect.{arguments_text, call_text, answer_text, result_text, record_text, calls_text, inspect_text};

use calls::call::Request;
use kernel::{Answer, Kernel};
use output::Writer;
use tables::put_tables;
use text::input::{Report, print_report};
use text::records::{RecordReport, put_record_reports};
use text::{put_field, put_numbers, put_refused, put_thread};

mod tables;

// What this program prints of a tape and of a record.
struct Inspect;

impl<P: Print> Report<P> for Inspect {
    ghost report_text = { inspect_text };

    fn put_report(w: &mut Writer<'_, P>, bytes: &[u8]) {
        put_run(w, bytes);
    }
}

impl<P: Print> RecordReport<P> for Inspect {
    ghost listed_text = { record_text };

    fn put_record(w: &mut Writer<'_, P>, i: u32, r: &Request, a: &Answer) {
        put_call(w, i, r);
        put_result(w, a);
        put_tables(w, &a.kernel);
    }
}

fn put_arguments<P: Print>(w: &mut Writer<'_, P>, r: &Request)
    ensures { Puts w.old (arguments_text r.now) w.new }
{
    put_field(w, b" ", r.a);
    put_field(w, b" ", r.b);
    put_field(w, b" ", r.c);
    put_field(w, b" ", r.d);
}

fn put_call<P: Print>(w: &mut Writer<'_, P>, i: u32, r: &Request)
    ensures { Puts w.old (call_text i r.now) w.new }
{
    put_field(w, b"call ", i);
    put_field(w, b" ", r.number);
    put_field(w, b" ", r.caller);
    put_arguments(w, r);
    w.put_byte(b'\n');
}

fn put_answer<P: Print>(w: &mut Writer<'_, P>, a: &Answer)
    ensures { Puts w.old (answer_text a.now.status a.now.next.0 a.now.ended) w.new }
{
    put_field(w, b"result ", a.status);
    w.put_byte(b' ');
    put_thread(w, a.next);
    put_field(w, b" ", a.ended);
}

fn put_result<P: Print>(w: &mut Writer<'_, P>, a: &Answer)
    ensures { Puts w.old (result_text a.now.status a.now.next.0 a.now.ended a.now.words) w.new }
{
    put_answer(w, a);
    w.put_byte(b' ');
    put_numbers(w, &a.words, b' ');
    w.put_byte(b'\n');
}

// Every call of a tape that is not refused, on the message words that are lent.
fn put_calls<P: Print>(w: &mut Writer<'_, P>, bytes: &[u8], messages: &[u32])
    ensures { Puts w.old (calls_text messages.now (records_of bytes.now)) w.new }
{
    put_tables(w, &Kernel::start());
    put_record_reports::<Inspect, P>(w, bytes, messages);
}

// What is printed of a tape. It stands in `replay` and `inspect`, since one function of both would need more of `Report` for these lines.
fn put_run<P: Print>(w: &mut Writer<'_, P>, bytes: &[u8])
    ensures { Puts w.old (inspect_text bytes.now) w.new }
{
    if tape::is_refused(bytes) {
        return put_refused(w);
    }
    let messages = tape::messages(bytes);
    let m = tape::message_count(bytes) as usize;
    put_calls(w, bytes, &messages[..m]);
}

fn main(rt: HostRuntime) {
    print_report::<Inspect, _>(&rt);
}
