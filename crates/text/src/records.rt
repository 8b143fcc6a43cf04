// The records of a tape as text, each with its answer.
ghost use Rattle.std.specs.Prelude.{List, ℕ};
ghost use Rattle.calls.specs.declared.call.Request.{Request};
ghost use Rattle.tape.specs.Tapes.{records_of};
ghost use Rattle.kernel.specs.declared.Answer.{Answer};
ghost use Rattle.kernel.specs.Tables.{started};
ghost use Rattle.output.specs.Texts.{Put, Puts};
ghost use Rattle.text.specs.Records.{records_text};

use calls::call::Request;
use kernel::{Answer, Kernel};
use output::Writer;

// A program that prints something of each record of a tape, into the buffer that was lent.
pub trait RecordReport<P> {
    ghost listed_text: { ℕ → Request → Answer → List ℕ };

    // Record i and its answer.
    fn put_record(w: &mut Writer<'_, P>, i: u32, r: &Request, a: &Answer)
        ensures { Puts w.old (listed_text i r.now a.now) w.new };
}

// Every record of a tape: the first is carried out with nothing created, each other on the tables that the one before it left. The message
// words are those that a send takes its message from.
pub fn put_record_reports<L: RecordReport<P>, P: Print>(
    w: &mut Writer<'_, P>,
    bytes: &[u8],
    messages: &[u32],
)
    ensures { Puts w.old (records_text L.listed_text 0 started messages.now (records_of bytes.now)) w.new }
{
    let mut k = Kernel::start();
    w.put_nothing();
    for i in 0..tape::count(bytes) {
        let r = tape::record_at(bytes, i as usize);
        let a = k.call(r, messages);
        L::put_record(w, i, &r, &a);
        k = a.kernel;
    }
}

// The same for a program that may go on with another buffer: the law speaks of the bytes that it leaves, and not of whose they are.
pub trait Listing<P> {
    ghost listed_text: { ℕ → Request → Answer → List ℕ };

    // Record i and its answer.
    fn put_record(w: &mut Writer<'_, P>, i: u32, r: &Request, a: &Answer)
        ensures { Put w.old.buf.now w.old.at (listed_text i r.now a.now) w.new.buf.now w.new.at };
}

// Every record of a tape, likewise. Neither function can call the other: a listing need not keep the buffer, and who calls the first knows that it
// was kept.
pub fn put_records<L: Listing<P>, P: Print>(w: &mut Writer<'_, P>, bytes: &[u8], messages: &[u32])
    ensures { Put w.old.buf.now w.old.at (records_text L.listed_text 0 started messages.now (records_of bytes.now)) w.new.buf.now w.new.at }
{
    let mut tables = Kernel::start();
    w.put_nothing();
    for i in 0..tape::count(bytes) {
        let request = tape::record_at(bytes, i as usize);
        let answer = tables.call(request, messages);
        L::put_record(w, i, &request, &answer);
        tables = answer.kernel;
    }
}

#[cfg(test)]
mod tests;
