// That a listing can be printed, also one that goes on with another buffer, which a report of records may not.
ghost use Rattle.std.specs.Prelude.{[]};
ghost use Rattle.output.specs.Texts.{decimal_of};

use super::*;
use std::fmt::Display;
use std::io;

// A semaphore is created with one instance; the first get is served, the second finds none.
const TAPE: [u8; 88] = [
    3, 0, 0, 0, 16, 0, 0, 0, 0, 0, 0, 0, 88, 0, 0, 0, // three records, no message words
    16, 0, 0, 0, 0, 0, 0, 0, 0, 0, 0, 0, 1, 0, 0, 0, 0, 0, 0, 0, 0, 0, 0, 0, // semaphore create
    18, 0, 0, 0, 0, 0, 0, 0, 0, 0, 0, 0, 0, 0, 0, 0, 0, 0, 0, 0, 0, 0, 0, 0, // semaphore get
    18, 0, 0, 0, 0, 0, 0, 0, 0, 0, 0, 0, 0, 0, 0, 0, 0, 0, 0, 0, 0, 0, 0, 0, // semaphore get
];

// An output that drops what it is given.
#[derive(Clone, Copy)]
struct Nowhere;

impl Print for Nowhere {
    fn print<D: Display + Drop>(&self, _: D) -> io::Result<()> {
        Ok(())
    }

    fn println<D: Display + Drop>(&self, _: D) -> io::Result<()> {
        Ok(())
    }

    fn write_all(&self, _: &[u8]) -> io::Result<()> {
        Ok(())
    }
}

// Prints the status of each call.
struct Statuses;

impl Listing<Nowhere> for Statuses {
    ghost listed_text = { λ i r a. decimal_of a.status };

    fn put_record(w: &mut Writer<'_, Nowhere>, _: u32, _: &Request, a: &Answer) {
        w.put_decimal(a.status.into());
    }
}

// Prints nothing, and goes on with another buffer of no size where this one has none.
struct Exchanged;

impl Listing<Nowhere> for Exchanged {
    ghost listed_text = { λ i r a. [] };

    fn put_record(w: &mut Writer<'_, Nowhere>, _: u32, _: &Request, _: &Answer) {
        w.put_nothing();
        if w.parts().0.is_empty() {
            let _ = std::mem::replace(w, Writer::new(Nowhere, &mut []));
        }
    }
}

#[test]
fn prints_a_listing(rt: HostRuntime) {
    let mut buf = [0u8; 8];
    let mut w = Writer::new(Nowhere, &mut buf);
    put_records::<Statuses, Nowhere>(&mut w, &TAPE, &[]);
    let (bytes, at) = w.parts();
    assert!(rt; at == 4 && bytes.starts_with(b"0013"));
    let mut none = [0u8; 0];
    let mut w = Writer::new(Nowhere, &mut none);
    put_records::<Exchanged, Nowhere>(&mut w, &TAPE, &[]);
    assert_eq!(rt; w.parts().1, 0);
}
