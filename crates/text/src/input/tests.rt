// What no clause says of what is read and printed: which bytes of the input a closure is lent, and that what it puts is written.
use super::*;
use std::alloc::{Allocator, Global};
use std::cell::Cell;
use std::fmt::Display;
use std::fs::{File, Metadata, OpenOptions};
use std::io::{self, BufRead, Lines};

// The first bytes that are written, which a test looks at.
const KEPT: usize = 8;

// A runtime without files, which is given its first argument (none, where that is empty) and its input, keeps the first bytes that are written
// and counts them all.
#[derive(Drop)]
struct InMemory<'a> {
    host: HostRuntime,
    name: &'a [u8],
    input: &'a [u8],
    kept: Cell<[u8; KEPT]>,
    written: Cell<usize>,
}

fn not_there<T>() -> io::Result<T> {
    Err(Error::from(ErrorKind::NotFound))
}

impl<'a> Files for InMemory<'a> {
    type File = File;

    type Dir = &'a [u8];

    fn open_file(&self, _: &OpenOptions, _: &str) -> io::Result<File> {
        not_there()
    }

    fn open_dir(&self, _: &str) -> io::Result<&'a [u8]> {
        not_there()
    }

    fn metadata(&self, _: &str) -> io::Result<Metadata> {
        not_there()
    }

    fn symlink_metadata(&self, _: &str) -> io::Result<Metadata> {
        not_there()
    }

    fn copy(&self, _: &str, _: &str) -> io::Result<u64> {
        not_there()
    }

    fn rename(&self, _: &str, _: &str) -> io::Result<()> {
        not_there()
    }

    fn remove_file(&self, _: &str) -> io::Result<()> {
        not_there()
    }

    fn create_dir(&self, _: &str) -> io::Result<()> {
        not_there()
    }

    fn remove_dir(&self, _: &str) -> io::Result<()> {
        not_there()
    }

    fn remove_dir_all<B: Allocator>(&self, _: B, _: &str) -> io::Result<()> {
        not_there()
    }
}

impl<'a> Env for InMemory<'a> {
    fn arg(&self, i: usize, buf: &mut [u8]) -> Result<usize, FillError> {
        let name = self.name;
        if i != 1 || name.is_empty() {
            return Err(FillError::NotPresent);
        }
        if buf.len() < name.len() {
            return Err(FillError::TooLong);
        }
        buf[..name.len()].copy_from_slice(name);
        Ok(name.len())
    }

    fn var(&self, _: &str, _: &mut [u8]) -> Result<usize, FillError> {
        Err(FillError::NotPresent)
    }

    fn var_at(&self, _: usize, _: &mut [u8]) -> Result<usize, FillError> {
        Err(FillError::NotPresent)
    }
}

impl<'a> Input for InMemory<'a> {
    type Reader = &'a [u8];

    fn read_line<A: Allocator + Clone>(&self, buf: &mut String<A>) -> io::Result<usize> {
        self.reader().read_line(buf)
    }

    fn lines<A: Allocator>(&self, alloc: A) -> Lines<&'a [u8], A> {
        self.reader().lines(alloc)
    }

    fn reader(&self) -> &'a [u8] {
        self.input
    }
}

impl<'a> Print for InMemory<'a> {
    fn print<D: Display + Drop>(&self, _: D) -> io::Result<()> {
        not_there()
    }

    fn println<D: Display + Drop>(&self, _: D) -> io::Result<()> {
        not_there()
    }

    fn write_all(&self, bytes: &[u8]) -> io::Result<()> {
        let mut kept = self.kept.get();
        let n = self.written.get();
        for (slot, b) in kept.iter_mut().skip(n).zip(bytes) {
            *slot = *b;
        }
        self.kept.set(kept);
        self.written.set(n.saturating_add(bytes.len()));
        Ok(())
    }
}

impl<'a> Eprint for InMemory<'a> {
    fn eprint<D: Display + Drop>(&self, _: D) -> io::Result<()> {
        Ok(())
    }

    fn eprintln<D: Display + Drop>(&self, _: D) -> io::Result<()> {
        Ok(())
    }
}

impl<'a> Alloc for InMemory<'a> {
    type A = Global;

    fn alloc(&self) -> Global {
        self.host.alloc()
    }
}

// The closure holds a byte of the test's, which a report could not.
#[test]
fn prints_what_the_closure_puts(rt: HostRuntime) {
    let long = [b'x'; 65537];
    let long_name = [b'n'; 4097];
    let cases: [(&str, &[u8], &[u8], usize, &[u8]); 6] = [
        ("a tape", b"", b"tape", 6, b"4:tape"),
        ("an empty tape", b"", b"", 2, b"0:"),
        ("more than is read", b"", &long, 65542, b"65536:xx"),
        ("no such file", b"missing", b"tape", 0, b""),
        ("a name not in UTF-8", b"\xff", b"tape", 0, b""),
        ("a long name", &long_name, b"tape", 0, b""),
    ];
    let separator = b':';
    for (case, name, input, written, first) in cases {
        let given = InMemory {
            host: rt,
            name,
            input,
            kept: Cell::new([0u8; KEPT]),
            written: Cell::new(0),
        };
        print_tape(&given, |w, bytes| {
            w.put_decimal(bytes.len() as u64);
            w.put_byte(separator);
            w.put_text(bytes);
        });
        assert_eq!(rt; given.written.get(), written, "{case}");
        let kept = given.kept.get();
        assert!(rt; kept.starts_with(first), "{case}");
    }
}
