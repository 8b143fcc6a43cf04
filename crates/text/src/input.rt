// Where a program reads its tape from, and how it prints what it says of it.
ghost use Rattle.std.specs.Prelude.{◌≡◌, ◌≤◌, List, ℕ, length};
ghost use Rattle.output.specs.Texts.{Put, Puts};

use output::{BUFFER_BYTES, Writer};
use std::env::FillError;
use std::io::{Error, ErrorKind, Read};
use std::rt::{Env, Files};
use std::{fs, str};

// The most bytes that a program reads of its tape. A tape that is not refused has at most 65,168.
pub const MOST_BYTES: usize = 65536;

// The most bytes of a path, and the system's error for a longer one.
const MOST_PATH_BYTES: usize = 4096;

const NAME_TOO_LONG: i32 = 36;

// What a tape is read from. An enum of the two types of readers, which are both known here; a `dyn` would want a box.
#[derive(Drop)]
pub enum Source<I, F> {
    StandardInput(I),
    NamedFile(F),
}

impl<I: Read, F: Read> Source<I, F> {
    // Reads until the buffer is full, the input ends or a read fails, and returns how many bytes it put at the start of the buffer.
    pub fn read_full(&mut self, buf: &mut [u8]) -> usize
        ensures { result ≤ length buf.new }
    {
        match self {
            Source::StandardInput(input) => read_full(input, buf),
            Source::NamedFile(file) => read_full(file, buf),
        }
    }
}

fn read_full<T: Read>(from: &mut T, buf: &mut [u8]) -> usize
    ensures { result ≤ length buf.new }
{
    let mut done: usize = 0;
    // By hand: a read takes any number of bytes, so no iterator gives the places where the next one begins.
    while done < buf.len() {
        let n = from.read(&mut buf[done..]).unwrap_or(0);
        if n == 0 {
            break;
        }
        done += n;
    }
    done
}

// The file that the first argument names, or standard input where there is no argument. Where the file cannot be read, standard error says
// why, and there is nothing to read from.
pub fn open<R: Files + Env + Input + Eprint + Alloc>(rt: &R) -> Option<Source<R::Reader, R::File>> {
    let mut path = [0u8; MOST_PATH_BYTES];
    match rt.arg(1, &mut path) {
        Ok(n) => open_named(rt, &path[..n]),
        Err(FillError::NotPresent) => Some(Source::StandardInput(rt.reader())),
        Err(FillError::TooLong) => {
            fail(
                rt,
                "the tape's name",
                &Error::from_raw_os_error(NAME_TOO_LONG),
            );
            None
        }
    }
}

// A program that prints something of a tape.
pub trait Report<P> {
    ghost report_text: { List ℕ → List ℕ };

    fn put_report(w: &mut Writer<'_, P>, bytes: &[u8])
        ensures { Puts w.old (report_text bytes.now) w.new };
}

// What a program prints of a tape, from the front of a buffer.
fn reported<'a, L: Report<P>, P: Print>(out: P, buf: &'a mut [u8], bytes: &[u8]) -> Writer<'a, P>
    ensures text { Put buf.old 0 (L.report_text bytes.now) result.buf.now result.at }
    ensures lent { result.buf.ghost_name ≡ buf.entry.ghost_name }
{
    let mut w = Writer::new(out, buf);
    L::put_report(&mut w, bytes);
    w
}

// Reads the tape that a program is given, and prints what the program prints of it. No clause speaks of what reaches the output, since std's
// `Print` has none.
pub fn print_report<'r, L: Report<&'r R>, R: Files + Env + Input + Print + Eprint + Alloc>(
    rt: &'r R,
) {
    let Some(mut source) = open(rt) else {
        return;
    };
    let mut bytes = [0u8; MOST_BYTES];
    let n = source.read_full(&mut bytes);
    let mut buf = [0u8; BUFFER_BYTES];
    let mut w = reported::<L, &R>(rt, &mut buf, &bytes[..n]);
    w.flush();
}

// Reads the tape that a program is given, and prints what `put` puts into a buffer of it. A closure may hold values of the program's own, which
// a report cannot; it has to be one that can be called, and no clause says where its text begins.
pub fn print_tape<
    R: Files + Env + Input + Print + Eprint + Alloc,
    F: FnOnce(&mut Writer<'_, &R>, &[u8]),
>(rt: &R, put: F)
    requires { F.IsAlwaysCallable put }
{
    let Some(mut source) = open(rt) else {
        return;
    };
    let mut bytes = [0u8; MOST_BYTES];
    let n = source.read_full(&mut bytes);
    let mut buf = [0u8; BUFFER_BYTES];
    let mut w = Writer::new(rt, &mut buf);
    put(&mut w, &bytes[..n]);
    w.flush();
}

// A path is UTF-8, since std opens no other.
fn open_named<R: Files + Input + Eprint + Alloc>(
    rt: &R,
    path: &[u8],
) -> Option<Source<R::Reader, R::File>> {
    let Ok(path) = str::from_utf8(path) else {
        fail(
            rt,
            "the tape's name",
            &Error::new(ErrorKind::InvalidData, "not in UTF-8"),
        );
        return None;
    };
    match open_readable(rt, path) {
        Ok(file) => Some(Source::NamedFile(file)),
        Err(error) => {
            fail(rt, path, &error);
            None
        }
    }
}

// A directory can be opened, and not read.
fn open_readable<R: Files>(rt: &R, path: &str) -> std::io::Result<R::File> {
    let mut file = fs::open(rt, path)?;
    let mut nothing = [0u8; 0];
    file.read(&mut nothing)?;
    Ok(file)
}

// The system's words, without the error's number that std puts behind them.
fn words_of(said: &str) -> &str {
    said.split_once(" (os error ")
        .map_or(said, |(words, _)| words)
}

// Says on standard error what failed and why.
fn fail<R: Eprint + Alloc>(rt: &R, what: &str, error: &Error) {
    match error.to_string(rt.alloc()) {
        Ok(said) => {
            let why = words_of(said.as_str());
            let _ = eprintln!(rt; "{what}: {why}");
        }
        Err(_) => {
            let _ = eprintln!(rt; "{what}: {error}");
        }
    }
}

#[cfg(test)]
mod tests;
