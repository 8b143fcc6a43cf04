// Text output through a buffer, so that a program makes a system call for a full buffer and not for each number. For programs only.

#![tactic(auto)]

ghost use Rattle.std.specs.Prelude.{◌≡◌, [], ◌∷◌};
ghost use Rattle.output.specs.Texts.{Put, Puts, decimal_of};

// The bytes of text that a program gathers for a write.
pub const BUFFER_BYTES: usize = 65536;

// Text that is gathered in a buffer that is lent, of any length, and written to `out`, the standard output of a program, each time that the
// buffer is full. `flush` at the end writes the rest. A write that fails is not reported. The contracts relate the buffer's bytes and
// position before and after: the position is that up to which the bytes are text that is not written out yet. A position past the buffer
// counts as a full buffer. They also say that the buffer stays the one that was lent, so that its lender knows its bytes afterwards. For that
// the fields are public, and there is no model in their place.
// No invariant bounds the position, since `Put` and the wrong version `position_past_the_buffer` speak of one past the buffer.
pub struct Writer<'a, P> {
    pub out: P,
    pub buf: &'a mut [u8],
    pub at: usize,
}

// By hand, since a derived drop does not say that it leaves the buffer as it is.
impl<'a, P: Drop> Drop for Writer<'a, P> {
    fn drop(self)
        ensures { self.exit.1.0.now ≡ self.entry.buf.now }
    {
        let Writer {
            out: _,
            buf: _,
            at: _,
        } = self;
    }
}

impl<'a, P: Print> Writer<'a, P> {
    // A buffer that holds text up to a position.
    pub fn with_text(out: P, buf: &'a mut [u8], at: usize) -> Self
        ensures bytes { result.buf.now ≡ buf.old }
        ensures position { result.at ≡ at }
        ensures lent { result.buf.ghost_name ≡ buf.entry.ghost_name }
    {
        Writer { out, buf, at }
    }

    // A buffer that holds no text.
    pub fn new(out: P, buf: &'a mut [u8]) -> Self
        ensures bytes { result.buf.now ≡ buf.old }
        ensures position { result.at ≡ 0 }
        ensures lent { result.buf.ghost_name ≡ buf.entry.ghost_name }
    {
        Writer::with_text(out, buf, 0)
    }

    // The buffer's bytes, and the position up to which they are text that is not written out yet.
    pub fn parts(&self) -> (&[u8], usize)
        ensures bytes { result.0.now ≡ self.now.buf.now }
        ensures position { result.1 ≡ self.now.at }
    {
        (self.buf, self.at)
    }

    // Writes the text that is in the buffer, which then holds none.
    pub fn flush(&mut self)
        ensures bytes { self.new.buf.now ≡ self.old.buf.now }
        ensures position { self.new.at ≡ 0 }
        ensures lent { self.new.buf.ghost_name ≡ self.old.buf.ghost_name }
    {
        self.at = flush(&self.out, self.buf, self.at);
    }

    // Puts a byte into the buffer, which is written out first where it is full.
    pub fn put_byte(&mut self, b: u8)
        ensures { Puts self.old (b ∷ []) self.new }
    {
        self.at = put_byte(&self.out, self.buf, self.at, b);
    }

    // Puts nothing.
    pub fn put_nothing(&mut self)
        ensures { Puts self.old [] self.new }
    {
        self.at = put_nothing(self.buf, self.at);
    }

    // Puts a text into the buffer, which is written out each time that it is full.
    pub fn put_text(&mut self, text: &[u8])
        ensures { Puts self.old text.now self.new }
    {
        self.at = put_text(&self.out, self.buf, self.at, text);
    }

    // Puts a number in decimal into the buffer.
    #[inline(always)]
    pub fn put_decimal(&mut self, n: u64)
        ensures { Puts self.old (decimal_of n) self.new }
    {
        self.at = put_decimal(&self.out, self.buf, self.at, n);
    }
}

impl<'a, P: Drop> Writer<'a, P> {
    // The buffer as it is, for whoever lent it.
    pub fn into_buffer(self) -> &'a mut [u8]
        ensures bytes { result.now ≡ self.entry.buf.now }
        ensures lent { result.ghost_name ≡ self.entry.buf.ghost_name }
    {
        let Writer { out: _, buf, at: _ } = self;
        buf
    }
}

// The same on a buffer and its position apart, which goes in and comes back: here the clauses speak of the lender's own buffer. The methods above
// are these.

// Writes the text up to a position, all of it where the position is past it, and gives the position of a buffer that holds no text.
pub fn flush(out: &impl Print, buf: &mut [u8], at: usize) -> usize
    ensures { (result ≡ 0) × (buf.new ≡ buf.old) }
{
    let n = at.min(buf.len());
    let _ = out.write_all(&buf[..n]);
    0
}

// Puts a byte into the buffer, which is written out first where it is full.
pub fn put_byte(out: &impl Print, buf: &mut [u8], at: usize, b: u8) -> usize
    ensures { Put buf.old at (b ∷ []) buf.new result }
{
    if at < buf.len() {
        buf[at] = b;
        return at + 1;
    }
    flush(out, buf, at);
    if 0 < buf.len() {
        buf[0] = b;
        1
    } else {
        let _ = out.write_all(&[b]);
        0
    }
}

// Puts nothing. A position past the buffer counts as a full buffer, as everywhere.
pub fn put_nothing(buf: &mut [u8], at: usize) -> usize
    ensures { Put buf.old at [] buf.new result }
{
    at.min(buf.len())
}

// Puts a text into the buffer, which is written out each time that it is full.
pub fn put_text(out: &impl Print, buf: &mut [u8], at: usize, text: &[u8]) -> usize
    ensures { Put buf.old at text.now buf.new result }
{
    let at = put_nothing(buf, at);
    if text.len() <= buf.len() - at {
        let end = at + text.len();
        buf[at..end].copy_from_slice(text);
        return end;
    }
    let mut at = at;
    for b in text {
        at = put_byte(out, buf, at, *b);
    }
    at
}

// Puts a number in decimal into the buffer. It is to be inlined, as is the method above: most numbers that the programs print are one digit.
#[inline(always)]
pub fn put_decimal(out: &impl Print, buf: &mut [u8], at: usize, n: u64) -> usize
    ensures { Put buf.old at (decimal_of n) buf.new result }
{
    if n < 10 {
        put_byte(out, buf, at, b'0' + n as u8)
    } else {
        put_digits(out, buf, at, n)
    }
}

// The same for a number of any length.
fn put_digits(out: &impl Print, buf: &mut [u8], at: usize, n: u64) -> usize
    ensures { Put buf.old at (decimal_of n) buf.new result }
{
    let mut digits = [0u8; 20];
    let k = io::decimal(n, &mut digits);
    put_text(out, buf, at, &digits[..k])
}
