// Pieces of text that the programs print, put into a buffer of `output`.

#![tactic(auto)]

ghost use Rattle.std.specs.Prelude.{◌≡◌, ℕ, ◌++◌};
ghost use Rattle.lines.specs.Lines.{members};
ghost use Rattle.output.specs.Texts.{Puts, decimal_of};
ghost use Rattle.text.specs.Texts.{field_text, thread_text, each_text, separator_text, line_text, refused_text};

use calls::status::TAPE_REFUSED;
use lines::Line;
use numbers::{NOBODY, ThreadId};
use output::Writer;

pub mod input;
pub mod object_tables;
pub mod records;
pub mod thread_table;

// A label and a number.
pub fn put_field<P: Print>(w: &mut Writer<'_, P>, label: &[u8], n: u32)
    ensures { Puts w.old (field_text label.now n) w.new }
{
    w.put_text(label);
    w.put_decimal(u64::from(n));
}

// A thread's number, `-` for nobody.
pub fn put_thread<P: Print>(w: &mut Writer<'_, P>, t: ThreadId)
    ensures { Puts w.old (thread_text t.0) w.new }
{
    if t.0 < NOBODY {
        w.put_decimal(u64::from(t.0));
    } else {
        w.put_byte(b'-');
    }
}

// A separator, but none before the first of a list.
#[tactic(auto, unfolding(crate::specs::Texts::separator_text))]
pub fn put_separator<P: Print>(w: &mut Writer<'_, P>, i: usize, separator: u8)
    ensures { Puts w.old (separator_text i separator) w.new }
{
    if i == 0 {
        w.put_nothing();
    } else {
        w.put_byte(separator);
    }
}

// A type of numbers: what its values are as numbers, and that their conversion gives that.
pub trait Number: Copy + Into<u64> {
    ghost number: { Self → ℕ };

    ghost converted: { (x : Self) (n : ℕ) → Self.converts x n → n ≡ number x };
}

impl Number for u8 {
    ghost number = { λ x. x };

    ghost converted = { λ x n e. e };
}

impl Number for u32 {
    ghost number = { λ x. x };

    ghost converted = { λ x n e. e };
}

// Numbers with a separator between them.
pub fn put_numbers<T: Number, P: Print>(w: &mut Writer<'_, P>, numbers: &[T], separator: u8)
    ensures { Puts w.old (each_text (λ i x. separator_text i separator ++ decimal_of (T.number x)) 0 numbers.now) w.new }
{
    w.put_nothing();
    for (i, x) in numbers.iter().enumerate() {
        put_separator(w, i, separator);
        w.put_decimal((*x).into());
    }
}

// The threads of a line, and the end of the text line.
pub fn put_line<P: Print>(w: &mut Writer<'_, P>, l: &Line)
    ensures { Puts w.old (line_text (members l.now)) w.new }
{
    w.put_text(b": ");
    put_numbers(w, l.as_slice(), b' ');
    w.put_byte(b'\n');
}

// What is printed of a refused tape.
pub fn put_refused<P: Print>(w: &mut Writer<'_, P>)
    ensures { Puts w.old refused_text w.new }
{
    put_field(w, b"tape refused ", TAPE_REFUSED);
    w.put_byte(b'\n');
}
