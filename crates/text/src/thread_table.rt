// Threads and the orders of the ready ones as text.
ghost use Rattle.std.specs.Prelude.{◌≡◌};
ghost use Rattle.lines.specs.Logic.{one_if};
ghost use Rattle.lines.specs.Lines.{members};
ghost use Rattle.output.specs.Texts.{Puts};
ghost use Rattle.text.specs.Threads.{wait_text, levels_text, marks_text, request_text, held_text, record_text, threads_text, order_text, orders_text};

use super::{put_field, put_line, put_numbers};
use calls::held::Held;
use lines::Line;
use numbers::{PRIORITIES, THREADS};
use output::Writer;
use scheduler::Scheduler;
use scheduler::thread::{Place, Thread};
use waiting::ticks::FOREVER;

// The kind of a wait and the ticks left of a timed one.
fn put_wait<P: Print>(w: &mut Writer<'_, P>, ticks: u32)
    ensures { Puts w.old (wait_text ticks) w.new }
{
    match ticks {
        0 => w.put_text(b" wait=none ticks=0"),
        FOREVER => w.put_text(b" wait=forever ticks=0"),
        _ => put_field(w, b" wait=timed ticks=", ticks),
    }
}

// The levels of a thread.
fn put_levels<P: Print>(w: &mut Writer<'_, P>, t: u32, th: &Thread)
    ensures { Puts w.old (levels_text t th.now) w.new }
{
    put_field(w, b"thread ", t);
    put_field(w, b" state=", u32::from(th.state));
    put_field(w, b" prio=", u32::from(th.priority));
    put_field(w, b" thr=", u32::from(th.threshold));
}

// The mark, the held suspension and the held status.
fn put_marks<P: Print>(w: &mut Writer<'_, P>, th: &Thread, h: &Held)
    ensures { Puts w.old (marks_text th.now h.now) w.new }
{
    put_field(w, b" mark=", u32::from(th.marked));
    put_field(w, b" held=", u32::from(th.suspending));
    put_field(w, b" status=", h.status);
}

// What a thread waits for.
fn put_request<P: Print>(w: &mut Writer<'_, P>, th: &Thread, h: &Held)
    ensures { Puts w.old (request_text th.now h.now) w.new }
{
    put_field(w, b" obj=", u32::from(th.object));
    put_field(w, b" front=", u32::from(h.front));
    put_field(w, b" req=", h.request);
    put_field(w, b" opt=", u32::from(h.option));
}

// The held words, what the thread waits for and the message that it would send.
fn put_held<P: Print>(w: &mut Writer<'_, P>, th: &Thread, h: &Held)
    ensures { Puts w.old (held_text th.now h.now) w.new }
{
    w.put_text(b" words=");
    put_numbers(w, &h.held_words(), b',');
    put_request(w, th, h);
    w.put_text(b" msg=");
    put_numbers(w, &h.message(), b',');
}

// A thread's line, nothing where it is not created.
fn put_record<P: Print>(w: &mut Writer<'_, P>, t: u32, th: &Thread, h: &Held)
    ensures { Puts w.old (record_text t th.now h.now) w.new }
{
    if !th.created {
        return w.put_nothing();
    }
    put_levels(w, t, th);
    put_marks(w, th, h);
    put_wait(w, th.ticks);
    put_held(w, th, h);
    w.put_byte(b'\n');
}

pub fn put_threads<P: Print>(
    w: &mut Writer<'_, P>,
    threads: &[Thread; THREADS],
    held: &[Held; THREADS],
)
    ensures { Puts w.old (threads_text threads.now held.now) w.new }
{
    // A loop of its own, and not `put_table`'s: a thread's line is made of two tables.
    w.put_nothing();
    for (t, th) in threads.iter().enumerate() {
        put_record(w, t as u32, th, &held[t]);
    }
}

// The order of a priority, nothing where it is empty.
fn put_order<P: Print>(w: &mut Writer<'_, P>, priority: u32, l: &Line)
    ensures { Puts w.old (order_text priority (members l.now)) w.new }
{
    if l.size() == 0 {
        return w.put_nothing();
    }
    put_field(w, b"ready ", priority);
    put_line(w, l);
}

// A loop of its own, and not `put_table`'s: the orders go over the priorities, not over a table.
pub fn put_orders<P: Print>(w: &mut Writer<'_, P>, s: &Scheduler)
    ensures { Puts w.old (orders_text s.now) w.new }
{
    w.put_nothing();
    for p in 0..PRIORITIES {
        let l = s.line_at(Place::ready(p as u8));
        put_order(w, p, &l);
    }
}
