// Objects and the orders of their waiters as text.
ghost use Rattle.std.specs.Prelude.{◌≡◌, ◌≤◌, List, ℕ, length};
ghost use Rattle.lines.specs.Lines.{members};
ghost use Rattle.scheduler.specs.declared.thread.Place.{Place};
ghost use Rattle.scheduler.specs.Threads.{on_queue, on_semaphore, on_flags, on_block, waiters_at};
ghost use Rattle.scheduler.specs.Orders.{line_at};
ghost use Rattle.output.specs.Texts.{Puts};
ghost use Rattle.text.specs.Texts.{each_text};
ghost use Rattle.text.specs.Objects.{semaphore_text, semaphores_text, word_separator, stored_text, queue_sizes_text, queue_text, queues_text, group_text, groups_text, free_text, pool_sizes_text, pool_text, pools_text};

use super::{put_field, put_line, put_numbers, put_separator};
use blocks::pool::Pool;
use lines::Line;
use numbers::{GROUPS, GroupId, POOLS, PoolId, QUEUES, QueueId, SEMAPHORES, SLOTS, SemaphoreId};
use objects::group::Group;
use objects::queue::Queue;
use objects::semaphore::Semaphore;
use output::Writer;
use scheduler::Scheduler;
use scheduler::thread::Place;

// A kind of object, whose table is printed by number: the place where threads wait on one, and its line of text, nothing where it is not
// created.
trait Object<P>: Copy {
    ghost waiters: { ℕ → Place };

    ghost object_text: { ℕ → Self → List ℕ → List ℕ };

    fn place(n: u8) -> Place
        ensures { result ≡ waiters n };

    fn put(&self, w: &mut Writer<'_, P>, n: u8, l: &Line)
        ensures { Puts w.old (object_text n self.now (members l.now)) w.new };
}

// An object's number is a byte, so a table has at most 256 objects; each table of the kernel has fewer.
fn put_table<T: Object<P>, P: Print>(w: &mut Writer<'_, P>, all: &[T], s: &Scheduler)
    requires { length all.now ≤ 256 }
    ensures { Puts w.old (each_text (λ n x. T.object_text n x (line_at s.now (T.waiters n))) 0 all.now) w.new }
{
    w.put_nothing();
    for (i, x) in all.iter().enumerate() {
        let n = i as u8;
        let l = s.line_at(T::place(n));
        x.put(w, n, &l);
    }
}

impl<P: Print> Object<P> for Semaphore {
    ghost waiters = { waiters_at on_semaphore };

    ghost object_text = { semaphore_text };

    fn place(n: u8) -> Place {
        Place::semaphore(SemaphoreId(n))
    }

    fn put(&self, w: &mut Writer<'_, P>, n: u8, l: &Line) {
        if !self.created {
            return w.put_nothing();
        }
        put_field(w, b"sem ", u32::from(n));
        put_field(w, b" count=", self.count);
        put_line(w, l);
    }
}

// A function for each kind, since each names its table's text, and `put_table` asks for a length that these types have.
#[tactic(auto, unfolding(crate::specs::Objects::semaphores_text))]
pub fn put_semaphores<P: Print>(w: &mut Writer<'_, P>, all: &[Semaphore; SEMAPHORES], s: &Scheduler)
    ensures { Puts w.old (semaphores_text all.now s.now) w.new }
{
    put_table(w, all, s);
}

// What stands before word i of a queue's store.
fn separator(i: usize, words: usize) -> u8
    ensures { result ≡ word_separator words i }
{
    if words == 0 {
        return b',';
    }
    if i % words == 0 { b'|' } else { b',' }
}

// The stored messages, oldest first.
fn put_stored<P: Print>(w: &mut Writer<'_, P>, q: &Queue)
    ensures { Puts w.old (stored_text q.now) w.new }
{
    let words = usize::from(q.words);
    let n = (words * usize::from(q.stored)).min(SLOTS);
    w.put_nothing();
    for (i, word) in q.store[..n].iter().enumerate() {
        put_separator(w, i, separator(i, words));
        w.put_decimal(u64::from(*word));
    }
}

fn put_queue_sizes<P: Print>(w: &mut Writer<'_, P>, n: u8, q: &Queue)
    ensures { Puts w.old (queue_sizes_text n q.now) w.new }
{
    put_field(w, b"queue ", u32::from(n));
    put_field(w, b" size=", u32::from(q.words));
    put_field(w, b" storage=", u32::from(q.storage));
    put_field(w, b" cap=", u32::from(q.capacity()));
}

impl<P: Print> Object<P> for Queue {
    ghost waiters = { waiters_at on_queue };

    ghost object_text = { queue_text };

    fn place(n: u8) -> Place {
        Place::queue(QueueId(n))
    }

    fn put(&self, w: &mut Writer<'_, P>, n: u8, l: &Line) {
        if !self.created {
            return w.put_nothing();
        }
        put_queue_sizes(w, n, self);
        w.put_text(b" stored=[");
        put_stored(w, self);
        w.put_byte(b']');
        put_line(w, l);
    }
}

// A function of its own for the reason at `put_semaphores`.
#[tactic(auto, unfolding(crate::specs::Objects::queues_text))]
pub fn put_queues<P: Print>(w: &mut Writer<'_, P>, all: &[Queue; QUEUES], s: &Scheduler)
    ensures { Puts w.old (queues_text all.now s.now) w.new }
{
    put_table(w, all, s);
}

impl<P: Print> Object<P> for Group {
    ghost waiters = { waiters_at on_flags };

    ghost object_text = { group_text };

    fn place(n: u8) -> Place {
        Place::group(GroupId(n))
    }

    fn put(&self, w: &mut Writer<'_, P>, n: u8, l: &Line) {
        if !self.created {
            return w.put_nothing();
        }
        put_field(w, b"group ", u32::from(n));
        put_field(w, b" flags=", self.flags);
        put_line(w, l);
    }
}

// A function of its own for the reason at `put_semaphores`.
#[tactic(auto, unfolding(crate::specs::Objects::groups_text))]
pub fn put_groups<P: Print>(w: &mut Writer<'_, P>, all: &[Group; GROUPS], s: &Scheduler)
    ensures { Puts w.old (groups_text all.now s.now) w.new }
{
    put_table(w, all, s);
}

// The free blocks in the order in which they would be given.
fn put_free<P: Print>(w: &mut Writer<'_, P>, p: &Pool)
    ensures { Puts w.old (free_text p.now) w.new }
{
    let n = usize::from(p.free).min(SLOTS);
    put_numbers(w, &p.list[..n], b',');
}

fn put_pool_sizes<P: Print>(w: &mut Writer<'_, P>, n: u8, p: &Pool)
    ensures { Puts w.old (pool_sizes_text n p.now) w.new }
{
    put_field(w, b"pool ", u32::from(n));
    put_field(w, b" block=", u32::from(p.block));
    put_field(w, b" total=", p.total);
    put_field(w, b" blocks=", p.blocks());
}

impl<P: Print> Object<P> for Pool {
    ghost waiters = { waiters_at on_block };

    ghost object_text = { pool_text };

    fn place(n: u8) -> Place {
        Place::pool(PoolId(n))
    }

    fn put(&self, w: &mut Writer<'_, P>, n: u8, l: &Line) {
        if !self.created {
            return w.put_nothing();
        }
        put_pool_sizes(w, n, self);
        w.put_text(b" free=[");
        put_free(w, self);
        w.put_text(b"] ");
        put_line(w, l);
    }
}

// A function of its own for the reason at `put_semaphores`.
#[tactic(auto, unfolding(crate::specs::Objects::pools_text))]
pub fn put_pools<P: Print>(w: &mut Writer<'_, P>, all: &[Pool; POOLS], s: &Scheduler)
    ensures { Puts w.old (pools_text all.now s.now) w.new }
{
    put_table(w, all, s);
}
