// The tables as text: what is created, by number, and the orders in which somebody stands.
ghost use Rattle.output.specs.Texts.{Puts};
ghost use Rattle.inspect.specs.Tables.{start_text, scheduler_text, tables_text};

use kernel::Kernel;
use numbers::ThreadId;
use output::Writer;
use text::object_tables::{put_groups, put_pools, put_queues, put_semaphores};
use text::thread_table::{put_orders, put_threads};
use text::{put_field, put_thread};

// The clock and who runs.
fn put_start<P: Print>(w: &mut Writer<'_, P>, clock: u32, running: ThreadId)
    ensures { Puts w.old (start_text clock running.0) w.new }
{
    put_field(w, b"clock ", clock);
    w.put_text(b"\nrunning ");
    put_thread(w, running);
    w.put_byte(b'\n');
}

// The threads and the orders of the ready ones.
fn put_scheduler<P: Print>(w: &mut Writer<'_, P>, k: &Kernel)
    ensures { Puts w.old (scheduler_text k.now.clock k.now.scheduler k.now.held) w.new }
{
    let s = &k.scheduler;
    put_start(w, k.clock, s.running);
    put_threads(w, &s.threads, &k.held);
    put_orders(w, s);
}

pub fn put_tables<P: Print>(w: &mut Writer<'_, P>, k: &Kernel)
    ensures { Puts w.old (tables_text k.now) w.new }
{
    let s = &k.scheduler;
    put_scheduler(w, k);
    put_semaphores(w, &k.semaphores, s);
    put_queues(w, &k.queues, s);
    put_groups(w, &k.groups, s);
    put_pools(w, &k.pools, s);
    w.put_text(b".\n");
}
