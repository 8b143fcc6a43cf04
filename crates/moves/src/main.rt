// Moves and choices, step by step: after each, who runs and who stands, each as number/priority with * for a mark,
// w for a waiter, in the order of joining; at the end the verdicts of the soundness test on damaged tables.

#![tactic(auto)]

use numbers::{NOBODY, SemaphoreId, ThreadId};
use scheduler::Scheduler;
use scheduler::thread::{COMPLETED, Place, READY, Thread};

fn ready(priority: u8, threshold: u8) -> Thread {
    Thread::created(READY, priority, threshold)
}

// A thread that waits for semaphore 3, for `ticks` ticks.
fn waiting(priority: u8, ticks: u32) -> Thread {
    ready(priority, priority).waiting_at(Place::semaphore(SemaphoreId(3)), ticks)
}

fn finished(priority: u8) -> Thread {
    Thread::created(COMPLETED, priority, priority)
}

// A write that fails is not reported, here and below.
fn print_thread(out: &impl Print, t: u8, th: Thread) {
    let mark = if th.marked { "*" } else { "" };
    let wait = if th.is_waiting() { "w" } else { "" };
    let _ = print!(out; " {t}/{}{mark}{wait}", th.priority);
}

fn show(out: &impl Print, what: &str, s: Scheduler) -> Scheduler {
    let _ = print!(out; "{what}: runs {}, stand", s.running.0);
    for t in s.order.as_slice() {
        print_thread(out, *t, s.thread_at(ThreadId(*t)));
    }
    let _ = println!(out;);
    s
}

// Thread `t` gets a record, and the choice is made.
fn step(out: &impl Print, what: &str, s: Scheduler, t: u8, th: Thread) -> Scheduler {
    show(out, what, s.moved(ThreadId(t), th).rescheduled(false))
}

// It stands in `damage` too, of other tables: the two programs share no crate above the tables.
fn verdict(out: &impl Print, what: &str, s: Scheduler) {
    let found = if s.is_sound() { "sound" } else { "unsound" };
    let _ = println!(out; "{what}: {found}");
}

// The interrupted threshold: case P3.
fn interrupted(out: &impl Print) -> Scheduler {
    let a = step(
        out,
        "0 of priority 10, threshold 5 starts",
        Scheduler::start(),
        0,
        ready(10, 5),
    );
    let b = step(out, "1 of priority 7 resumed", a, 1, ready(7, 7));
    let c = step(out, "2 of priority 4 resumed", b, 2, ready(4, 4));
    step(out, "2 finishes", c, 2, finished(4))
}

// Waiters, served from the front, and prioritise.
fn waiters(out: &impl Print, s: Scheduler) -> Scheduler {
    let a = step(out, "3 waits", s, 3, waiting(20, 9));
    let b = step(out, "4 waits", a, 4, waiting(5, 9));
    let c = step(out, "5 waits", b, 5, waiting(5, 9));
    let place = Place::semaphore(SemaphoreId(3));
    let d = show(out, "prioritise", c.prioritised(place));
    let f = d.first_at(place);
    let e = step(out, "the first is served", d, f.0, ready(5, 5));
    let g = show(
        out,
        "0 moves to the front of its order",
        e.moved_front(ThreadId(0), ready(10, 5)).rescheduled(false),
    );
    let h = show(out, "the runner relinquishes", g.relinquished());
    let k = show(
        out,
        "priority change of 3, which waits",
        h.priority_changed(ThreadId(3), 2).rescheduled(false),
    );
    show(
        out,
        "preemption change of 0",
        k.preemption_changed(ThreadId(0), 10).rescheduled(false),
    )
}

// The test refuses damage of every kind.
fn damaged(out: &impl Print, s: Scheduler) {
    verdict(out, "as it is", s);
    let mut slot = s;
    slot.order.ids[31] = 1;
    verdict(out, "a slot behind the line not zero", slot);
    let mut twice = s;
    twice.order.ids[1] = 1;
    verdict(out, "a thread twice in the line", twice);
    let mut marked = s;
    marked.threads[3].marked = true;
    verdict(out, "a waiter marked", marked);
    let mut timeless = s;
    timeless.threads[3].ticks = 0;
    verdict(out, "a wait with no tick left", timeless);
    let mut held = s;
    held.threads[1].suspending = true;
    verdict(out, "a ready thread with a held suspension", held);
    let mut level = s;
    level.threads[1].threshold = 30;
    verdict(out, "a threshold over its priority", level);
    let mut unused = s;
    unused.threads[30].ticks = 1;
    verdict(out, "an uncreated record not zero", unused);
    let mut idle = s;
    idle.running = ThreadId(NOBODY);
    verdict(out, "nobody runs while somebody is ready", idle);
}

fn main(rt: HostRuntime) {
    let s = waiters(&rt, interrupted(&rt));
    damaged(&rt, s);
}
