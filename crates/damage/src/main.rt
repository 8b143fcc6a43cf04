// The soundness test on damaged tables: from sound tables with a waiter, a sleeper, a suspended thread and a semaphore
// one field at a time is changed, and the verdict printed.

#![tactic(auto)]

use calls::call::Request;
use kernel::Kernel;
use numbers::{NOBODY, ThreadId};

// A write that fails is not reported.
fn verdict(out: &impl Print, what: &str, k: Kernel) {
    let said = if k.is_sound() { "sound" } else { "unsound" };
    let _ = println!(out; "{what}: {said}");
}

// The verdict on the tables once they are changed.
fn changed<F: FnOnce(&mut Kernel)>(out: &impl Print, what: &str, mut k: Kernel, change: F)
    requires { F.IsAlwaysCallable change }
{
    change(&mut k);
    verdict(out, what, k);
}

fn request(number: u32, caller: u32, arguments: [u32; 4]) -> Request {
    let [a, b, c, d] = arguments;
    Request {
        number,
        caller,
        a,
        b,
        c,
        d,
    }
}

// Thread 0 waits for semaphore 0 with 9 ticks, 1 sleeps for 5, 2 is suspended, 3 runs; semaphore 1 has 4 instances. One word of messages is
// lent.
fn sample() -> Kernel {
    let requests = [
        request(16, 0, [0, 0, 0, 0]),
        request(16, 0, [1, 4, 0, 0]),
        request(1, 0, [0, 8, 8, 1]),
        request(18, 2, [0, 9, 0, 0]),
        request(1, 0, [1, 9, 9, 1]),
        request(9, 2, [5, 0, 0, 0]),
        request(1, 0, [2, 10, 10, 0]),
        request(1, 0, [3, 11, 7, 1]),
    ];
    let mut k = Kernel::start();
    for r in requests {
        k = k.call(r, &[7]).kernel;
    }
    k
}

// Changes that leave the tables sound.
fn harmless(out: &impl Print, k: Kernel) {
    verdict(out, "nothing created", Kernel::start());
    verdict(out, "as it is", k);
    changed(out, "another clock", k, |k| k.clock = u32::MAX);
    changed(out, "no instance, nobody waits", k, |k| {
        k.semaphores[1].count = 0;
    });
    changed(out, "a ready thread with a status and words", k, |k| {
        k.held[3].words[15] = 7;
        k.held[3].status = 26;
    });
    changed(out, "a sleep without end", k, |k| {
        k.scheduler.threads[1].ticks = u32::MAX;
    });
}

// What a thread holds.
fn held(out: &impl Print, k: Kernel) {
    changed(out, "a waiter without 0x101", k, |k| k.held[0].status = 0);
    changed(out, "a ready thread with 0x101", k, |k| {
        k.held[3].status = 257;
    });
    changed(out, "a sleeper with a held word", k, |k| {
        k.held[1].words[15] = 1;
    });
    changed(out, "a sender that waits for a semaphore", k, |k| {
        k.held[0].sending = true;
    });
    changed(out, "a front mark on a ready thread", k, |k| {
        k.held[3].front = true;
    });
    changed(out, "a word of a waiter that does not send", k, |k| {
        k.held[0].words[0] = 1;
    });
    changed(
        out,
        "a request of one who does not wait for flags",
        k,
        |k| {
            k.held[0].request = 1;
        },
    );
    changed(out, "an option of a suspended thread", k, |k| {
        k.held[2].option = 1;
    });
    changed(out, "an uncreated thread that holds a status", k, |k| {
        k.held[31].status = 1;
    });
}

// Waits and the objects waited on.
fn waits(out: &impl Print, k: Kernel) {
    changed(out, "a waiter beside an instance", k, |k| {
        k.semaphores[0].count = 1;
    });
    changed(out, "a waiter on a deleted semaphore", k, |k| {
        k.semaphores[0].created = false;
    });
    changed(out, "a waiter on a semaphore past the table", k, |k| {
        k.scheduler.threads[0].object = 16;
    });
    changed(out, "a waiter on a queue that is not created", k, |k| {
        k.scheduler.threads[0].state = 5;
    });
    changed(out, "a wait with no tick left", k, |k| {
        k.scheduler.threads[0].ticks = 0;
    });
    changed(out, "a state past the last", k, |k| {
        k.scheduler.threads[1].state = 9;
    });
}

// Object records, the line and the runner.
fn records(out: &impl Print, k: Kernel) {
    changed(out, "an uncreated semaphore with a count", k, |k| {
        k.semaphores[15].count = 1;
    });
    changed(out, "an uncreated group with flags", k, |k| {
        k.groups[7].flags = 1;
    });
    changed(out, "an uncreated pool with bytes", k, |k| {
        k.pools[3].total = 1;
    });
    changed(out, "an uncreated queue with a stored word", k, |k| {
        k.queues[7].store[63] = 1;
    });
    changed(out, "a pool that lists block 0 twice", k, |k| {
        let pool = &mut k.pools[0];
        pool.created = true;
        pool.block = 16;
        pool.total = 100;
        pool.free = 2;
    });
    changed(out, "a slot behind the line not zero", k, |k| {
        k.scheduler.order.ids[31] = 1;
    });
    changed(out, "nobody runs while somebody is ready", k, |k| {
        k.scheduler.running = ThreadId(NOBODY);
    });
}

fn main(rt: HostRuntime) {
    let k = sample();
    harmless(&rt, k);
    held(&rt, k);
    waits(&rt, k);
    records(&rt, k);
}
