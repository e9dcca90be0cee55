// When the next moment is: the earlier of the running thread's limit and the next due.
#![tactic(auto)]

ghost use Rattle.std.specs.Prelude.{◌≡◌, cond, ◌+◌, ◌<◌, ◌≤◌, ◌^◌, eqb};
ghost use Rattle.records.specs.Ranges.{most_threads};
ghost use Rattle.due_search.specs.Search.{next_due};
ghost use Rattle.ticks.specs.Running.{earlier, limit_of};

use records::{SCHED_FIFO, SCHED_RR, THREADS};
use rows::SLOTS;
use thread::Thread;

// When a thread that runs in list p reaches its limit or the end of its quantum, 0 for never.
fn limit_of(time: u64, p: u8, t: Thread) -> u64
    requires { (time + t.left < 2 ^ 64) × (time + t.server.capacity < 2 ^ 64) }
    ensures { result ≡ limit_of time p t }
{
    match t.parameters.policy {
        SCHED_FIFO => 0,
        SCHED_RR => time + t.left,
        _ if p == t.parameters.priority => time + t.server.capacity,
        _ => 0,
    }
}

// The same, where p is 0 if nothing runs.
pub fn limit_at(time: u64, p: u8, t: Thread) -> u64
    requires { (time + t.left < 2 ^ 64) × (time + t.server.capacity < 2 ^ 64) }
    ensures { result ≡ cond (eqb p 0) 0 (limit_of time p t) }
{
    if p == 0 {
        return 0;
    }
    limit_of(time, p, t)
}

// The next moment, 0 for none: thread t runs in list p, or nothing runs and p is 0. A number and no Option: it is 01's, and C is handed it.
pub fn next_moment<'a>(
    time: u64,
    p: u8,
    t: Thread,
    counts: &'a [u8; THREADS],
    dues: &'a [u64; SLOTS],
    n: usize,
) -> u64
    requires { (n ≤ most_threads) × (time + t.left < 2 ^ 64) × (time + t.server.capacity < 2 ^ 64) }
    ensures { result ≡ earlier (cond (eqb p 0) 0 (limit_of time p t)) (next_due counts.now dues.now n).due }
{
    let x = next_due::next_due(counts, dues, n);
    moment_order::earlier_of(limit_at(time, p, t), x.due)
}
