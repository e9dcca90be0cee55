// What so many ticks change.
#![tactic(auto)]

ghost use Rattle.std.specs.Prelude.{◌≡◌, false, cond, ◌+◌, ◌<◌, ◌≤◌, ◌^◌, eqb};
ghost use Rattle.ticks.specs.Running.{ran};

use records::{SCHED_FIFO, SCHED_RR};
use thread::Thread;

// The ticks that a sporadic thread is charged, of k in list p: all at its upper priority, at low none.
fn charged_ticks(p: u8, upper: u8, k: u64) -> u64
    ensures { result ≡ cond (eqb p upper) k 0 }
{
    if p == upper {
        return k;
    }
    0
}

// A thread after k ticks in list p.
fn ran_thread(p: u8, k: u64, t: Thread) -> Thread
    requires { (t.total + k < 2 ^ 64) × (t.server.used + k < 2 ^ 64)
        × (t.parameters.policy ≡ 1 → k ≤ t.left)
        × (1 < t.parameters.policy → p ≡ t.parameters.priority → k ≤ t.server.capacity) }
    ensures { result ≡ ran p k t }
{
    let total = t.total + k;
    match t.parameters.policy {
        SCHED_FIFO => thread_updates::with_run(t, total, t.left, t.server),
        SCHED_RR => thread_updates::with_run(t, total, t.left - k, t.server),
        _ => {
            let server = sporadic::charge(t.server, charged_ticks(p, t.parameters.priority, k));
            thread_updates::with_run(t, total, t.left, server)
        }
    }
}

// The same, unchanged where p is 0 because nothing runs.
pub fn charged_thread(p: u8, k: u64, t: Thread) -> Thread
    requires { eqb p 0 ≡ false → (t.total + k < 2 ^ 64) × (t.server.used + k < 2 ^ 64)
        × (t.parameters.policy ≡ 1 → k ≤ t.left)
        × (1 < t.parameters.policy → p ≡ t.parameters.priority → k ≤ t.server.capacity) }
    ensures { result ≡ cond (eqb p 0) t (ran p k t) }
{
    if 0 < p {
        return ran_thread(p, k, t);
    }
    t
}

// The idle time after k ticks, where p is 0 if nothing runs.
pub fn charged_idle(p: u8, k: u64, idle: u64) -> u64
    requires { idle + k < 2 ^ 64 }
    ensures { result ≡ idle + cond (eqb p 0) k 0 }
{
    if p == 0 {
        return idle + k;
    }
    idle
}
