// The list in which a thread stands.
#![tactic(auto)]

ghost use Rattle.std.specs.Prelude.{◌≡◌};
ghost use Rattle.thread.specs.Thread.{place_of};

use records::SCHED_SPORADIC;
use thread::Thread;

// The list in which a thread stands that has `count` replenishments pending, 0 for none.
pub fn assigned_place(t: Thread, count: u8) -> u8
    ensures { result ≡ place_of t count }
{
    if 0 < t.blocked {
        return 0;
    }
    let p = t.parameters;
    if p.policy < SCHED_SPORADIC {
        return p.priority;
    }
    if sporadic::at_upper(p, t.server.capacity, count) {
        return p.priority;
    }
    p.low
}
