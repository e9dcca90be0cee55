// One thread of a state: its fields, and a thread with a full quantum or with new parameters.
#![tactic(auto)]

ghost use Rattle.std.specs.Prelude.{◌≡◌};
ghost use Rattle.records.specs.Ranges.{by_policy};
ghost use Rattle.thread.specs.Thread.{full_quantum, renewed};

use records::Parameters;
use sporadic::Server;

// Its parameters, whether it is blocked (1) or runnable (0), its total run time, the quantum left of an RR thread, and the
// capacity, U and activation time of a sporadic one. `blocked` is a number: C hands it in, and an unsound state may hold any.
#[repr(C)]
#[derive(Clone, Copy, PartialEq, Eq)]
pub struct Thread {
    pub parameters: Parameters,
    pub blocked: u8,
    pub total: u64,
    pub left: u64,
    pub server: Server,
}

// What an RR thread's quantum is when it is full, and x for any other thread, which has none.
fn quantum_or(p: Parameters, x: u64) -> u64
    ensures { result ≡ by_policy p.policy x p.budget x }
{
    match p.policy {
        records::SCHED_RR => p.budget,
        _ => x,
    }
}

// A thread with a full quantum; nothing else changes, the activation time included.
pub fn full_quantum(t: Thread) -> Thread
    ensures { result ≡ full_quantum t }
{
    Thread {
        left: quantum_or(t.parameters, t.left),
        ..t
    }
}

// A thread with new parameters; its account is renewed apart.
pub fn renew(p: Parameters, t: Thread) -> Thread
    ensures { result ≡ renewed p t }
{
    Thread {
        parameters: p,
        left: quantum_or(p, 0),
        ..t
    }
}
