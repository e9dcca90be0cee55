// A sporadic server and what a rule can do to it (an Effect); when the assigned priority is the upper one, and charging. The code of the
// rules stands above, in `effects` and `carrying`. No entries, no thread, no list.
#![tactic(auto)]

ghost use Rattle.std.specs.Prelude.{◌≡◌, ◌+◌, ◌<◌, ◌≤◌, ◌^◌};
ghost use Rattle.sporadic.specs.Rules.{unchanged, at_upper, charged};

use records::Parameters;

// Capacity, the charged time that is not yet scheduled (01's U), and the activation time.
#[repr(C)]
#[derive(Clone, Copy, PartialEq, Eq)]
pub struct Server {
    pub capacity: u64,
    pub used: u64,
    pub activation: u64,
}

// Where a rule sends the thread: Low and Upper are the tails of its two lists.
#[derive(Clone, Copy)]
pub enum Place {
    Stays,
    Low,
    LowThenUpper,
    Upper,
}

// What a rule does, without the entries that were there: the server that it leaves; where the thread goes; the amount that
// becomes pending, 0 for none, with its due time; the amount that came back, 0 for none; and whether that was the first
// entry, which is then gone. Numbers and no Options: the definitions of the rules hold a 0 for none.
#[derive(Clone, Copy)]
pub struct Effect {
    pub server: Server,
    pub place: Place,
    pub due: u64,
    pub amount: u64,
    pub back: u64,
    pub first: bool,
}

// Nothing happens.
pub fn unchanged(s: Server) -> Effect
    ensures { result ≡ unchanged s }
{
    Effect {
        server: s,
        place: Place::Stays,
        due: 0,
        amount: 0,
        back: 0,
        first: false,
    }
}

// Whether the assigned priority is the upper one.
pub fn at_upper(p: Parameters, capacity: u64, count: u8) -> bool
    ensures { result ≡ at_upper p capacity count }
{
    0 < capacity && count < p.max_repl
}

// k ticks run at the upper priority.
pub fn charge(s: Server, k: u64) -> Server
    requires { (k ≤ s.capacity) × (s.used + k < 2 ^ 64) }
    ensures { result ≡ charged k s }
{
    Server {
        capacity: s.capacity - k,
        used: s.used + k,
        ..s
    }
}
