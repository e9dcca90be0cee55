// A set to sporadic of a thread that is sporadic already: its server under the new parameters, and when that is refused.
#![tactic(auto)]

ghost use Rattle.std.specs.Prelude.{◌≡◌};
ghost use Rattle.sporadic.specs.Carry.{
  carried_capacity,
  goes_up,
  carried_server,
  budget_too_small,
  too_many_pending,
  cant_carry,
  Carryable,
};

use records::Parameters;
use sporadic::Server;

// Whether a runnable thread goes from low to its upper priority.
fn goes_up(
    old: Parameters,
    new: Parameters,
    s: Server,
    capacity: u64,
    count: u8,
    blocked: bool,
) -> bool
    requires { capacity ≡ carried_capacity old new s.capacity }
    ensures { result ≡ goes_up blocked old new count s }
{
    !blocked
        && !sporadic::at_upper(old, s.capacity, count)
        && sporadic::at_upper(new, capacity, count)
}

// Capacity, U and the activation time under the new parameters, with `count` entries pending.
#[tactic(auto, unfolding(sporadic::specs::Carry::carried_server))]
pub fn carry_server(
    old: Parameters,
    new: Parameters,
    s: Server,
    count: u8,
    blocked: bool,
    now: u64,
) -> Server
    requires { Carryable old new s.capacity }
    ensures { result ≡ carried_server now blocked old new count s }
{
    let capacity = s.capacity + new.budget - old.budget;
    if goes_up(old, new, s, capacity, count, blocked) {
        return Server {
            capacity,
            activation: now,
            ..s
        };
    }
    Server { capacity, ..s }
}

// Whether the budget falls by at least the capacity.
fn budget_too_small(old: Parameters, new: Parameters, capacity: u64) -> bool
    ensures { result ≡ budget_too_small old new capacity }
{
    new.budget < old.budget && capacity <= old.budget - new.budget
}

// Whether too many entries pend for the new max_repl. `up`: runnable at the upper priority.
fn too_many_pending(up: bool, new: Parameters, count: u8) -> bool
    ensures { result ≡ too_many_pending up new count }
{
    new.max_repl < count || (new.max_repl == count && up)
}

// Whether the set is refused with 15.
#[tactic(auto, unfolding(sporadic::specs::Carry::cant_carry))]
pub fn cant_carry(old: Parameters, new: Parameters, capacity: u64, count: u8, blocked: bool) -> bool
    ensures { result ≡ cant_carry blocked old new capacity count }
{
    let up = !blocked && sporadic::at_upper(old, capacity, count);
    budget_too_small(old, new, capacity) || too_many_pending(up, new, count)
}
