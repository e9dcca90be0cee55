// What each rule of a sporadic server does, as an Effect: the limit, a block, and what comes back. No entries, no thread, no list.
#![tactic(auto)]

ghost use Rattle.std.specs.Prelude.{◌≡◌, ◌+◌, ◌<◌, ◌^◌, leb};
ghost use Rattle.sporadic.specs.Rules.{
  replenished,
  due_of,
  scheduled,
  raised,
  limit_effect,
  block_effect,
  return_effect,
};

use records::Parameters;
use sporadic::{Effect, Place, Server};

// An amount comes back, up to the budget.
fn replenish(p: Parameters, s: Server, amount: u64) -> Server
    ensures { result ≡ replenished amount p s }
{
    Server {
        capacity: s.capacity.saturating_add(amount).min(p.budget),
        ..s
    }
}

// Whether U would be due at or before now.
fn due_by(p: Parameters, s: Server, now: u64) -> bool
    ensures { result ≡ leb (due_of p s) now }
{
    s.activation <= now && p.period <= now - s.activation
}

// U is scheduled: nothing where it is 0, back at once where it is due by now, else one entry more.
#[tactic(auto, unfolding(sporadic::specs::Rules::scheduled))]
fn schedule(p: Parameters, s: Server, now: u64) -> Effect
    requires { due_of p s < 2 ^ 64 }
    ensures { result ≡ scheduled now p s }
{
    if s.used == 0 {
        return sporadic::unchanged(s);
    }
    let cleared = Server { used: 0, ..s };
    if due_by(p, s, now) {
        return Effect {
            back: s.used,
            ..sporadic::unchanged(replenish(p, cleared, s.used))
        };
    }
    Effect {
        due: s.activation + p.period,
        amount: s.used,
        ..sporadic::unchanged(cleared)
    }
}

// An amount came back: a runnable thread that was at low goes to its upper list, by x, with activation now.
fn raise(e: Effect, low: bool, x: Place, now: u64) -> Effect
    ensures { result ≡ raised now low x e }
{
    if low {
        return Effect {
            server: Server {
                activation: now,
                ..e.server
            },
            place: x,
            ..e
        };
    }
    e
}

// The limit is reached: to low, and on to upper where U came back at once. Nothing where the thread is blocked or has
// capacity left.
#[tactic(auto, unfolding(sporadic::specs::Rules::limit_effect))]
pub fn limit_effect(p: Parameters, s: Server, blocked: bool, now: u64) -> Effect
    requires { due_of p s < 2 ^ 64 }
    ensures { result ≡ limit_effect now blocked p s }
{
    if blocked || 0 < s.capacity {
        return sporadic::unchanged(s);
    }
    let e = schedule(p, s, now);
    let at_low = Effect {
        place: Place::Low,
        ..e
    };
    raise(at_low, 0 < e.back, Place::LowThenUpper, now)
}

// The running thread blocks: U is scheduled. Nothing where it is blocked already.
pub fn block_effect(p: Parameters, s: Server, blocked: bool, now: u64) -> Effect
    requires { due_of p s < 2 ^ 64 }
    ensures { result ≡ block_effect now blocked p s }
{
    if blocked {
        return sporadic::unchanged(s);
    }
    schedule(p, s, now)
}

// The first of `count` entries, of this amount, comes back; nothing where there is none.
#[tactic(auto, unfolding(sporadic::specs::Rules::return_effect))]
pub fn return_effect(
    p: Parameters,
    s: Server,
    count: u8,
    amount: u64,
    blocked: bool,
    now: u64,
) -> Effect
    ensures { result ≡ return_effect now blocked p count amount s }
{
    if count == 0 {
        return sporadic::unchanged(s);
    }
    let e = Effect {
        back: amount,
        first: true,
        ..sporadic::unchanged(replenish(p, s, amount))
    };
    let low = !blocked && !sporadic::at_upper(p, s.capacity, count);
    raise(e, low, Place::Upper, now)
}
