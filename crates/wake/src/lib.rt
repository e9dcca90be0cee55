// What a wake does to a sporadic server, as an Effect. No entries, no thread, no list.
#![tactic(auto)]

ghost use Rattle.std.specs.Prelude.{◌≡◌};
ghost use Rattle.sporadic.specs.Rules.{wake_effect};

use records::Parameters;
use sporadic::{Effect, Place, Server};

// A blocked thread with `count` entries wakes, at the upper or the low priority. Nothing where it is runnable already.
pub fn wake_effect(p: Parameters, s: Server, count: u8, blocked: bool, now: u64) -> Effect
    ensures { result ≡ wake_effect now blocked p count s }
{
    if !blocked {
        return sporadic::unchanged(s);
    }
    if sporadic::at_upper(p, s.capacity, count) {
        let active = Server {
            activation: now,
            ..s
        };
        return Effect {
            place: Place::Upper,
            ..sporadic::unchanged(active)
        };
    }
    Effect {
        place: Place::Low,
        ..sporadic::unchanged(s)
    }
}
