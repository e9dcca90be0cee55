// A thread's share of the elapsed time.
#![tactic(auto)]

ghost use Rattle.std.specs.Prelude.{◌≡◌};
ghost use Rattle.state.specs.Updates.{whole};
ghost use Rattle.shares.specs.Shares.{share_of};

use base::Refusal;
use quotient::quotient;
use rows::Slots;
use state::Core;

// A thread's share; none, where no time has passed; or the number by which it is refused.
// Three cases and no `Result`: no elapsed time is a case of its own, and `share_of` speaks of the number.
#[derive(Clone, Copy)]
pub enum Share {
    Of(f64),
    NoTime,
    Refused(u8),
}

// The share of a thread, for any state and any number.
pub fn share_of<'a>(c: Core, dues: &'a Slots, amounts: &'a Slots, thread: u8) -> Share
    ensures { result ≡ share_of (whole c dues.now amounts.now) thread }
{
    if !state_sound::sound(c, dues, amounts) {
        return Share::Refused(u8::from(Refusal::NotSound));
    }
    if c.header.n <= u32::from(thread) {
        return Share::Refused(u8::from(Refusal::WrongThread));
    }
    if c.now == c.header.start {
        return Share::NoTime;
    }
    Share::Of(quotient(c.threads[usize::from(thread)].total, c.now - c.header.start))
}
