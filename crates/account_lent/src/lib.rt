// The test that one sporadic account is sound, for any contents, where its slots are lent. The definitions stand in account/specs/Sound.
#![tactic(auto)]

ghost use Rattle.std.specs.Prelude.{◌≡◌, false, cond, length};
ghost use Rattle.base.specs.Tests.{all};
ghost use Rattle.sporadic.specs.Rules.{at_upper};
ghost use Rattle.account.specs.Account.{entries};
ghost use Rattle.account.specs.Sound.{number_tests, sound_at};
ghost use Rattle.account_lent.specs.Lent.{account_of};

use account::ENTRIES;
use records::Parameters;
use sporadic::Server;

// The most entries that there are slots for.
const MOST: u8 = ENTRIES as u8;

// The count, U and the activation time. `up`: runnable at the upper priority.
fn numbers_hold(p: Parameters, s: Server, count: u8, up: bool, start: u64, now: u64) -> bool
    ensures { result ≡ all (number_tests start now up p s count) }
{
    if p.max_repl < count {
        return false;
    }
    if MOST < count {
        return false;
    }
    if !up && s.used != 0 {
        return false;
    }
    if s.activation < start {
        return false;
    }
    if now < s.activation {
        return false;
    }
    s.used <= now - s.activation
}

// A runnable thread at its upper priority.
fn runs_upper(p: Parameters, capacity: u64, count: u8, blocked: bool) -> bool
    ensures { result ≡ cond blocked false (at_upper p capacity count) }
{
    !blocked && sporadic::at_upper(p, capacity, count)
}

// Whether the account is sound at a time, for any values of its fields. Slices, as a part of an array is lent too.
pub fn sound_lent<'a>(
    p: Parameters,
    s: Server,
    count: u8,
    dues: &'a [u64],
    amounts: &'a [u64],
    blocked: bool,
    start: u64,
    time: u64,
) -> bool
    requires { (length dues.now ≡ entries) × (length amounts.now ≡ entries) }
    ensures { result ≡ sound_at start time blocked p (account_of s count dues.now amounts.now) }
{
    let up = runs_upper(p, s.capacity, count, blocked);
    if !numbers_hold(p, s, count, up, start, time) {
        return false;
    }
    let n = usize::from(count);
    if !entries_sound::entries_hold(
        p.budget,
        s.capacity,
        s.used,
        &amounts[..n],
        &dues[..n],
        time,
    ) {
        return false;
    }
    slots_clear::clear(&dues[n..], &amounts[n..])
}
