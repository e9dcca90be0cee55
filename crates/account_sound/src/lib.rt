// The test that one sporadic account is sound, for any values of its fields. The definitions stand in account/specs/Sound.
#![tactic(auto)]

ghost use Rattle.std.specs.Prelude.{◌≡◌};
ghost use Rattle.account.specs.Sound.{sound_at};

use account::Account;
use records::Parameters;

// Whether the account is sound at a time, for any values of its fields.
pub fn sound(p: Parameters, a: Account, blocked: bool, start: u64, now: u64) -> bool
    ensures { result ≡ sound_at start now blocked p a }
{
    let q = a.pending;
    account_lent::sound_lent(
        p, a.server, q.count, &q.dues, &q.amounts, blocked, start, now,
    )
}
