// Whether a place from N on holds no thread, and no slot from there on a number, for any contents. No state.
#![tactic(auto)]

ghost use Rattle.std.specs.Prelude.{◌≡◌, [], ◌∷◌, ◌++◌, eqb, ◌*◌, ◌≤◌, length, drop};
ghost use Rattle.base.specs.Tests.{all, zeros};
ghost use Rattle.records.specs.Ranges.{most_threads};
ghost use Rattle.account.specs.Account.{entries};
ghost use Rattle.rows.specs.Rows.{all_slots};
ghost use Rattle.state.specs.Sound.{server_tests, absent_fields};

use account::ENTRIES;
use thread::Thread;

// Whether a place from N on holds no thread; its slots are asked apart. All its bits are put together: one test for each place.
pub fn no_thread(t: Thread, count: u8) -> bool
    ensures { result ≡ all (absent_fields t ++ (server_tests t.server ++ (eqb count 0 ∷ []))) }
{
    let p = t.parameters;
    let s = t.server;
    let bytes = p.policy | p.priority | p.low | p.max_repl | t.blocked | count;
    let words = p.budget | p.period | t.total | t.left | s.capacity | s.used | s.activation;
    (words | u64::from(p.flag) | u64::from(bytes)) == 0
}

// Whether no slot from thread n on holds a number. Slices, so that any of such a length can be lent.
pub fn no_slots<'a>(n: usize, dues: &'a [u64], amounts: &'a [u64]) -> bool
    requires { (n ≤ most_threads) × (length dues.now ≡ all_slots) × (length amounts.now ≡ all_slots) }
    ensures { result ≡ all (all (zeros (drop (n * entries) dues.now)) ∷ all (zeros (drop (n * entries) amounts.now)) ∷ []) }
{
    let from = n * ENTRIES;
    slots_clear::clear(&dues[from..], &amounts[from..])
}
