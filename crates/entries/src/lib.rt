// The slots of the pending entries: how many there are after a rule, and the first one goes. How one comes stands in `insertion`.
#![tactic(auto)]

ghost use Rattle.std.specs.Prelude.{◌≡◌};
ghost use Rattle.entries.specs.Entries.{without_first, count_after, Room};

// How many pending replenishments an account has slots for.
pub const ENTRIES: usize = 8;

// How many entries there are after a rule: one less where the first went, one more where an amount came.
pub fn count_after(first: bool, amount: u64, count: u8) -> u8
    requires { Room first amount count }
    ensures { result ≡ count_after first amount count }
{
    if first {
        return count - 1;
    }
    if amount == 0 {
        return count;
    }
    count + 1
}

// Each number one slot up; the last slot is 0. A loop over a known length becomes a few moves in its caller; `copy_within` goes through a copy on the
// stack, which a moment feels.
pub fn without_first(xs: [u64; ENTRIES]) -> [u64; ENTRIES]
    ensures { result ≡ without_first xs }
{
    let mut r = xs;
    for i in 0..ENTRIES - 1 {
        r[i] = xs[i + 1];
    }
    r[ENTRIES - 1] = 0;
    r
}
