// The order of moments, of which 0 is none: the earlier of two, and whether one falls by a time.
// A number and no Option: 0 is 01's, and C is handed it.
#![tactic(auto)]

ghost use Rattle.std.specs.Prelude.{◌≡◌};
ghost use Rattle.passing.specs.Time.{due_by};
ghost use Rattle.ticks.specs.Running.{earlier};

// The earlier of two moments, 0 for none.
pub fn earlier_of(a: u64, b: u64) -> u64
    ensures { result ≡ earlier a b }
{
    if a == 0 {
        return b;
    }
    if b == 0 {
        return a;
    }
    if a < b {
        return a;
    }
    b
}

// Whether there is a moment m and it falls at or before t.
pub fn due_by(m: u64, t: u64) -> bool
    ensures { result ≡ due_by m t }
{
    if m == 0 {
        return false;
    }
    m <= t
}
