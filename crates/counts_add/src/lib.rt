// The numbers of an event added to the sums of a trace.
#![tactic(auto)]

ghost use Rattle.std.specs.Prelude.{◌≡◌};
ghost use Rattle.counts_text.specs.Sums.{added, Addable};

use reports::NUMBERS;

// Adds the numbers of an event to the sums.
pub fn add(sums: &mut [u64; NUMBERS], told: &[u64; NUMBERS])
    requires { Addable sums.old told.now }
    ensures { sums.new ≡ added sums.old told.now }
{
    // by place: what is written through `iter_mut` is not known afterwards
    for k in 0..NUMBERS {
        sums[k] += told[k];
    }
}
