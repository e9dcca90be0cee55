// Whether slots that are not in use hold no number. No account, no thread.
#![tactic(auto)]

ghost use Rattle.std.specs.Prelude.{◌≡◌, [], ◌∷◌, eqb};
ghost use Rattle.base.specs.Tests.{all, zeros};

// Whether no slot of either holds a number.
pub fn clear<'a>(dues: &'a [u64], amounts: &'a [u64]) -> bool
    ensures { result ≡ all (all (zeros dues.now) ∷ all (zeros amounts.now) ∷ []) }
{
    (bits_of(dues) | bits_of(amounts)) == 0
}

// The bits of all of them, to the end in any case: a loop that may return early is compiled number by number.
fn bits_of(xs: &[u64]) -> u64
    ensures { eqb result 0 ≡ all (zeros xs.now) }
{
    let mut bits: u64 = 0;
    for x in xs {
        bits |= x;
    }
    bits
}
