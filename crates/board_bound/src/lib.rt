// The bound by which a sweep is planned for programs in other languages: a static library's exported function, beside those of `board`.
//
// A struct is laid out as C lays it out. It has no `requires`: any parameters and any length may be handed in.
#![tactic(auto)]

ghost use Rattle.std.specs.Prelude.{◌≡◌};
ghost use Rattle.bound.specs.Most.{most_of};

use bound::Most;
use records::Parameters;

// The most of so many ticks that a sporadic thread with these parameters takes at its upper priority.
#[unsafe(no_mangle)]
pub extern "C" fn thawonlai_bound(p: Parameters, length: u64) -> Most
    ensures { result ≡ most_of p length }
{
    bound::most_of(p, length)
}
