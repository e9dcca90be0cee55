// A time over another as an f64: each converted exactly, and one division.
#![tactic(auto)]

ghost use Rattle.std.specs.Prelude.{◌≡◌, ◌≤◌};
ghost use Rattle.records.specs.Ranges.{last_time};
ghost use Rattle.quotient.specs.Quotient.{quotient};

// total / elapsed: each converted exactly, and one division.
pub fn quotient(total: u64, elapsed: u64) -> f64
    requires { (total ≤ last_time) × (elapsed ≤ last_time) }
    ensures { result ≡ quotient total elapsed }
{
    (total as f64) / (elapsed as f64)
}
