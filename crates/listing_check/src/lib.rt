// What is said of another kernel's listing of a trace, and the same in numbers.
#![tactic(auto)]

ghost use Rattle.std.specs.Prelude.{◌≡◌};
ghost use Rattle.listing_check.specs.Verdict.{checked_of};

// What is said of a listing: it is ours; the number, from 1, of the first line that differs, is missing or is surplus; or the number by
// which the trace itself is refused.
// A number and no enum of refusals: `RefusedFirst` speaks of it.
#[derive(Clone, Copy)]
pub enum Verdict {
    Same,
    Differs(usize),
    Refused(u8),
}

// A verdict in numbers, as C gets it: 0 yes, 1 a line, 2 a refusal; then the refusal's number and the line's. What doesn't apply is 0.
#[repr(C)]
#[derive(Clone, Copy)]
pub struct Checked {
    pub verdict: u8,
    pub status: u8,
    pub line: usize,
}

// A verdict in numbers. No `From`: the pages name this function.
pub fn checked_of(v: Verdict) -> Checked
    ensures { result ≡ checked_of v }
{
    match v {
        Verdict::Same => Checked {
            verdict: 0,
            status: 0,
            line: 0,
        },
        Verdict::Differs(line) => Checked {
            verdict: 1,
            status: 0,
            line,
        },
        Verdict::Refused(status) => Checked {
            verdict: 2,
            status,
            line: 0,
        },
    }
}
