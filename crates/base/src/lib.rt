// What any crate may use: why an input is refused. No rule.
#![tactic(auto)]

ghost use Rattle.std.specs.Prelude.{◌≡◌};
ghost use Rattle.base.specs.Status.{number_of, as_status};

// Why an input is refused, in the order of 01's table.
#[derive(Clone, Copy, Debug, PartialEq, Eq)]
pub enum Refusal {
    BeforeNow = 1,
    StepTooLong = 2,
    PastLastTime = 3,
    WrongKind = 4,
    WrongThread = 5,
    WrongParameters = 6,
    NothingRuns = 7,
    NotBlocked = 8,
    NotSound = 9,
    TooShort = 10,
    WrongHeader = 11,
    NoRoom = 12,
    WrongFiller = 13,
    WrongText = 14,
    NotCarried = 15,
}

impl From<Refusal> for u8 {
    ghost from_gives = { λ refusal number. number ≡ number_of refusal };

    fn from(refusal: Refusal) -> u8 {
        refusal as u8
    }
}

// The status of an answer: 0 where nothing is refused.
pub fn as_status<T: Copy>(answer: Result<T, Refusal>) -> u8
    ensures { result ≡ as_status answer }
{
    match answer {
        Ok(_) => 0,
        Err(refusal) => u8::from(refusal),
    }
}
