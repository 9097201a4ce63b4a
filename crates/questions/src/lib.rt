// Questions asked in order until one is answered no: the refusals, and definitions and laws of the questions.
#![tactic(auto)]

ghost use Rattle.std.specs.Prelude.{◌≡◌};
ghost use Rattle.questions.specs.Refusals.{refusal_number};

// The question that was answered no, with its number. Questions 1 to 4 are asked of what is written, 5 to 14 and 19 and 20 of frames that
// are read, 15 and 16 of dates, 17 and 18 of the amplitude code, and 21 of IRIG B. Number 12 is no longer given.
#[derive(Clone, Copy, PartialEq, Eq, Debug)]
pub enum Refusal {
    IllegalPlan = 1,
    BadCount = 2,
    MinuteTooLarge = 3,
    NoBitSpace = 4,
    NoEntrySpace = 5,
    TooShort = 6,
    NotBits = 7,
    BadSync = 8,
    BadState = 9,
    BadNextChange = 10,
    BadMinute = 11,
    BadLength = 13,
    OutOfOrder = 14,
    NotADate = 15,
    BadSetting = 16,
    BadSymbols = 17,
    BadValue = 18,
    FirstMessage = 19,
    UnknownLength = 20,
    BadSecond = 21,
}

impl From<Refusal> for u32 {
    ghost from_gives = { λ refusal number. number ≡ refusal_number refusal };

    fn from(refusal: Refusal) -> u32 {
        refusal as u32
    }
}
