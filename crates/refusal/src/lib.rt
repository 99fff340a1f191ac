#![tactic(auto)]

// The numbers of refusal (docs/RULES.md, "Numbers of refusal") as a type: one variant for each
// row, with the row's number.
ghost use Rattle.std.specs.Prelude.{◌≡◌};
ghost use Rattle.refusal.specs.Numbers.{number};

#[derive(Clone, Copy, Debug, PartialEq, Eq)]
pub enum Refusal {
    BytesEnd = 1,
    NumberTooLong = 2,
    StateCount = 3,
    SymbolCount = 4,
    Capacity = 5,
    InitialState = 6,
    ClassOrFlag = 7,
    ControllableCount = 8,
    NextState = 9,
    BytesLeft = 10,
    BrokenAutomaton = 11,
    ShortTable = 12,
    BrokenConfiguration = 13,
    NoSuchSymbol = 14,
    BufferFull = 15,
    ShortOutput = 16,
    TooLarge = 17,
    LongInput = 18,
    NoSuchClient = 19,
    ClientCount = 20,
    LargeSerial = 21,
    LateSerial = 22,
    CountEnd = 23,
    OtherSymbols = 24,
    TooManyPairs = 25,
}

impl From<Refusal> for u8 {
    ghost from_gives = { λ refusal n. n ≡ number refusal };

    fn from(refusal: Refusal) -> u8 {
        refusal as u8
    }
}

// A row that refuses, and the place of the fault; each call says which.
#[derive(Clone, Copy, Debug, PartialEq, Eq)]
pub struct Fault {
    pub refusal: Refusal,
    pub place: usize,
}
