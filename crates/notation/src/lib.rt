#![tactic(auto)]

// Numbers as text: decimal numbers with separators and comments between them, and the same numbers
// in seven-bit groups. The notation is defined in specs/, and what holds of it is proved here. The
// crate `notation_tokens` finds the tokens of a text and reads one, `notation_pack` packs the
// text.

// A place of a text, and how many lines end before it.
#[derive(Clone, Copy)]
pub struct Place {
    pub lines: usize,
    pub at: usize,
}

// A token: how many lines end before it, where it begins and where it ends.
#[derive(Clone, Copy)]
pub struct Token {
    pub lines: usize,
    pub from: usize,
    pub to: usize,
}

// What is wrong with a token: it is no number, or one over 2,097,151.
#[derive(Clone, Copy, Debug, PartialEq, Eq)]
pub enum WordFault {
    NotNumber,
    TooLarge,
}

// A token that was found, and what its bytes are.
#[derive(Clone, Copy)]
pub struct Found {
    pub token: Token,
    pub word: Result<u32, WordFault>,
}

// A faulty token: what is wrong, the number of its line, and where the token begins and ends.
#[derive(Clone, Copy, Debug, PartialEq, Eq)]
pub struct FaultyToken {
    pub fault: WordFault,
    pub line: usize,
    pub from: usize,
    pub to: usize,
}

// Why a text is not packed: a faulty token, or a lent buffer that is too short.
#[derive(Clone, Copy, Debug, PartialEq, Eq)]
pub enum PackError {
    Faulty(FaultyToken),
    NoRoom,
}
