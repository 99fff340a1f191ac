#![tactic(auto)]

// What the day program prints: the transcript of an input is defined in specs/ and what holds of
// it is proved here. The crate `day_opening` reads the sheet and solves it, `day_pieces` writes
// the lines.
use automaton::Automaton;
use configuration::Configuration;

// The monitor at work on an input: the automaton, the configuration, the place of the next event
// in the input, and how many events were accepted and refused so far.
#[derive(Clone, Copy)]
pub struct Session {
    pub automaton: Automaton,
    pub configuration: Configuration,
    pub place: usize,
    pub accepted: usize,
    pub refused: usize,
}

// What is printed next: nothing more; a row alone; a row with the place of its fault; a session's
// first line; the line of the event that is received. A row is its number: a `Progress`
// that is handed in may have any, and what is to come is defined of each.
#[derive(Clone, Copy)]
pub enum Phase {
    Ended,
    Refused(u8),
    Faulted(u8, usize),
    Opening,
    Receiving,
}

// Where the transcript stands: the phase, and the session, at which only the last two phases look.
#[derive(Clone, Copy)]
pub struct Progress {
    pub phase: Phase,
    pub session: Session,
}

// What a piece leaves: the progress after it, and the place after what was written.
#[derive(Clone, Copy)]
pub struct Piece {
    pub progress: Progress,
    pub length: usize,
}
