#![tactic(auto)]

// What the calls over a list of clients hand back. The answers themselves are defined in specs/;
// the crates `clients` and `clients_day` have the calls.
use configuration_places::InputPlace;

// What one event for a client brings: the symbols emitted with their count (places past it are 0),
// whether the client's configuration is then winning, and the place of each symbol emitted among
// the client's own accepted events (0 past the count). The configuration itself lies in the lent
// list. Refused: the row, nothing emitted, no.
#[derive(Clone, Copy)]
pub struct ReceivedFor {
    pub refusal: u8,
    pub emitted: [u8; 7],
    pub count: u8,
    pub winning: bool,
    pub places: [InputPlace; 7],
}

// What a whole day over the list brings: how many bytes were written, and how many events were
// refused. Refused: the row, 0 and 0.
#[derive(Clone, Copy)]
pub struct RanFor {
    pub refusal: u8,
    pub length: usize,
    pub refused: usize,
}
