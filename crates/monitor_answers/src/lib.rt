#![tactic(auto)]

// What the monitor's calls hand back. The answers themselves are defined in specs/; the crates
// `monitor` and `monitor_day` have the calls.
use configuration::Configuration;
use configuration_places::InputPlace;

// Whether a configuration is winning (document 01's guarded), or the refusing row with no.
#[derive(Clone, Copy)]
pub struct Status {
    pub refusal: u8,
    pub winning: bool,
}

// What one event brings: the next configuration, the symbols emitted with their count (places past
// it are 0), whether the configuration is winning, and the place in the input of each symbol
// emitted (0 past the count). Refused: the row, the configuration given, nothing emitted, no.
#[derive(Clone, Copy)]
pub struct Received {
    pub refusal: u8,
    pub configuration: Configuration,
    pub emitted: [u8; 7],
    pub count: u8,
    pub winning: bool,
    pub places: [InputPlace; 7],
}

// What a whole day brings: the next configuration, how many bytes were written, and how many
// events were refused. Refused: the row, the configuration given, 0 and 0.
#[derive(Clone, Copy)]
pub struct Ran {
    pub refusal: u8,
    pub configuration: Configuration,
    pub length: usize,
    pub refused: usize,
}

// What one event brings where what it emits is written at a place of a lent output: the refusing
// row (0: none), the next configuration, and the place after what was written. Refused: the row,
// the configuration given and the place given.
#[derive(Clone, Copy)]
pub struct Turned {
    pub row: u8,
    pub configuration: Configuration,
    pub written: usize,
}
