#![tactic(auto)]

// How the record, the configuration, numbers and answers lie in the bytes that a caller from
// another language lends: the layout is defined in specs/, and what holds of it is proved here.
// The crates `c_records` and `c_answers` lay values into bytes and take them out, with the sizes
// and offsets below: the numbers of specs/Offsets.antt.

// How many places the arrays of a record, of a configuration and of an answer have.
pub const MAX_STATES: usize = 32;

pub const MAX_SYMBOLS: usize = 16;

pub const MAX_NEXT: usize = MAX_STATES * MAX_SYMBOLS;

pub const MAX_CAPACITY: usize = 6;

pub const MAX_EMITTED: usize = 7;

pub const AUTOMATON_SIZE: usize = 564;

pub const AUTOMATON_STATES: usize = 0;

pub const AUTOMATON_SYMBOLS: usize = 1;

pub const AUTOMATON_CAPACITY: usize = 2;

pub const AUTOMATON_INITIAL: usize = 3;

pub const AUTOMATON_CLASSES: usize = 4;

pub const AUTOMATON_ACCEPTING: usize = 20;

pub const AUTOMATON_NEXT: usize = 52;

pub const PLACE_SIZE: usize = 4;

pub const CONFIGURATION_SIZE: usize = 40;

pub const CONFIGURATION_STATE: usize = 0;

pub const CONFIGURATION_HELD: usize = 1;

pub const CONFIGURATION_BUFFER: usize = 2;

pub const CONFIGURATION_PLACES: usize = 8;

pub const CONFIGURATION_RECEIVED: usize = 32;

pub const CONFIGURATION_EMITTED: usize = 36;

pub const NUMBER_SIZE: usize = 8;

pub const STATUS_SIZE: usize = 1;

pub const RECEIVED_SIZE: usize = 37;

pub const RECEIVED_EMITTED: usize = 0;

pub const RECEIVED_COUNT: usize = 7;

pub const RECEIVED_WINNING: usize = 8;

pub const RECEIVED_PLACES: usize = 9;

pub const RAN_SIZE: usize = 16;

pub const RAN_LENGTH: usize = 0;

pub const RAN_REFUSED: usize = 8;

pub const EXPECTED_SIZE: usize = 3;

pub const EXPECTED_KNOWN: usize = 0;

pub const EXPECTED_SERIAL: usize = 1;

pub const FED_SIZE: usize = 53;

pub const FED_LOSS: usize = 37;

pub const FED_PLACE: usize = 45;

pub const VERDICT_SIZE: usize = 2;
