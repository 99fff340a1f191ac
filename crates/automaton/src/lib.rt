#![tactic(auto)]

// The property automaton (document 01's sheet): its record. What row 11 asks of it is defined in
// specs/; the crate `automaton_check` checks it.
ghost use Rattle.std.specs.Prelude.{◌≡◌};
ghost use Rattle.automaton.specs.Automaton.{blank};

// How many classes there are: 0 uncontrollable, 1 controllable.
pub const CLASSES: u8 = 2;

// The record: how many states (n) and symbols (m, document 01's kinds), the capacity of the buffer
// (the hold, B), the initial state (start), the classes of the symbols (0 uncontrollable, 1
// controllable), the flags of the states (1 accepting), and the next state of q under e at q * 16
// + e; unused places are 0.
#[derive(Clone, Copy)]
pub struct Automaton {
    pub states: u8,
    pub symbols: u8,
    pub capacity: u8,
    pub initial: u8,
    pub classes: [u8; 16],
    pub accepting: [u8; 32],
    pub next: [u8; 512],
}

// The record with 0 everywhere.
pub fn blank() -> Automaton
    ensures { result ≡ blank }
{
    Automaton {
        states: 0,
        symbols: 0,
        capacity: 0,
        initial: 0,
        classes: [0u8; 16],
        accepting: [0u8; 32],
        next: [0u8; 512],
    }
}
