#![tactic(auto)]

// The configuration of a monitor: its state, the events that it holds back with their places in
// the input, and how many events came in and went out. (The crate `configuration_check` checks
// row 13.)
ghost use Rattle.std.specs.Prelude.{◌≡◌};
ghost use Rattle.configuration.specs.Configuration.{empty_at, configuration, started, not_started, initial_answer};
ghost use Rattle.refusal.specs.Numbers.{by_number};

use automaton::Automaton;
use configuration_places::{InputPlace, OutputPlace};
use refusal::Refusal;

// Document 01's carried state: a state, how many events are held, those events in order and the
// place of each in the input (unused places of both are 0); how many events were accepted, which
// is the next one's place in the input, and how many symbols were put out. (`repr(C)`: a list of
// them crosses to C as it lies, crate `jaxhophasi`.)
#[repr(C)]
#[derive(Clone, Copy)]
pub struct Configuration {
    pub state: u8,
    pub held: u8,
    pub buffer: [u8; 6],
    pub places: [InputPlace; 6],
    pub received: InputPlace,
    pub emitted: OutputPlace,
}

// A state with nothing held and nothing counted.
pub fn empty(state: u8) -> Configuration
    ensures { result ≡ configuration (empty_at state) }
{
    Configuration {
        state,
        held: 0,
        buffer: [0u8; 6],
        places: [InputPlace(0); 6],
        received: InputPlace(0),
        emitted: OutputPlace(0),
    }
}

// The initial configuration of an automaton that row 11 lets pass.
pub fn initial(a: &Automaton) -> Result<Configuration, Refusal>
    ensures { by_number started not_started result ≡ initial_answer a.now }
{
    if automaton_check::valid(a) {
        return Ok(empty(a.initial));
    }
    Err(Refusal::BrokenAutomaton)
}
