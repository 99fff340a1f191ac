#![tactic(auto)]

// How an automaton, a configuration and the expected serial of a feed lie in the bytes that a
// caller lends: into bytes and out of them.
ghost use Rattle.std.specs.Prelude.{◌≡◌};
ghost use Rattle.c_layout.specs.Layout.{automaton_of, automaton_bytes, configuration_of, configuration_bytes};
ghost use Rattle.c_layout.specs.Layout.{expected_of, expected_bytes, expected_laid};

use automaton::Automaton;
use base::copy;
use c_layout::{
    AUTOMATON_ACCEPTING, AUTOMATON_CAPACITY, AUTOMATON_CLASSES, AUTOMATON_INITIAL, AUTOMATON_NEXT,
    AUTOMATON_SIZE, AUTOMATON_STATES, AUTOMATON_SYMBOLS, CONFIGURATION_BUFFER,
    CONFIGURATION_EMITTED, CONFIGURATION_HELD, CONFIGURATION_PLACES, CONFIGURATION_RECEIVED,
    CONFIGURATION_SIZE, CONFIGURATION_STATE, EXPECTED_KNOWN, EXPECTED_SERIAL, EXPECTED_SIZE,
    MAX_CAPACITY, MAX_NEXT, MAX_STATES, MAX_SYMBOLS, PLACE_SIZE,
};
use c_places::{held_places, lay_places, place_at, place_bytes};
use configuration::Configuration;
use configuration_places::{InputPlace, OutputPlace};
use feed_record::Expected;

pub fn automaton_of(bytes: &[u8; AUTOMATON_SIZE]) -> Automaton
    ensures { result ≡ automaton_of bytes.now }
{
    let mut classes = [0u8; MAX_SYMBOLS];
    copy(bytes, AUTOMATON_CLASSES, MAX_SYMBOLS, &mut classes, 0);
    let mut accepting = [0u8; MAX_STATES];
    copy(bytes, AUTOMATON_ACCEPTING, MAX_STATES, &mut accepting, 0);
    let mut next = [0u8; MAX_NEXT];
    copy(bytes, AUTOMATON_NEXT, MAX_NEXT, &mut next, 0);
    Automaton {
        states: bytes[AUTOMATON_STATES],
        symbols: bytes[AUTOMATON_SYMBOLS],
        capacity: bytes[AUTOMATON_CAPACITY],
        initial: bytes[AUTOMATON_INITIAL],
        classes,
        accepting,
        next,
    }
}

pub fn automaton_bytes(a: Automaton) -> [u8; AUTOMATON_SIZE]
    ensures { result ≡ automaton_bytes a }
{
    let mut bytes = [0u8; AUTOMATON_SIZE];
    bytes[AUTOMATON_STATES] = a.states;
    bytes[AUTOMATON_SYMBOLS] = a.symbols;
    bytes[AUTOMATON_CAPACITY] = a.capacity;
    bytes[AUTOMATON_INITIAL] = a.initial;
    copy(&a.classes, 0, MAX_SYMBOLS, &mut bytes, AUTOMATON_CLASSES);
    copy(&a.accepting, 0, MAX_STATES, &mut bytes, AUTOMATON_ACCEPTING);
    copy(&a.next, 0, MAX_NEXT, &mut bytes, AUTOMATON_NEXT);
    bytes
}

pub fn configuration_of(bytes: &[u8; CONFIGURATION_SIZE]) -> Configuration
    ensures { result ≡ configuration_of bytes.now }
{
    let mut buffer = [0u8; MAX_CAPACITY];
    copy(bytes, CONFIGURATION_BUFFER, MAX_CAPACITY, &mut buffer, 0);
    let places = held_places(bytes);
    Configuration {
        state: bytes[CONFIGURATION_STATE],
        held: bytes[CONFIGURATION_HELD],
        buffer,
        places,
        received: InputPlace(place_at(bytes, CONFIGURATION_RECEIVED)),
        emitted: OutputPlace(place_at(bytes, CONFIGURATION_EMITTED)),
    }
}

pub fn configuration_bytes(c: Configuration) -> [u8; CONFIGURATION_SIZE]
    ensures { result ≡ configuration_bytes c }
{
    let mut bytes = [0u8; CONFIGURATION_SIZE];
    bytes[CONFIGURATION_STATE] = c.state;
    bytes[CONFIGURATION_HELD] = c.held;
    copy(&c.buffer, 0, MAX_CAPACITY, &mut bytes, CONFIGURATION_BUFFER);
    lay_places(&c.places, &mut bytes, CONFIGURATION_PLACES);
    let received = place_bytes(c.received.0);
    copy(&received, 0, PLACE_SIZE, &mut bytes, CONFIGURATION_RECEIVED);
    let emitted = place_bytes(c.emitted.0);
    copy(&emitted, 0, PLACE_SIZE, &mut bytes, CONFIGURATION_EMITTED);
    bytes
}

// The expected serial: 0 where none is expected, whatever stands behind it; else its two bytes.
pub fn expected_of(bytes: [u8; EXPECTED_SIZE]) -> Expected
    ensures { result ≡ expected_of bytes }
{
    if bytes[EXPECTED_KNOWN] == 0 {
        return Expected::Any;
    }
    Expected::Serial(u16::from_le_bytes([bytes[EXPECTED_SERIAL], bytes[EXPECTED_SERIAL + 1]]))
}

fn expected_bytes(x: Expected) -> [u8; EXPECTED_SIZE]
    ensures { result ≡ expected_bytes x }
{
    match x {
        Expected::Any => [0, 0, 0],
        Expected::Serial(s) => {
            let [low, high] = s.to_le_bytes();
            [1, low, high]
        }
    }
}

// Lays an expected serial into lent bytes. Where they say it already, they stay as they are.
pub fn lay_expected(x: Expected, bytes: &mut [u8; EXPECTED_SIZE])
    ensures { bytes.new ≡ expected_laid x bytes.old }
{
    if expected_of(*bytes) != x {
        *bytes = expected_bytes(x);
    }
}
