#![tactic(auto)]

// Row 13: the configuration is one of the automaton, of which only what the row reads is passed.
// No loop is left early, so that each is vectorised.
ghost use Rattle.std.specs.Prelude.{◌≡◌, cond, ◌&&◌, ◌||◌, map, ◌+◌, ◌-◌, ◌<◌, eqb, ltb, length, get_or};
ghost use Rattle.configuration_places.specs.Places.{input_number, output_number};
ghost use Rattle.configuration.specs.Configuration.{controllable_symbol, place_stands, consistent_in, buffer_stands};
ghost use Rattle.configuration.specs.Configuration.{inputs_stand};

use configuration::Configuration;
use configuration_places::{InputPlace, OutputPlace};

// The class at a place; 0 where there is none.
fn class_at(classes: &[u8], e: usize) -> u8
    ensures { result ≡ get_or classes.now e 0 }
{
    classes.get(e).copied().unwrap_or(0)
}

fn controllable_symbol(symbols: u8, classes: &[u8; 16], e: u8) -> bool
    ensures { result ≡ controllable_symbol symbols classes.now e }
{
    if symbols <= e {
        return false;
    }
    class_at(classes, usize::from(e)) == 1
}

// A place of the buffer: a controllable symbol where it is used, else 0.
fn place_stands(symbols: u8, classes: &[u8; 16], used: bool, e: u8) -> bool
    ensures { result ≡ place_stands symbols classes.now used e }
{
    if used {
        return controllable_symbol(symbols, classes, e);
    }
    e == 0
}

fn buffer_stands<'a>(symbols: u8, classes: &'a [u8; 16], held: usize, buffer: &'a [u8; 6]) -> bool
    ensures { result ≡ buffer_stands symbols classes.now held buffer.now }
{
    let mut fine = true;
    for (i, &e) in buffer.iter().enumerate() {
        if !place_stands(symbols, classes, i < held, e) {
            fine = false;
        }
    }
    fine
}

// Whether the place in the input of a held event lies above that of the one held before it.
fn rises(places: [InputPlace; 6], i: usize) -> bool
    requires { i < 6 }
    ensures { let numbers = map input_number places in
        result ≡ eqb i 0 || ltb (get_or numbers (i - 1) 0) (get_or numbers i 0) }
{
    if i == 0 {
        return true;
    }
    places[i - 1] < places[i]
}

// A place in the input: where it is used, above the one before it and below the input count; else
// 0.
fn input_stands(used: bool, rises: bool, place: InputPlace, received: InputPlace) -> bool
    ensures { let n = input_number place in
        result ≡ cond used (rises && ltb n (input_number received)) (eqb n 0) }
{
    if !used {
        return place.0 == 0;
    }
    if !rises {
        return false;
    }
    place < received
}

// The places in the input: rising below the input count where they are used, else 0. (That there
// are six is said for `consistent`, which has them in a struct.)
fn inputs_stand(places: [InputPlace; 6], held: usize, received: InputPlace) -> bool
    ensures { (result ≡ inputs_stand held (input_number received) (map input_number places)) × (length places ≡ 6) }
{
    let mut fine = true;
    for (i, &place) in places.iter().enumerate() {
        if !input_stands(i < held, rises(places, i), place, received) {
            fine = false;
        }
    }
    fine
}

// The output count with the held events is the input count. (They are not added up, since the sum
// may need more than 32 bits.)
fn counts_fit(emitted: OutputPlace, held: u32, received: InputPlace) -> bool
    ensures { result ≡ eqb (output_number emitted + held) (input_number received) }
{
    if received.0 < held {
        return false;
    }
    received.0 - held == emitted.0
}

pub fn consistent(
    states: u8,
    symbols: u8,
    capacity: u8,
    classes: &[u8; 16],
    c: Configuration,
) -> bool
    ensures { result ≡ consistent_in states symbols capacity classes.now c }
{
    if states <= c.state {
        return false;
    }
    if capacity < c.held {
        return false;
    }
    if !counts_fit(c.emitted, u32::from(c.held), c.received) {
        return false;
    }
    let held = usize::from(c.held);
    let places = c.places;
    if !inputs_stand(places, held, c.received) {
        return false;
    }
    buffer_stands(symbols, classes, held, &c.buffer)
}
