#![tactic(auto)]

// How places in the input and in the output lie in the bytes that a caller lends: four bytes each,
// low byte first.
ghost use Rattle.std.specs.Prelude.{◌≡◌, map, ◌+◌, ◌*◌, ◌≤◌, length};
ghost use Rattle.std.proofs.lemmas.List.Edits.{sets};
ghost use Rattle.configuration_places.specs.Places.{input_place, input_number};
ghost use Rattle.c_layout.specs.Offsets.{place_size, max_capacity, configuration_places};
ghost use Rattle.c_layout.specs.Layout.{part, number_of, number_bytes, places_of, places_bytes};

use base::copy;
use c_layout::{CONFIGURATION_PLACES, CONFIGURATION_SIZE, MAX_CAPACITY, MAX_EMITTED, PLACE_SIZE};
use configuration_places::InputPlace;

// How many bytes the places of what is held take, and of what is emitted.
pub const HELD_SIZE: usize = MAX_CAPACITY * PLACE_SIZE;

pub const EMITTED_SIZE: usize = MAX_EMITTED * PLACE_SIZE;

pub fn place_bytes(value: u32) -> [u8; PLACE_SIZE]
    ensures { result ≡ number_bytes place_size value }
{
    value.to_le_bytes()
}

fn lay_place(value: u32, bytes: &mut [u8], at: usize)
    requires { at + place_size ≤ length bytes.old }
    ensures { bytes.new ≡ sets bytes.old at (number_bytes place_size value) }
{
    let place = place_bytes(value);
    copy(&place, 0, PLACE_SIZE, bytes, at);
}

// Lays places one behind the other, from a place of the bytes on.
pub fn lay_places(places: &[InputPlace], bytes: &mut [u8], at: usize)
    requires { at + length places.now * place_size ≤ length bytes.old }
    ensures { bytes.new ≡ sets bytes.old at (places_bytes (map input_number places.now)) }
{
    for (i, place) in places.iter().enumerate() {
        lay_place(place.0, bytes, at + i * PLACE_SIZE);
    }
}

// The number that lies from a place of the bytes on.
pub fn place_at(bytes: &[u8], at: usize) -> u32
    requires { at + place_size ≤ length bytes.now }
    ensures { result ≡ number_of (part at place_size bytes.now) }
{
    u32::from_le_bytes([bytes[at], bytes[at + 1], bytes[at + 2], bytes[at + 3]])
}

// The places of what is held, out of a configuration's bytes.
pub fn held_places(bytes: &[u8; CONFIGURATION_SIZE]) -> [InputPlace; MAX_CAPACITY]
    ensures { result ≡ map input_place (places_of max_capacity configuration_places bytes.now) }
{
    let mut places = [InputPlace(0); MAX_CAPACITY];
    for i in 0..MAX_CAPACITY {
        let number = place_at(bytes, CONFIGURATION_PLACES + i * PLACE_SIZE);
        places[i] = InputPlace(number);
    }
    places
}
