#![tactic(auto)]

// Events in turn, over the lent parts of an automaton that row 11 let pass and a table that row 12
// let pass: one event for any configuration, and the loop over a list of events.
ghost use Rattle.std.specs.Prelude.{◌≡◌, not, ◌&&◌, ℕ, ◌+◌, ◌*◌, ◌≤◌, ◌<◌, eqb, length, get_or};
ghost use Rattle.base.specs.Masks.{has};
ghost use Rattle.configuration_places.specs.Places.{input_place, input_number};
ghost use Rattle.monitor_loop.specs.Lending.{TurnRequires, ProcessRequires, Turns, Runs, derived};
ghost use Rattle.monitor_loop.specs.Quiet.{quiet_after};

use base::{bit, has};
use configuration::Configuration;
use configuration_check::consistent;
use configuration_places::{InputPlace, OutputPlace};
use monitor_answers::{Ran, Turned};
use monitor_places::places_after;
use monitor_step::{early_row, overflow, step};

// How many symbols of an automaton are controllable, and the numbers that an event is held to.
#[derive(Clone, Copy)]
pub struct Limits {
    pub controllables: u32,
    pub states: u8,
    pub symbols: u8,
    pub capacity: u8,
}

// A configuration whose output count is worked out: what came in and is not held went out.
pub fn derive(
    state: u8,
    held: u8,
    buffer: [u8; 6],
    places: [InputPlace; 6],
    received: InputPlace,
) -> Configuration
    requires { held ≤ input_number received }
    ensures { result ≡ derived state held buffer places received }
{
    Configuration {
        state,
        held,
        buffer,
        places,
        received,
        emitted: OutputPlace(received.0 - u32::from(held)),
    }
}

// The input count after one more accepted event.
pub fn counted(received: InputPlace) -> InputPlace
    requires { input_number received ≡ 4294967295 → ⊥ }
    ensures { result ≡ input_place (input_number received + 1) }
{
    InputPlace(received.0 + 1)
}

// The set of all states.
const ALL_STATES: u32 = 4294967295;

// A state is quiet while the buffer, as it stands, releases nothing from it. Whether an event is
// uncontrollable and leads to a state of a set of quiet ones.
fn leads_to_quiet<'a>(
    next: &'a [u8; 512],
    ranks: &'a [u8; 16],
    quiet: u32,
    state: usize,
    event: usize,
) -> bool
    requires { (state < 32) × (event < 16) × ((i : ℕ) → get_or next.now i 0 < 32) }
    ensures { let there = get_or next.now (state * 16 + event) 0 in
        result ≡ eqb (get_or ranks.now event 0) 0 && has quiet there }
{
    if ranks[event] != 0 {
        return false;
    }
    has(quiet, usize::from(next[state * 16 + event]))
}

// The states known to be quiet after a step, by how many were held before it, the state that it
// led to, how many are held then and how many were released: all where nothing is held; that state
// beside those known before where the buffer is as before; else none.
fn quiet_after(quiet: u32, before: usize, state: usize, held: usize, released: usize) -> u32
    requires { state < 32 }
    ensures { result ≡ quiet_after quiet before state held released }
{
    if held == 0 {
        return ALL_STATES;
    }
    if 0 < released {
        return 0;
    }
    if before < held {
        return 0;
    }
    quiet | bit(state)
}

// Whether an event's row before any search refuses it: not where the buffer is full, which it may
// yet open.
pub fn refuses(row: u8) -> bool
    ensures { result ≡ not (eqb row 0) && not (eqb row 15) }
{
    if row == 0 {
        return false;
    }
    row != 15
}

// The events in turn; those that are refused are passed over and counted. An uncontrollable event
// that leads to a state known to be quiet is written, counted and moves the state, no more; a
// controllable one at a full buffer goes by `overflow`, any other by `step`. The output count is
// worked out at the end.
pub fn process<'a>(
    limits: Limits,
    next: &'a [u8; 512],
    ranks: &'a [u8; 16],
    table: &[u32],
    c: Configuration,
    events: &[u32],
    out: &mut [u8],
) -> Ran
    requires { ProcessRequires limits next.now ranks.now table.now c
        × (length events.now + c.held ≤ length out.old) }
    ensures { let t = table.now in
        Runs limits next.now ranks.now t c events.now out.old result out.new }
{
    let own = *ranks;
    let mut state = usize::from(c.state);
    let mut held = usize::from(c.held);
    let mut buffer = c.buffer;
    let mut places = c.places;
    let mut received = c.received;
    let mut quiet: u32 = 0;
    let mut written: usize = 0;
    let mut refused: usize = 0;
    for &event in events {
        let row = early_row(
            &own,
            limits.symbols,
            usize::from(limits.capacity),
            held,
            received,
            event,
        );
        if refuses(row) {
            refused += 1;
            continue;
        }
        if leads_to_quiet(next, &own, quiet, state, event as usize) {
            out[written] = event as u8;
            state = usize::from(next[state * 16 + event as usize]);
            received = counted(received);
            written += 1;
            continue;
        }
        let after = if row == 15 {
            overflow(
                next,
                &own,
                limits.controllables,
                table,
                state,
                buffer,
                held,
                received,
                event as u8,
                out,
                written,
            )
        } else {
            step(
                next,
                &own,
                limits.controllables,
                table,
                state,
                buffer,
                held,
                event as u8,
                out,
                written,
            )
        };
        if after.row != 0 {
            refused += 1; // 15 or 23, after the search
            continue;
        }
        let kept = places_after(places, held, received, after.released, after.held);
        quiet = quiet_after(quiet, held, after.state, after.held, after.released);
        let left = after.buffer;
        state = after.state;
        held = after.held;
        buffer = left;
        places = kept;
        received = counted(received);
        written = after.written;
    }
    Ran {
        refusal: 0,
        configuration: derive(state as u8, held as u8, buffer, places, received),
        length: written,
        refused,
    }
}

// One event for any configuration: rows 13 to 15 and 23, and what an accepted one leaves, which is
// written from a place on. (After row 13 `clients_entry::take` does the same: as one function it
// would not be inlined there.)
pub fn turn<'a>(
    limits: Limits,
    classes: &'a [u8; 16],
    next: &'a [u8; 512],
    ranks: &'a [u8; 16],
    table: &[u32],
    c: Configuration,
    event: u32,
    out: &mut [u8],
    at: usize,
) -> Turned
    requires { TurnRequires limits classes.now next.now ranks.now table.now c at (length out.old) }
    ensures { let t = table.now in
        Turns limits classes.now next.now ranks.now t c event at out.old result
        out.new }
{
    if !consistent(limits.states, limits.symbols, limits.capacity, classes, c) {
        return Turned {
            row: 13,
            configuration: c,
            written: at,
        };
    }
    let held = usize::from(c.held);
    let row = early_row(
        ranks,
        limits.symbols,
        usize::from(limits.capacity),
        held,
        c.received,
        event,
    );
    if refuses(row) {
        return Turned {
            row,
            configuration: c,
            written: at,
        };
    }
    let buffer = c.buffer;
    let after = if row == 15 {
        overflow(
            next,
            ranks,
            limits.controllables,
            table,
            usize::from(c.state),
            buffer,
            held,
            c.received,
            event as u8,
            out,
            at,
        )
    } else {
        step(
            next,
            ranks,
            limits.controllables,
            table,
            usize::from(c.state),
            buffer,
            held,
            event as u8,
            out,
            at,
        )
    };
    if after.row != 0 {
        return Turned {
            row: after.row,
            configuration: c,
            written: at,
        };
    }
    let held_places = c.places;
    let places = places_after(held_places, held, c.received, after.released, after.held);
    let left = after.buffer;
    let received = counted(c.received);
    Turned {
        row: 0,
        configuration: derive(after.state as u8, after.held as u8, left, places, received),
        written: after.written,
    }
}
