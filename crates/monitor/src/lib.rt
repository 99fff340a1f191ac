#![tactic(auto)]

// The enforcement monitor's calls over a lent table: whether a configuration is winning, and one
// event. (The call of a whole day is crate `monitor_day`.)
ghost use Rattle.std.specs.Prelude.{◌≡◌, true, false, cond, eqb};
ghost use Rattle.monitor_answers.specs.Answers.{status, received, refused_event};

use automaton::Automaton;
use configuration::Configuration;
use configuration_check::consistent;
use configuration_places::InputPlace;
use monitor_answers::{Received, Status};
use monitor_entry::enter;
use monitor_loop::{Limits, turn};
use monitor_places::places_from;
use monitor_release::rests;

fn refused_status(refusal: u8) -> Status
    ensures { result ≡ record { refusal = refusal; winning = false } }
{
    let winning = false;
    Status { refusal, winning }
}

// Whether a configuration is winning (document 01's guarded): the monitor may rest where it is.
pub fn winning(a: &Automaton, table: &[u32], c: Configuration) -> Status
    ensures { result ≡ status a.now table.now c }
{
    let entry = enter(a, table);
    if entry.refusal != 0 {
        return refused_status(entry.refusal);
    }
    if !consistent(a.states, a.symbols, a.capacity, &a.classes, c) {
        return refused_status(13);
    }
    let ranking = entry.ranking;
    let buffer = c.buffer;
    Status {
        refusal: 0,
        winning: rests(
            &ranking.ranks,
            ranking.count,
            table,
            usize::from(c.state),
            buffer,
            usize::from(c.held),
        ),
    }
}

// A refused event.
pub fn refused(row: u8, c: Configuration) -> Received
    ensures { result ≡ refused_event row c }
{
    Received {
        refusal: row,
        configuration: c,
        emitted: [0u8; 7],
        count: 0,
        winning: false,
        places: [InputPlace(0); 7],
    }
}

// Where a newcomer's place stands in line: first where it passes, behind those that are held where
// it is controllable (a ranked symbol).
fn index_in_line(rank: u8, held: usize) -> usize
    ensures { result ≡ cond (eqb rank 0) 0 held }
{
    if rank == 0 {
        return 0;
    }
    held
}

// One event: a turn into an array of its own, whether the monitor may then rest, and where each
// symbol came from.
pub fn receive(a: &Automaton, table: &[u32], c: Configuration, event: u32) -> Received
    ensures { result ≡ received a.now table.now c event }
{
    let entry = enter(a, table);
    if entry.refusal != 0 {
        return refused(entry.refusal, c);
    }
    let ranking = entry.ranking;
    let limits = Limits {
        controllables: ranking.count,
        states: a.states,
        symbols: a.symbols,
        capacity: a.capacity,
    };
    let mut emitted = [0u8; 7];
    let turned = turn(
        limits,
        &a.classes,
        &a.next,
        &ranking.ranks,
        table,
        c,
        event,
        &mut emitted,
        0,
    );
    if turned.row != 0 {
        return refused(turned.row, c);
    }
    let places = c.places;
    let own = index_in_line(ranking.ranks[event as usize], usize::from(c.held));
    let from = places_from(places, own, c.received, 0, turned.written);
    let after = turned.configuration;
    let buffer = after.buffer;
    Received {
        refusal: 0,
        configuration: after,
        emitted,
        count: turned.written as u8,
        winning: rests(
            &ranking.ranks,
            ranking.count,
            table,
            usize::from(after.state),
            buffer,
            usize::from(after.held),
        ),
        places: from,
    }
}
