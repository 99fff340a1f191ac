#![tactic(auto)]

// The calls over a list of clients as far as they need no list: rows 11, 12 and 20, what a
// configuration holds for row 16 and its mark for row 13, and one event for one configuration, by
// value.
ghost use Rattle.std.specs.Prelude.{◌≡◌, ◌+◌, ◌<◌, ltb, length, set};
ghost use Rattle.clients_answers.specs.Clients.{max_clients, right_count, answer_of, refused_for, refused_run_for};
ghost use Rattle.clients_entry.specs.Entries.{count_row, list_entry_of, held_in_by, mark_by, event_of};
ghost use Rattle.clients_entry.specs.Entries.{TakeRequires, Taking, present_of, absent_of};

use automaton::Automaton;
use clients_answers::{RanFor, ReceivedFor};
use configuration::Configuration;
use configuration_check::consistent;
use configuration_places::InputPlace;
use monitor::receive;
use monitor_answers::Received;
use monitor_entry::enter;
use monitor_loop::{Limits, counted, derive, refuses};
use monitor_places::places_after;
use monitor_step::{early_row, overflow, step};

// The most clients of a list.
pub const MAX_CLIENTS: usize = 500;

// The refusing row of 11, 12 and 20 (0: none), and what an event reads beside the automaton's
// arrays.
#[derive(Clone, Copy)]
pub struct ListEntry {
    pub refusal: u8,
    pub limits: Limits,
    pub ranks: [u8; 16],
}

// What one event of a day leaves: its client's configuration, the place after what was written,
// and 1 where it was refused.
#[derive(Clone, Copy)]
pub struct Taken {
    pub configuration: Configuration,
    pub written: usize,
    pub refused: usize,
}

// From one client to the most: row 20 lets the list pass.
fn right_count(count: usize) -> bool
    ensures { result ≡ right_count count }
{
    0 < count && count <= MAX_CLIENTS
}

// Row 20 after another row (0: none).
fn count_row(row: u8, count: usize) -> u8
    ensures { result ≡ count_row row count }
{
    if row == 0 && !right_count(count) {
        return 20;
    }
    row
}

// Rows 11, 12 and 20.
pub fn enter_list(a: &Automaton, table: &[u32], count: usize) -> ListEntry
    ensures { result ≡ list_entry_of a.now table.now count }
{
    let entry = enter(a, table);
    let ranking = entry.ranking;
    let ranks = ranking.ranks;
    ListEntry {
        refusal: count_row(entry.refusal, count),
        limits: Limits {
            controllables: ranking.count,
            states: a.states,
            symbols: a.symbols,
            capacity: a.capacity,
        },
        ranks,
    }
}

// How many events a client's configuration holds for row 16: none where row 13 refuses it. Its
// mark, 1 where row 13 lets it pass and 0 where not, is stored at the client's place.
pub fn held_in(
    limits: Limits,
    classes: &[u8; 16],
    c: Configuration,
    marks: &mut [u8; MAX_CLIENTS],
    client: usize,
) -> usize
    requires { client < max_clients }
    ensures { let lent = classes.now in
        (result ≡ held_in_by limits lent c) × (marks.new ≡ set marks.old client (mark_by limits lent c))
        × (result < 256) }
{
    if !consistent(limits.states, limits.symbols, limits.capacity, classes, c) {
        marks[client] = 0;
        return 0;
    }
    marks[client] = 1;
    usize::from(c.held)
}

// A refused event of a day.
fn passed_over(c: Configuration, at: usize) -> Taken
    ensures { result ≡ record { configuration = c; written = at; refused = 1 } }
{
    Taken {
        configuration: c,
        written: at,
        refused: 1,
    }
}

// One event of a day, for any client's configuration: row 13 by its mark, rows 14, 15 and 23, and
// what an accepted event leaves, which is written from a place on. (The step is inlined here, as
// it is into the loop over one configuration's events and into `monitor_loop::turn`.)
pub fn take<'a>(
    limits: Limits,
    marks: &'a [u8; MAX_CLIENTS],
    client: usize,
    next: &'a [u8; 512],
    ranks: &'a [u8; 16],
    table: &[u32],
    c: Configuration,
    event: u32,
    out: &mut [u8],
    at: usize,
) -> Taken
    requires { TakeRequires limits marks.now client next.now ranks.now table.now c at (length out.old) }
    ensures { let t = table.now in
        Taking limits marks.now client next.now ranks.now t c event at out.old result
        out.new }
{
    if marks[client] == 0 {
        return passed_over(c, at);
    }
    let held = usize::from(c.held);
    let row = early_row(
        ranks,
        limits.symbols,
        usize::from(limits.capacity),
        held,
        c.received,
        event,
    );
    if refuses(row) {
        return passed_over(c, at);
    }
    let buffer = c.buffer;
    let after = if row == 15 {
        overflow(
            next,
            ranks,
            limits.controllables,
            table,
            usize::from(c.state),
            buffer,
            held,
            c.received,
            event as u8,
            out,
            at,
        )
    } else {
        step(
            next,
            ranks,
            limits.controllables,
            table,
            usize::from(c.state),
            buffer,
            held,
            event as u8,
            out,
            at,
        )
    };
    if after.row != 0 {
        return passed_over(c, at);
    }
    let held_places = c.places;
    let places = places_after(held_places, held, c.received, after.released, after.held);
    let left = after.buffer;
    let received = counted(c.received);
    Taken {
        configuration: derive(after.state as u8, after.held as u8, left, places, received),
        written: after.written,
        refused: 0,
    }
}

// An event of a day's list: its client and its symbol.
#[derive(Clone, Copy)]
pub struct Event {
    pub client: usize,
    pub symbol: u32,
}

pub fn split(v: u32) -> Event
    ensures { result ≡ event_of v }
{
    Event {
        client: (v / 65536) as usize,
        symbol: v % 65536,
    }
}

// A refused day's answer.
pub fn refused_run(row: u8) -> RanFor
    ensures { result ≡ refused_run_for row }
{
    RanFor {
        refusal: row,
        length: 0,
        refused: 0,
    }
}

// Row 16: an output of this size has no room for so many events with so many held.
pub fn too_short(size: usize, events: usize, held: usize) -> bool
    ensures { result ≡ ltb size (events + held) }
{
    size < held || size - held < events
}

// One event for a client's configuration, in a list of so many: rows 11, 12 and 20, then as alone.
// (The count is looked at first, since it costs little; where it is wrong, 11 and 12 still come
// before 20.)
pub fn present(a: &Automaton, table: &[u32], count: usize, c: Configuration, event: u32) -> Received
    ensures { result ≡ present_of a.now table.now count c event }
{
    if right_count(count) {
        return receive(a, table, c, event);
    }
    let entry = enter_list(a, table, count);
    monitor::refused(entry.refusal, c)
}

// A refused event's answer.
pub fn refused(row: u8) -> ReceivedFor
    ensures { result ≡ refused_for row }
{
    ReceivedFor {
        refusal: row,
        emitted: [0u8; 7],
        count: 0,
        winning: false,
        places: [InputPlace(0); 7],
    }
}

// One event for a client that a list of so many does not have: rows 11, 12, 20 and 19.
pub fn absent(a: &Automaton, table: &[u32], count: usize) -> ReceivedFor
    ensures { result ≡ absent_of a.now table.now count }
{
    let entry = enter_list(a, table, count);
    if entry.refusal == 0 {
        return refused(19);
    }
    refused(entry.refusal)
}

// The answer without the configuration, which lies in the list.
pub fn answer_of(r: Received) -> ReceivedFor
    ensures { result ≡ answer_of r }
{
    let emitted = r.emitted;
    let places = r.places;
    ReceivedFor {
        refusal: r.refusal,
        emitted,
        count: r.count,
        winning: r.winning,
        places,
    }
}
