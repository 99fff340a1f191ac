#![tactic(auto)]

// A whole day over a lent list of configurations, one for each client. One configuration is read
// for each event, and one stored for each accepted event, above the step by value.
ghost use Rattle.std.specs.Prelude.{◌≡◌, ◌≤◌, length};
ghost use Rattle.std.proofs.lemmas.List.Edits.{sets};
ghost use Rattle.clients_answers.specs.Clients.{max_clients, ran_for, ran_clients, ran_for_buffer};
ghost use Rattle.clients_day.specs.Days.{held_in_all_by, marks_by, DayRequires, Days};

use automaton::Automaton;
use clients_answers::RanFor;
use clients_entry::{
    Event, ListEntry, MAX_CLIENTS, Taken, enter_list, held_in, refused_run, split, take, too_short,
};
use configuration::Configuration;
use monitor_loop::Limits;

// How many events all of them hold for row 16, and the mark of each, which an event reads instead
// of asking row 13.
fn held_in_all<'a>(
    limits: Limits,
    classes: &'a [u8; 16],
    configurations: &[Configuration],
    marks: &mut [u8; MAX_CLIENTS],
) -> usize
    requires { length configurations.now ≤ max_clients }
    ensures { let lent = classes.now in let cs = configurations.now in
        (result ≡ held_in_all_by limits lent cs) × (marks.new ≡ sets marks.old 0 (marks_by limits lent cs)) }
{
    let mut sum: usize = 0;
    for (i, &c) in configurations.iter().enumerate() {
        sum += held_in(limits, classes, c, marks, i);
    }
    sum
}

// A day's events in turn; those that are refused are passed over and counted.
fn process<'a>(
    limits: Limits,
    marks: &'a [u8; MAX_CLIENTS],
    next: &'a [u8; 512],
    ranks: &'a [u8; 16],
    table: &[u32],
    configurations: &mut [Configuration],
    events: &[u32],
    out: &mut [u8],
) -> RanFor
    requires { let t = table.now in
        DayRequires limits marks.now next.now ranks.now t configurations.old events.now (length out.old) }
    ensures { let t = table.now in let vs = events.now in
        Days limits marks.now next.now ranks.now t configurations.old vs
        out.old result configurations.new out.new }
{
    let mut written: usize = 0;
    let mut refused: usize = 0;
    for &number in events {
        let event = split(number);
        let at = event.client;
        if at < configurations.len() {
            let after = take(
                limits,
                marks,
                at,
                next,
                ranks,
                table,
                configurations[at],
                event.symbol,
                out,
                written,
            );
            if after.refused == 0 {
                configurations[at] = after.configuration;
                written = after.written;
            } else {
                refused += 1;
            }
        } else {
            refused += 1;
        }
    }
    RanFor {
        refusal: 0,
        length: written,
        refused,
    }
}

// Rows 11, 12, 20 and 16, then the events.
pub fn run(
    a: &Automaton,
    table: &[u32],
    configurations: &mut [Configuration],
    events: &[u32],
    out: &mut [u8],
) -> RanFor
    ensures { let t = table.now in let cs = configurations.old in let vs = events.now in
        (result ≡ ran_for a.now t cs vs out.old)
        × (configurations.new ≡ ran_clients a.now t cs vs out.old)
        × (out.new ≡ ran_for_buffer a.now t cs vs out.old) }
{
    let entry = enter_list(a, table, configurations.len());
    if entry.refusal != 0 {
        return refused_run(entry.refusal);
    }
    let mut marks = [0u8; MAX_CLIENTS];
    let held = held_in_all(entry.limits, &a.classes, configurations, &mut marks);
    if too_short(out.len(), events.len(), held) {
        return refused_run(16);
    }
    // Copies, in which no byte that is stored can lie.
    let next = a.next;
    let ranks = entry.ranks;
    process(
        entry.limits,
        &marks,
        &next,
        &ranks,
        table,
        configurations,
        events,
        out,
    )
}
