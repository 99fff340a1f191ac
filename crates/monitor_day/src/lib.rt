#![tactic(auto)]

// A whole day: a list of events from a configuration on. The record, the table and the
// configuration are checked once.
ghost use Rattle.std.specs.Prelude.{◌≡◌};
ghost use Rattle.monitor_answers.specs.Answers.{refused_run, ran, ran_buffer};

use automaton::Automaton;
use configuration::Configuration;
use configuration_check::consistent;
use monitor_answers::Ran;
use monitor_entry::enter;
use monitor_loop::{Limits, process};

fn refused_run(row: u8, c: Configuration) -> Ran
    ensures { result ≡ refused_run row c }
{
    Ran {
        refusal: row,
        configuration: c,
        length: 0,
        refused: 0,
    }
}

pub fn run(a: &Automaton, table: &[u32], c: Configuration, events: &[u32], out: &mut [u8]) -> Ran
    ensures { (result ≡ ran a.now table.now c events.now out.old)
        × (out.new ≡ ran_buffer a.now table.now c events.now out.old) }
{
    let entry = enter(a, table);
    if entry.refusal != 0 {
        return refused_run(entry.refusal, c);
    }
    if !consistent(a.states, a.symbols, a.capacity, &a.classes, c) {
        return refused_run(13, c);
    }
    let held = usize::from(c.held);
    if out.len() < held {
        return refused_run(16, c);
    }
    if out.len() - held < events.len() {
        return refused_run(16, c);
    }
    let ranking = entry.ranking;
    let limits = Limits {
        controllables: ranking.count,
        states: a.states,
        symbols: a.symbols,
        capacity: a.capacity,
    };
    // A copy, in which no byte that is stored can lie.
    let next = a.next;
    process(limits, &next, &ranking.ranks, table, c, events, out)
}
