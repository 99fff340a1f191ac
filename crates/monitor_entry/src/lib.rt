#![tactic(auto)]

// Rows 11 and 12, which every call on a record and a table checks first. (Row 13 is crate
// `configuration_check`.)
ghost use Rattle.std.specs.Prelude.{◌≡◌};
ghost use Rattle.monitor_entry.specs.Entries.{entry_of};

use automaton::Automaton;
use automaton_check::valid;
use automaton_symbols::{Ranking, rank_symbols};

// The refusing row of 11 and 12 (0: none), and the ranking of the symbols of a valid record.
#[derive(Clone, Copy)]
pub struct Entry {
    pub refusal: u8,
    pub ranking: Ranking,
}

// Rows 11 and 12.
pub fn enter(a: &Automaton, table: &[u32]) -> Entry
    ensures { result ≡ entry_of a.now table.now }
{
    if !valid(a) {
        return Entry {
            refusal: 11,
            ranking: Ranking {
                count: 0,
                ranks: [0u8; 16],
            },
        };
    }
    let ranking = rank_symbols(&a.classes, usize::from(a.symbols));
    let buffers = solver_answers::buffers_to(ranking.count as usize, usize::from(a.capacity));
    if table.len() < 2 * buffers {
        return Entry {
            refusal: 12,
            ranking,
        };
    }
    Entry {
        refusal: 0,
        ranking,
    }
}
