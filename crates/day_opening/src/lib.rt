#![tactic(auto)]

// The beginning of a day's input: row 18, the number L and L bytes of sheet, the table.
ghost use Rattle.std.specs.Prelude.{◌≡◌, true, length};
ghost use Rattle.automaton.specs.Automaton.{valid};
ghost use Rattle.solver_answers.specs.Solving.{solved_table};
ghost use Rattle.day_transcript.specs.Transcript.{transcript};
ghost use Rattle.day_transcript.specs.Pieces.{to_come, table_after, opened, without};

use automaton::Automaton;
use day_transcript::{Phase, Progress, Session};
use refusal::Refusal;

// A phase in which no session is looked at: an all-zero one.
fn without(phase: Phase) -> Progress
    ensures { result ≡ without phase }
{
    Progress {
        phase,
        session: Session {
            automaton: automaton::blank(),
            configuration: configuration::empty(0),
            place: 0,
            accepted: 0,
            refused: 0,
        },
    }
}

// Solves an automaton whose events begin at a place; row 12 where its table is longer than the
// lent one.
fn opened(a: Automaton, place: usize, table: &mut [u32; 16384]) -> Progress
    requires { valid a ≡ true }
    ensures value { (result ≡ opened a place) × (table.new ≡ solved_table a table.old) }
    ensures table_len { length table.old ≡ 16384 }
{
    if let Err(refusal) = solver::solve(&a, table) {
        return without(Phase::Refused(u8::from(refusal)));
    }
    let configuration = configuration::empty(a.initial);
    Progress {
        phase: Phase::Opening,
        session: Session {
            automaton: a,
            configuration,
            place,
            accepted: 0,
            refused: 0,
        },
    }
}

// The most bytes of a day's input.
const MAX_INPUT: usize = 60000;

pub fn begin(input: &[u8], table: &mut [u32; 16384]) -> Progress
    ensures result_after { to_come table.new input.now result ≡ transcript input.now }
    ensures table_after { table.new ≡ table_after input.now table.old }
{
    if MAX_INPUT < input.len() {
        return without(Phase::Refused(u8::from(Refusal::LongInput)));
    }
    match automaton_opening::read(input) {
        Ok(opening) => opened(opening.automaton, opening.place, table),
        Err(fault) => without(Phase::Faulted(u8::from(fault.refusal), fault.place)),
    }
}
