#![tactic(auto)]

// The solver: the sets S and I of every buffer, written into a lent table.
ghost use Rattle.std.specs.Prelude.{◌≡◌, true, ◌++◌, ◌*◌, ◌≤◌, length, drop};
ghost use Rattle.refusal.specs.Numbers.{by_number};
ghost use Rattle.automaton.specs.Automaton.{valid};
ghost use Rattle.solver_sets.specs.Table.{buffers_count, table as table_of, rounds as rounds_of};
ghost use Rattle.solver_answers.specs.Solving.{solved, solve_refused, solution, solved_table};

use automaton::Automaton;
use automaton_symbols::{controllable_in, uncontrollable};
use refusal::Refusal;
use solver_answers::buffers_count;
use solver_rounds::{accepting_states, settle};
use solver_table::fill_level;

// Writes the sets of every buffer, from the empty one on.
fn fill(a: &Automaton, table: &mut [u32]) -> u32
    requires { (valid a.now ≡ true) × (2 * buffers_count a.now ≤ length table.old) }
    ensures { (table.new ≡ table_of a.now ++ drop (2 * buffers_count a.now) table.old) × (result ≡ rounds_of a.now) }
{
    let n = usize::from(a.states);
    let m = usize::from(a.symbols);
    let capacity = usize::from(a.capacity);
    let k = controllable_in(&a.classes, m);
    let accepting = accepting_states(&a.accepting, n);
    let free = uncontrollable(&a.classes, m);
    let u = free.count;
    let empty = settle(&a.next, &free.list, n, u, 0, accepting);
    table[0] = empty.set;
    table[1] = 0;
    let mut rounds = empty.rounds;
    let mut from: usize = 0;
    let mut count: usize = 1;
    for _length in 0..capacity {
        let more = fill_level(
            &a.next, &free.list, &a.classes, n, m, u, accepting, empty, table, from, count,
        );
        rounds = rounds + more;
        from = from + 2 * count;
        count = count * k;
    }
    rounds
}

// The rounds that struck a state, summed over all buffers.
pub fn solve(a: &Automaton, table: &mut [u32]) -> Result<u32, Refusal>
    ensures { (by_number solved solve_refused result ≡ solution a.now table.old) × (table.new ≡ solved_table a.now table.old) }
{
    let buffers = buffers_count(a)?;
    let places = 2 * buffers as usize;
    if table.len() < places {
        return Err(Refusal::ShortTable);
    }
    Ok(fill(a, table))
}
