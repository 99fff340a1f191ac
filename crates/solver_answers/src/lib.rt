#![tactic(auto)]

// The winning sets: what solving and counting answer is defined in specs/, and what holds of it is
// proved here. The buffers are counted here; the crate `solver` writes the sets into a lent table.
ghost use Rattle.std.specs.Prelude.{◌≡◌, ◌+◌, ◌≤◌};
ghost use Rattle.refusal.specs.Numbers.{by_number};
ghost use Rattle.solver_sets.specs.Table.{shorter};
ghost use Rattle.solver_answers.specs.Solving.{counted, count_refused, count_answer};

use automaton::Automaton;
use automaton_check::valid;
use automaton_symbols::controllable_in;
use refusal::Refusal;

// How many buffers there are of at most `capacity` events, for k symbols.
pub fn buffers_to(k: usize, capacity: usize) -> usize
    requires { (k ≤ 8) × (capacity ≤ 6) }
    ensures { result ≡ shorter k (capacity + 1) }
{
    let mut sum: usize = 1;
    let mut count: usize = 1;
    for _length in 0..capacity {
        count = count * k;
        sum = sum + count;
    }
    sum
}

// How many buffers an automaton has.
pub fn buffers_count(a: &Automaton) -> Result<u32, Refusal>
    ensures { by_number counted count_refused result ≡ count_answer a.now }
{
    if !valid(a) {
        return Err(Refusal::BrokenAutomaton);
    }
    let k = controllable_in(&a.classes, usize::from(a.symbols));
    let count = buffers_to(k, usize::from(a.capacity));
    Ok(count as u32)
}
