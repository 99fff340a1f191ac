#![tactic(auto)]

// The second judge: both questions of the game, for small automata.
mod limits;

ghost use Rattle.std.specs.Prelude.{◌≡◌};
ghost use Rattle.game.specs.Game.{answered, refused, verdict};
ghost use Rattle.refusal.specs.Numbers.{by_number};

use automaton::Automaton;
use configuration::Configuration;
use game::{Verdict, can_rest, may_rest};
use limits::too_large;
use refusal::Refusal;

// Both questions, asked with as many rounds as there are states.
pub fn judge(a: &Automaton, c: Configuration) -> Result<Verdict, Refusal>
    ensures { by_number answered refused result ≡ verdict a.now c }
{
    if !automaton_check::valid(a) {
        return Err(Refusal::BrokenAutomaton);
    }
    if !configuration_check::consistent(a.states, a.symbols, a.capacity, &a.classes, c) {
        return Err(Refusal::BrokenConfiguration);
    }
    if too_large(a.states, a.symbols, &a.classes, c.held) {
        return Err(Refusal::TooLarge);
    }
    let n = usize::from(a.states);
    let m = usize::from(a.symbols);
    let held = usize::from(c.held);
    let q = usize::from(c.state);
    let next = &a.next;
    let classes = &a.classes;
    let accepting = &a.accepting;
    let buffer = &c.buffer;
    Ok(Verdict {
        may_rest: may_rest(next, classes, accepting, buffer, n, m, held, 0, q, n),
        can_rest: can_rest(next, classes, accepting, buffer, n, m, held, 0, q, n),
    })
}
