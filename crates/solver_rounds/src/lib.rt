#![tactic(auto)]

// The largest set in which the monitor may rest, by rounds of refinement, and what the rounds
// begin with: the accepting states, and the states that a symbol takes into a set. The arrays are
// lent: `next` is the automaton's, of n states, and `free` has the u uncontrollable symbols, so
// that a round looks at no others. They are passed one by one, not in a struct: the length of an
// array behind a struct's field is not known in a proof, and `stays` needs it.
ghost use Rattle.std.specs.Prelude.{◌≡◌, ◌^◌, ◌<◌, ◌≤◌, ℕ, Bool};
ghost use Rattle.base.specs.Masks.{mask};
ghost use Rattle.automaton.specs.Arrays.{accepting_at};
ghost use Rattle.solver_rounds.specs.Rounds.{Below, RefineRequires, leads, left_of, settled_on, predecessors};

use base::{bit, has};
use solver_sets::Settled;

// One round (document 01's striking): what is left of `set` when each state is taken out of which
// a symbol leads neither into `set`, as it stood when the round began, nor into `intermediate`.
fn refine(next: &[u8; 512], free: &[u8; 16], n: usize, u: usize, intermediate: u32, set: u32) -> u32
    requires { RefineRequires next.now free.now n u × (set < 2 ^ n) }
    ensures { result ≡ left_of next.now free.now n u intermediate set }
{
    let mut left = set;
    for q in 0..n {
        if has(set, q) {
            let safe = set | intermediate;
            let mut stays = true;
            'scan: for k in 0..u {
                if !has(safe, usize::from(next[q * 16 + usize::from(free[k])])) {
                    stays = false;
                    break 'scan;
                }
            }
            if !stays {
                left = left - bit(q);
            }
        }
    }
    left
}

// Rounds until one takes nothing out, and how many took a state out.
pub fn settle(
    next: &[u8; 512],
    free: &[u8; 16],
    n: usize,
    u: usize,
    intermediate: u32,
    from: u32,
) -> Settled
    requires { RefineRequires next.now free.now n u × (from < 2 ^ n) }
    ensures { result ≡ settled_on next.now free.now n u intermediate from }
{
    let mut set = from;
    let mut rounds: u32 = 0;
    // How many rounds there are is known at the end alone.
    loop {
        let left = refine(next, free, n, u, intermediate, set);
        if left == set {
            break Settled { set, rounds };
        }
        set = left;
        rounds = rounds + 1;
    }
}

// The states below n of which a test holds, as a set.
fn states_where<F: Fn(usize) -> bool>(n: usize, test: F) -> u32
    requires { (n ≤ 32) × ((q : ℕ) → q < n → F.pre test q) }
    ensures { (p : ℕ → Bool) → ((q : ℕ) (r : Bool) → q < n → F.post test q r → r ≡ p q) → result ≡ mask n p }
{
    let mut set: u32 = 0;
    for q in 0..n {
        if test(q) {
            set = set + bit(q);
        }
    }
    set
}

// The accepting states as a set.
pub fn accepting_states(flags: &[u8; 32], n: usize) -> u32
    requires { n ≤ 32 }
    ensures { result ≡ mask n (accepting_at flags.now) }
{
    states_where(n, |q| flags[q] == 1)
}

// The states that a symbol takes into a set.
pub fn predecessors(next: &[u8; 512], n: usize, symbol: usize, goal: u32) -> u32
    requires { (n ≤ 32) × Below 32 next.now × (symbol < 16) }
    ensures { result ≡ predecessors next.now n symbol goal }
{
    states_where(n, |q| has(goal, usize::from(next[q * 16 + symbol])))
}
