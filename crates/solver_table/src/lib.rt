#![tactic(auto)]

// The table from one length of buffers to the next. The buffers of one length stand side by side,
// two places each, and a symbol put in front of each of them gives buffers of the next length.
// `next`, `free`, n and u are as in crate `solver_rounds`; `empty` is what the rounds of the empty
// buffer gave; 262,144 is 8 to the power of 6, the most buffers of one length.
ghost use Rattle.std.specs.Prelude.{◌≡◌, ◌+◌, ◌*◌, ◌^◌, ◌<◌, ◌≤◌, length};
ghost use Rattle.solver_rounds.specs.Rounds.{RefineRequires, settled_on};
ghost use Rattle.solver_table.specs.Levels.{sets_from, symbol_sets, level_of, SetsStored};

use solver_rounds::{predecessors, settle};
use solver_sets::{Sets, Settled};

// The sets of a buffer that begins with a symbol, where `goal` has the states of either set of
// what follows the symbol.
fn sets_from(
    next: &[u8; 512],
    free: &[u8; 16],
    n: usize,
    u: usize,
    accepting: u32,
    symbol: usize,
    goal: u32,
) -> Sets
    requires { RefineRequires next.now free.now n u × (accepting < 2 ^ n) × (symbol < 16) }
    ensures { result ≡ sets_from next.now free.now n u accepting symbol goal }
{
    let intermediate = predecessors(next, n, symbol, goal);
    let r = settle(next, free, n, u, intermediate, accepting);
    Sets {
        winning: r.set,
        intermediate,
        rounds: r.rounds,
    }
}

// Puts a symbol in front of the `count` buffers that stand from a place on, and writes their sets
// from another place on. Neighbours often have the same goal, so the last one's sets are kept. At
// first these are the sets of goal 0: nothing leads into it, so they are the empty buffer's.
fn fill_symbol(
    next: &[u8; 512],
    free: &[u8; 16],
    n: usize,
    u: usize,
    accepting: u32,
    empty: Settled,
    symbol: usize,
    table: &mut [u32],
    from: usize,
    to: usize,
    count: usize,
) -> u32
    requires { RefineRequires next.now free.now n u × (accepting < 2 ^ n)
        × (empty ≡ settled_on next.now free.now n u 0 accepting)
        × (symbol < 16) × (from + 2 * count ≤ to) × (to + 2 * count ≤ length table.old) × (count ≤ 262144) }
    ensures { let f = sets_from next.now free.now n u accepting in
        SetsStored table.old to (symbol_sets (f symbol) table.old from count) table.new result }
{
    let mut known: u32 = 0;
    let mut last = Sets {
        winning: empty.set,
        intermediate: 0,
        rounds: empty.rounds,
    };
    let mut rounds: u32 = 0;
    for j in 0..count {
        let i = from + 2 * j;
        let goal = table[i] | table[i + 1];
        if goal != known {
            let sets = sets_from(next, free, n, u, accepting, symbol, goal);
            last = sets;
            known = goal;
        }
        let o = to + 2 * j;
        table[o] = last.winning;
        table[o + 1] = last.intermediate;
        rounds = rounds + last.rounds;
    }
    rounds
}

// Writes the sets of the buffers one longer than the `count` ones that stand from a place on,
// behind these: for each controllable symbol in turn.
pub fn fill_level(
    next: &[u8; 512],
    free: &[u8; 16],
    classes: &[u8; 16],
    n: usize,
    m: usize,
    u: usize,
    accepting: u32,
    empty: Settled,
    table: &mut [u32],
    from: usize,
    count: usize,
) -> u32
    requires { let f = sets_from next.now free.now n u accepting in
        RefineRequires next.now free.now n u × (accepting < 2 ^ n)
        × (empty ≡ settled_on next.now free.now n u 0 accepting)
        × (m ≤ 16) × (count ≤ 262144)
        × (from + 2 * count + 2 * length (level_of f classes.now m table.old from count) ≤ length table.old) }
    ensures { let f = sets_from next.now free.now n u accepting in
        let behind = level_of f classes.now m table.old from count in
        SetsStored table.old (from + 2 * count) behind table.new result }
{
    let mut at = from + 2 * count;
    let mut rounds: u32 = 0;
    for e in 0..m {
        if classes[e] == 1 {
            let more = fill_symbol(
                next, free, n, u, accepting, empty, e, table, from, at, count,
            );
            rounds = rounds + more;
            at = at + 2 * count;
        }
    }
    rounds
}
