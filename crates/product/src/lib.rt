#![tactic(auto)]

// The product of two automata (document 02, Card 6: two sheets, both to be obeyed, merged into
// one). Parts of the records are lent to the inner functions; a pair of states is numbered first
// state × second count + second state.
ghost use Rattle.std.specs.Prelude.{◌≡◌, ◌+◌, ◌<◌, ◌≤◌, length};
ghost use Rattle.std.proofs.lemmas.List.Edits.{sets};
ghost use Rattle.refusal.specs.Numbers.{by_number};
ghost use Rattle.base.specs.Pad.{pad};
ghost use Rattle.product_rule.specs.Pairs.{pair_flags, pair_next, NextFits, pair_states, StatesFit, same_classes};
ghost use Rattle.product_rule.specs.Product.{product_of, product_refusal, product_made, product_refused, product_answer};

use automaton::Automaton;
use refusal::Refusal;

// Whether the first m symbols have the same classes.
fn same_classes(first: &[u8; 16], second: &[u8; 16], m: usize) -> bool
    requires { m ≤ 16 }
    ensures { result ≡ same_classes first.now second.now m }
{
    first[..m] == second[..m]
}

// The flags of the pairs.
fn pair_flags(first: &[u8; 32], second: &[u8; 32], n: usize, pairs: usize) -> [u8; 32]
    requires { (0 < n) × (pairs ≤ 32) }
    ensures { result ≡ pad 32 (pair_flags first.now second.now n pairs) }
{
    let mut flags = [0u8; 32];
    for r in 0..pairs {
        flags[r] = u8::from(first[r / n] == 1 && second[r % n] == 1);
    }
    flags
}

// Stores the next states of the pair of p and q under m symbols, from a place on.
fn fill_pair(
    first: &[u8; 512],
    p: usize,
    second: &[u8; 512],
    q: usize,
    n: u8,
    m: usize,
    next: &mut [u8],
    at: usize,
)
    requires p_bound { (p < 32) × (q < 32) × (m ≤ 16) × (at + m ≤ length next.old) }
    requires next_fits { NextFits first.now second.now n m p q }
    ensures { next.new ≡ sets next.old at
        (pair_next first.now second.now n m p q) }
{
    for e in 0..m {
        next[at + e] = first[p * 16 + e] * n + second[q * 16 + e];
    }
}

// The next states of the pairs, 16 places for each.
fn pair_states(first: &[u8; 512], second: &[u8; 512], n: u8, m: usize, pairs: usize) -> [u8; 512]
    requires n_nonzero { (0 < n) × (m ≤ 16) × (pairs ≤ 32) }
    requires states_fit { StatesFit first.now second.now n m pairs }
    ensures { result ≡ pad 512 (pair_states first.now second.now n m pairs) }
{
    let count = usize::from(n);
    let mut next = [0u8; 512];
    for r in 0..pairs {
        fill_pair(first, r / count, second, r % count, n, m, &mut next, r * 16);
    }
    next
}

// Rows 11 for the first, 11 for the second, 24, 25.
fn check(a: &Automaton, b: &Automaton) -> Result<(), Refusal>
    ensures { by_number (λ _. 0) (λ row. row) result ≡ product_refusal a.now b.now }
{
    if !automaton_check::valid(a) {
        return Err(Refusal::BrokenAutomaton);
    }
    if !automaton_check::valid(b) {
        return Err(Refusal::BrokenAutomaton);
    }
    if a.symbols != b.symbols {
        return Err(Refusal::OtherSymbols);
    }
    if !same_classes(&a.classes, &b.classes, usize::from(a.symbols)) {
        return Err(Refusal::OtherSymbols);
    }
    if 32 < usize::from(a.states) * usize::from(b.states) {
        return Err(Refusal::TooManyPairs);
    }
    Ok(())
}

// The merged record, where no row refuses.
fn merged(a: &Automaton, b: &Automaton) -> Automaton
    requires { product_refusal a.now b.now ≡ 0 }
    ensures { result ≡ product_of a.now b.now }
{
    let n = usize::from(b.states);
    let pairs = usize::from(a.states) * n;
    let accepting = pair_flags(&a.accepting, &b.accepting, n, pairs);
    let next = pair_states(&a.next, &b.next, b.states, usize::from(a.symbols), pairs);
    Automaton {
        states: pairs as u8,
        symbols: a.symbols,
        capacity: a.capacity.min(b.capacity),
        initial: a.initial * b.states + b.initial,
        classes: a.classes,
        accepting,
        next,
    }
}

pub fn product(a: &Automaton, b: &Automaton) -> Result<Automaton, Refusal>
    ensures { by_number product_made product_refused result ≡ product_answer a.now b.now }
{
    check(a, b)?;
    Ok(merged(a, b))
}
