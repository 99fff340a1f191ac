#![tactic(auto)]

// Row 11: the record keeps rows 3 to 9 and every unused place is 0. No loop is left early, so that
// each one is vectorised.
ghost use Rattle.std.specs.Prelude.{◌≡◌, true, ◌+◌, ◌≤◌, length};
ghost use Rattle.automaton.specs.Automaton.{ranged, next_stand, tables_stand, valid};
ghost use Rattle.automaton.specs.Arrays.{places_stand, below_from, next_limits, state_below, states_below};

use automaton::Automaton;

// Rows 3 to 6.
fn ranged(states: u8, symbols: u8, capacity: u8, initial: u8) -> bool
    ensures { result ≡ ranged states symbols capacity initial }
{
    (1..=32).contains(&states)
        && (1..=16).contains(&symbols)
        && (1..=6).contains(&capacity)
        && initial < states
}

// Each number of the list is below the limit.
fn below(list: &[u8], limit: u8) -> bool
    ensures { result ≡ below_from list.now 0 (length list.now) limit }
{
    let mut fine = true;
    for &v in list {
        if limit <= v {
            fine = false;
        }
    }
    fine
}

fn next_limits(n: u8, m: usize) -> [u8; 16]
    requires { m ≤ 16 }
    ensures { result ≡ next_limits n m }
{
    let mut limits = [1u8; 16];
    limits[..m].fill(n);
    limits
}

fn state_below<'a>(next: &'a [u8; 512], q: usize, limits: &'a [u8; 16]) -> bool
    requires { q + 1 ≤ 32 }
    ensures { result ≡ state_below next.now q limits.now }
{
    let mut fine = true;
    for e in 0..16 {
        if limits[e] <= next[q * 16 + e] {
            fine = false;
        }
    }
    fine
}

fn states_below<'a>(next: &'a [u8; 512], count: usize, limits: &'a [u8; 16]) -> bool
    requires { count ≤ 32 }
    ensures { result ≡ states_below next.now count limits.now }
{
    let mut fine = true;
    for q in 0..count {
        if !state_below(next, q, limits) {
            fine = false;
        }
    }
    fine
}

// The first `used` places are below the limit, and the others are 0.
fn places_stand(list: &[u8], used: usize, limit: u8) -> bool
    requires { used ≤ length list.now }
    ensures { result ≡ places_stand list.now used limit }
{
    below(&list[..used], limit) && below(&list[used..], 1)
}

// Row 9.
fn next_stand(n: u8, m: usize, next: &[u8; 512]) -> bool
    requires { (n ≤ 32) × (m ≤ 16) }
    ensures { result ≡ next_stand n m next.now }
{
    let states = usize::from(n);
    let limits = next_limits(n, m);
    states_below(next, states, &limits) && below(&next[states * 16..], 1)
}

// Rows 7 to 9.
fn tables_stand(a: &Automaton) -> bool
    requires { (a.now.states ≤ 32) × (a.now.symbols ≤ 16) }
    ensures { let x = a.now in
        result ≡ tables_stand x.states x.symbols x.classes x.accepting x.next }
{
    let m = usize::from(a.symbols);
    if !places_stand(&a.classes, m, automaton::CLASSES) {
        return false;
    }
    if 8 < automaton_symbols::controllable_in(&a.classes, m) {
        return false;
    }
    if !places_stand(&a.accepting, usize::from(a.states), 2) {
        return false;
    }
    next_stand(a.states, m, &a.next)
}

// Row 11.
pub fn valid(a: &Automaton) -> bool
    ensures { result ≡ valid a.now }
{
    ranged(a.states, a.symbols, a.capacity, a.initial) && tables_stand(a)
}
