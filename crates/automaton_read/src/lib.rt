#![tactic(auto)]

// Reading an automaton from bytes (document 01's sheet): left to right, one pass, the first fault
// stands.
ghost use Rattle.std.specs.Prelude.{◌≡◌, ◌+◌, ◌<◌, ◌≤◌, [], length, replicate};
ghost use Rattle.std.proofs.lemmas.List.Edits.{sets};
ghost use Rattle.refusal.specs.Numbers.{number, by_number_at};
ghost use Rattle.varint.specs.Varint.{read, decoded, value, fault};
ghost use Rattle.automaton.specs.Automaton.{max_class};
ghost use Rattle.base.specs.Pad.{pad};
ghost use Rattle.automaton_format.specs.Reading.{checked, between, item_row, numbers, next_states, tables, parse, parsed, refused};
ghost use Rattle.automaton_format.specs.Outcomes.{outcome, one_more};

use automaton::Automaton;
use refusal::{Fault, Refusal};
use varint::Decoded;

// How many classes there are.
const CLASSES: u32 = automaton::CLASSES as u32;

// The number at a place, or the refusal where it is below `low` or not below `limit`.
fn number(s: &[u8], at: usize, low: u32, limit: u32, refusal: Refusal) -> Result<Decoded, Fault>
    ensures { by_number_at decoded fault result ≡ checked (between low limit (number refusal)) at (read s.now at) }
{
    let n = varint::read(s, at)?;
    if (low..limit).contains(&n.value) {
        Ok(n)
    } else {
        Err(Fault { refusal, place: at })
    }
}

// One more, where v is 1.
fn one_more(ones: usize, v: u32) -> usize
    requires { ones < 512 }
    ensures { result ≡ one_more ones v }
{
    if v == 1 { ones + 1 } else { ones }
}

// Fills `out` with numbers below the limit and answers the place after them; the refusal stands
// otherwise, and row 8 where more than `most` of them are 1.
fn fill(
    s: &[u8],
    at: usize,
    out: &mut [u8],
    limit: u32,
    refusal: Refusal,
    most: usize,
) -> Result<usize, Fault>
    requires { (length out.old ≤ 32) × (limit ≤ 256) }
    ensures place { by_number_at (value 0) fault result ≡
        outcome (numbers (read s.now) (item_row limit (number refusal) most) (length out.old) [] at) }
    ensures out_after { out.new ≡ sets out.old 0
        (numbers (read s.now) (item_row limit (number refusal) most) (length out.old) [] at).values }
{
    let mut place = at;
    let mut ones: usize = 0;
    for v in out.iter_mut() {
        let n = number(s, place, 0, limit, refusal)?;
        ones = one_more(ones, n.value);
        if most < ones {
            return Err(Fault {
                refusal: Refusal::ControllableCount,
                place,
            });
        }
        *v = n.value as u8;
        place = n.place;
    }
    Ok(place)
}

// Fills the next states of n states, m numbers each and 16 places for each state, with numbers
// below n, and answers the place after them; row 9 stands otherwise.
fn fill_states(s: &[u8], at: usize, next: &mut [u8], n: u32, m: usize) -> Result<usize, Fault>
    requires { (n < 33) × (m < 17) × (next.old ≡ replicate 512 0) }
    ensures place { by_number_at (value 0) fault result ≡
        outcome (next_states (read s.now) (between 0 n 9) m n [] at) }
    ensures next_after { next.new ≡ pad 512 (next_states (read s.now) (between 0 n 9) m n [] at).values }
{
    let mut place = at;
    for q in 0..n as usize {
        let state = &mut next[q * 16..q * 16 + m];
        place = fill(s, place, state, n, Refusal::NextState, 16)?;
    }
    Ok(place)
}

// The classes, flags and next states after the first four numbers. (Four numbers and no struct:
// they are read once and used once.)
fn read_tables(
    s: &[u8],
    at: usize,
    states: u32,
    symbols: u32,
    capacity: u32,
    initial: u32,
) -> Result<Automaton, Fault>
    requires { (states < 33) × (symbols < 17) × (capacity < 7) × (initial < states) }
    ensures { by_number_at parsed refused result ≡
        tables (read s.now) max_class (length s.now) states symbols capacity initial at }
{
    let n = states as usize;
    let m = symbols as usize;
    let mut classes = [0u8; 16];
    let c = fill(s, at, &mut classes[..m], CLASSES, Refusal::ClassOrFlag, 8)?;
    let mut accepting = [0u8; 32];
    let f = fill(s, c, &mut accepting[..n], 2, Refusal::ClassOrFlag, 32)?;
    let mut next = [0u8; 512];
    let t = fill_states(s, f, &mut next, states, m)?;
    if t < s.len() {
        return Err(Fault {
            refusal: Refusal::BytesLeft,
            place: t,
        });
    }
    Ok(Automaton {
        states: states as u8,
        symbols: symbols as u8,
        capacity: capacity as u8,
        initial: initial as u8,
        classes,
        accepting,
        next,
    })
}

pub fn read(s: &[u8]) -> Result<Automaton, Fault>
    ensures { by_number_at parsed refused result ≡ parse s.now }
{
    let n = number(s, 0, 1, 33, Refusal::StateCount)?;
    let m = number(s, n.place, 1, 17, Refusal::SymbolCount)?;
    let b = number(s, m.place, 1, 7, Refusal::Capacity)?;
    let q = number(s, b.place, 0, n.value, Refusal::InitialState)?;
    read_tables(s, q.place, n.value, m.value, b.value, q.value)
}
