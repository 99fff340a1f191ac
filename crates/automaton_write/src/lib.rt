#![tactic(auto)]

// Writing an automaton as bytes (document 01's sheet). Every number of a valid record is below
// 128, so each takes one byte.
ghost use Rattle.std.specs.Prelude.{◌≡◌, true, [], ◌∷◌, ◌+◌, ◌*◌, ◌≤◌, length};
ghost use Rattle.std.proofs.lemmas.List.Edits.{sets};
ghost use Rattle.refusal.specs.Numbers.{by_number};
ghost use Rattle.automaton.specs.Automaton.{valid};
ghost use Rattle.automaton_format.specs.Writing.{next_numbers, record_numbers, write_answer, write_buffer, written, refused};

use automaton::Automaton;
use refusal::Refusal;

// Stores four bytes at the front of `out`.
fn store_four(out: &mut [u8], n: u8, m: u8, b: u8, q: u8)
    requires { 4 ≤ length out.old }
    ensures { out.new ≡ sets out.old 0 (n ∷ m ∷ b ∷ q ∷ []) }
{
    out[..4].copy_from_slice(&[n, m, b, q]);
}

// Stores the next states of n states, m each, from a place of `out` on.
fn store_states(next: &[u8; 512], n: usize, m: usize, out: &mut [u8], at: usize)
    requires { (n ≤ 32) × (m ≤ 16) × (at + n * m ≤ length out.old) }
    ensures { out.new ≡ sets out.old at (next_numbers next.now m n) }
{
    for q in 0..n {
        base::copy(next, q * 16, m, out, at + q * m);
    }
}

// Stores the record's numbers at the front of `out`.
fn store_numbers(a: &Automaton, out: &mut [u8])
    requires { (valid a.now ≡ true) × (length (record_numbers a.now) ≤ length out.old) }
    ensures { out.new ≡ sets out.old 0 (record_numbers a.now) }
{
    let n = usize::from(a.states);
    let m = usize::from(a.symbols);
    store_four(out, a.states, a.symbols, a.capacity, a.initial);
    base::copy(&a.classes, 0, m, out, 4);
    base::copy(&a.accepting, 0, n, out, 4 + m);
    store_states(&a.next, n, m, out, 4 + m + n);
}

// Writes the sheet at the front of `out` and answers its length. A refused call writes nothing.
pub fn write(a: &Automaton, out: &mut [u8]) -> Result<usize, Refusal>
    ensures { (by_number written refused result ≡ write_answer a.now out.old) × (out.new ≡ write_buffer a.now out.old) }
{
    if !automaton_check::valid(a) {
        return Err(Refusal::BrokenAutomaton);
    }
    let n = usize::from(a.states);
    let m = usize::from(a.symbols);
    let length = 4 + m + n + n * m;
    if out.len() < length {
        return Err(Refusal::ShortOutput);
    }
    store_numbers(a, out);
    Ok(length)
}
