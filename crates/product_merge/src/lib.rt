#![tactic(auto)]

// What the program `merge` writes on an input (document 02, Card 6: two sheets become one): all of
// its work but reading and writing.
ghost use Rattle.std.specs.Prelude.{◌≡◌};
ghost use Rattle.refusal.specs.Numbers.{number};
ghost use Rattle.text.specs.Decimal.{Appended};
ghost use Rattle.text_lines.specs.Lines.{fault_line, refusal_line};
ghost use Rattle.product_merge.specs.Outputs.{merged_records, merge_output, merge_note};

use automaton::Automaton;
use refusal::Refusal;
use text_lines::{Output, fault_line, refusal_line};

// Nothing on standard output, and a line: a row with the fault's place.
fn faulted(note: &mut [u8; 96], refusal: Refusal, place: usize) -> Output
    ensures { (result.bytes ≡ 0) × Appended note.old 0 (fault_line (number refusal) place) note.new result.note }
{
    Output {
        bytes: 0,
        note: fault_line(note, 0, u8::from(refusal), place),
    }
}

// .. or a row alone.
fn refused(note: &mut [u8; 96], refusal: Refusal) -> Output
    ensures { (result.bytes ≡ 0) × Appended note.old 0 (refusal_line (number refusal)) note.new result.note }
{
    Output {
        bytes: 0,
        note: refusal_line(note, 0, u8::from(refusal)),
    }
}

// Merges two records. A product passes row 11 and takes 564 bytes at most, so that it is written
// wherever it is made.
fn merge_records(a: &Automaton, b: &Automaton, out: &mut [u8; 564], note: &mut [u8; 96]) -> Output
    ensures appended { Appended out.old 0 (merged_records a.now b.now).bytes out.new result.bytes }
    ensures appended_2 { Appended note.old 0 (merged_records a.now b.now).note note.new result.note }
{
    match product::product(a, b) {
        Ok(product) => {
            let bytes = automaton_write::write(&product, out).unwrap();
            Output { bytes, note: 0 }
        }
        Err(refusal) => refused(note, refusal),
    }
}

// Merges the two sheets of an input. A fault, a refused product or an input of over 60,000 bytes
// puts nothing into `out` and a line into `note`.
pub fn merge_input(input: &[u8], out: &mut [u8; 564], note: &mut [u8; 96]) -> Output
    ensures appended { Appended out.old 0 (merge_output input.now) out.new result.bytes }
    ensures appended_2 { Appended note.old 0 (merge_note input.now) note.new result.note }
{
    if 60000 < input.len() {
        return refused(note, Refusal::LongInput);
    }
    // A refusal becomes a line in `note` and not the answer, so there is no `?`.
    let first = match automaton_opening::read(input) {
        Ok(first) => first,
        Err(fault) => return faulted(note, fault.refusal, fault.place),
    };
    let from = first.place;
    match automaton_read::read(&input[from..]) {
        Ok(second) => merge_records(&first.automaton, &second, out, note),
        Err(fault) => faulted(note, fault.refusal, from + fault.place),
    }
}
