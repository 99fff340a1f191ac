#![tactic(auto)]

// Numbers in seven-bit groups, written out as a line of decimal numbers: a pass that looks for
// faults and measures, then one that writes.
ghost use Rattle.std.specs.Prelude.{◌≡◌, false, ◌≤◌, length};
ghost use Rattle.refusal.specs.Numbers.{by_number_at};
ghost use Rattle.text.specs.Decimal.{decimal};
ghost use Rattle.notation_unpack.specs.Unpacking.{decoded, done, refused, unpacked, unpacked_buffer};
ghost use Rattle.notation_unpack.specs.Measures.{measured, mark_at, StoreLineRequires};

use refusal::{Fault, Refusal};

// How many digits a number has: 20 at most, as any number of a program.
fn digits(v: u32) -> usize
    ensures { (result ≡ length (decimal v)) × (result ≤ 20) }
{
    let mut out = [0u8; 20];
    text::number(&mut out, 0, v as usize)
}

// What stands after a number that ends at a place.
fn mark(at: usize, end: usize) -> u8
    ensures { result ≡ mark_at at end }
{
    if at < end { b' ' } else { b'\n' }
}

// The first fault, or how many bytes of text the line takes, with so many places for it. (Each
// number says where the next begins, and the definition has the flag beside what is left.)
fn measure(bytes: &[u8], room: usize) -> Result<usize, Fault>
    ensures { by_number_at done refused result ≡ measured room room false (decoded bytes.now) }
{
    let mut at: usize = 0;
    let mut left = room;
    let mut short = false;
    while at < bytes.len() {
        let n = varint::read(bytes, at)?;
        let size = digits(n.value) + 1;
        at = n.place;
        if left < size {
            short = true;
        } else {
            left = left - size;
        }
    }
    if short {
        return Err(Fault {
            refusal: Refusal::ShortOutput,
            place: 0,
        });
    }
    Ok(room - left)
}

// Writes the line of bytes that have no fault into a buffer with room for it. (None is left, so
// that no loop ends at one: `measure` found none.)
fn store_line(bytes: &[u8], out: &mut [u8])
    requires { StoreLineRequires bytes.now out.old }
    ensures { out.new ≡ unpacked_buffer (decoded bytes.now) out.old }
{
    let mut at: usize = 0;
    let mut place: usize = 0;
    while at < bytes.len() {
        let Ok(n) = varint::read(bytes, at) else {
            break;
        };
        let next = text::number(out, place, n.value as usize);
        at = n.place;
        out[next] = mark(at, bytes.len());
        place = next + 1;
    }
}

// Writes the numbers of some bytes as a line of text at the front of `out`, and answers how many
// bytes of text there are. A fault, at the place where the faulty number begins, or too little
// room (row 16, at place 0) writes nothing.
pub fn unpack(bytes: &[u8], out: &mut [u8]) -> Result<usize, Fault>
    ensures value { by_number_at done refused result ≡ unpacked (decoded bytes.now) out.old }
    ensures out_after { out.new ≡ unpacked_buffer (decoded bytes.now) out.old }
{
    let length = measure(bytes, out.len())?;
    store_line(bytes, out);
    Ok(length)
}
