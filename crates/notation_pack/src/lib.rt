#![tactic(auto)]

// Packing a text: a pass that looks for faults and counts, then one that writes.
ghost use Rattle.std.specs.Prelude.{◌≡◌, ◌+◌, ◌<◌, ◌≤◌, length, MatchOption};
ghost use Rattle.varint.specs.Varint.{bytes};
ghost use Rattle.text.specs.Decimal.{Appended};
ghost use Rattle.notation.specs.Packing.{reading, refused, packed, packed_buffer};
ghost use Rattle.notation.specs.Items.{item_at, checked, StoreGroupsRequires};
ghost use Rattle.notation.specs.Results.{fault_of, as_item, as_refused, as_checked, as_packed};

use notation::{FaultyToken, Found, PackError, Place, Token, WordFault};
use notation_tokens::{next_token, read_word};

// A fault at a token.
fn refused(fault: WordFault, t: Token) -> FaultyToken
    requires { t.lines < t.to }
    ensures { as_refused result ≡ refused (fault_of fault) t }
{
    FaultyToken {
        fault,
        line: t.lines + 1,
        from: t.from,
        to: t.to,
    }
}

// How many groups a number takes. (There is room for three, so that some are written.)
fn groups(v: u32) -> usize
    requires { v < 2097152 }
    ensures { result ≡ length (bytes v) }
{
    let mut out = [0u8; 3];
    varint::write(&mut out, v).unwrap_or(0)
}

// The next token from a place on with what its bytes are; nothing at the text's end.
fn next_item(source: &[u8], place: Place) -> Option<Found>
    requires { (place.lines ≤ place.at) × (place.at ≤ length source.now) }
    ensures { let item = item_at source.now place.lines place.at in
        MatchOption result (item.token.to ≤ item.token.from)
        (λ found. (found.token.from < found.token.to) × (as_item found ≡ item)) }
{
    let token = next_token(source, place);
    let Token { from, to, .. } = token;
    if to <= from {
        return None;
    }
    let word = read_word(&source[from..to]);
    Some(Found { token, word })
}

// The first fault, or how many bytes packing takes.
fn check(source: &[u8]) -> Result<usize, FaultyToken>
    ensures { as_checked result ≡ checked 0 (reading source.now) }
{
    let mut place = Place { lines: 0, at: 0 };
    let mut length = 0;
    while let Some(Found { token, word }) = next_item(source, place) {
        match word {
            Ok(value) => length += groups(value),
            Err(fault) => return Err(refused(fault, token)),
        }
        place = Place {
            lines: token.lines,
            at: token.to,
        };
    }
    Ok(length)
}

// Writes a number's groups from a place on, and answers the place after them.
fn write_at(out: &mut [u8], at: usize, v: u32) -> usize
    requires { (v < 2097152) × (at + length (bytes v) ≤ length out.old) }
    ensures { Appended out.old at (bytes v) out.new result }
{
    let count = varint::write(&mut out[at..], v).unwrap_or(0);
    at + count
}

// Writes the numbers of a text that has no fault into a buffer with room for them. (`check` found
// none, so that no word is one. Not inlined: as a part of `main`, where `check` is, it moved the
// loops of both to places at which blanks and comments took 1.3 to 1.5 times as long.)
#[inline(never)]
fn store_groups(source: &[u8], out: &mut [u8])
    requires { StoreGroupsRequires source.now out.old }
    ensures { out.new ≡ packed_buffer (reading source.now) out.old }
{
    let mut place = Place { lines: 0, at: 0 };
    let mut end = 0;
    while let Some(Found { token, word }) = next_item(source, place) {
        let Ok(value) = word else { break };
        end = write_at(out, end, value);
        place = Place {
            lines: token.lines,
            at: token.to,
        };
    }
}

// Writes the numbers of a text in seven-bit groups at the front of `out`, and answers how many
// bytes they take. A fault, or too little room, writes nothing.
pub fn pack(source: &[u8], out: &mut [u8]) -> Result<usize, PackError>
    ensures value { as_packed result ≡ packed (reading source.now) out.old }
    ensures out_after { out.new ≡ packed_buffer (reading source.now) out.old }
{
    let length = match check(source) {
        Ok(length) => length,
        Err(faulty) => return Err(PackError::Faulty(faulty)),
    };
    if out.len() < length {
        return Err(PackError::NoRoom);
    }
    store_groups(source, out);
    Ok(length)
}
