#![tactic(auto)]

// Numbers in seven-bit groups (LEB128), one to three bytes.
ghost use Rattle.std.specs.Prelude.{◌≡◌, is_some};
ghost use Rattle.refusal.specs.Numbers.{by_number_at};
ghost use Rattle.varint.specs.Varint.{read, decoded, fault, fits, count, written, written_length};

use refusal::{Fault, Refusal};

// A number that was read, and the place after it.
#[derive(Clone, Copy)]
pub struct Decoded {
    pub value: u32,
    pub place: usize,
}

// The number at a place, or row 1 where the bytes end before it does, or row 2 where its third
// byte has the top bit set. A fault's place is where the number begins.
pub fn read(s: &[u8], at: usize) -> Result<Decoded, Fault>
    ensures { by_number_at decoded fault result ≡ read s.now at }
{
    let ended = Fault {
        refusal: Refusal::BytesEnd,
        place: at,
    };
    if s.len() <= at {
        return Err(ended);
    }
    let a = u32::from(s[at]);
    if a < 128 {
        return Ok(Decoded {
            value: a,
            place: at + 1,
        });
    }
    if s.len() - at <= 1 {
        return Err(ended);
    }
    let b = u32::from(s[at + 1]);
    if b < 128 {
        return Ok(Decoded {
            value: a - 128 + b * 128,
            place: at + 2,
        });
    }
    if s.len() - at <= 2 {
        return Err(ended);
    }
    let c = u32::from(s[at + 2]);
    if c < 128 {
        return Ok(Decoded {
            value: a - 128 + (b - 128) * 128 + c * 16384,
            place: at + 3,
        });
    }
    Err(Fault {
        refusal: Refusal::NumberTooLong,
        place: at,
    })
}

// Writes v in the fewest bytes and answers how many. Above 2,097,151 or without room nothing is
// written and there is no answer.
pub fn write(out: &mut [u8], v: u32) -> Option<usize>
    ensures { (count result ≡ written_length out.old v) ×
        (is_some result ≡ fits out.old v) ×
        (out.new ≡ written out.old v) }
{
    if v < 128 {
        if out.len() < 1 {
            return None;
        }
        out[0] = v as u8;
        return Some(1);
    }
    if v < 16384 {
        if out.len() < 2 {
            return None;
        }
        out[0] = (v % 128 + 128) as u8;
        out[1] = (v / 128) as u8;
        return Some(2);
    }
    if 2097152 <= v {
        return None;
    }
    if out.len() < 3 {
        return None;
    }
    out[0] = (v % 128 + 128) as u8;
    out[1] = (v / 128 % 128 + 128) as u8;
    out[2] = (v / 16384) as u8;
    Some(3)
}
