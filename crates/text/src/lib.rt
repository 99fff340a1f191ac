#![tactic(auto)]

// Text as bytes: words and decimal numbers, stored in a lent buffer from a place on. Each function
// answers the place after what it stored, and asks for the room that its text takes. (No heap: the
// room is lent, and a place in it goes in and comes out.)
ghost use Rattle.std.specs.Prelude.{◌++◌, ◌+◌, ◌≤◌, length};
ghost use Rattle.text.specs.Decimal.{decimal, Appended};

use itoa::Buffer;

pub fn word(out: &mut [u8], at: usize, text: &[u8]) -> usize
    requires { at + length text.now ≤ length out.old }
    ensures { Appended out.old at text.now out.new result }
{
    base::copy(text, 0, text.len(), out, at);
    at + text.len()
}

// A number in decimal.
#[inline]
pub fn number(out: &mut [u8], at: usize, n: usize) -> usize
    requires { at + length (decimal n) ≤ length out.old }
    ensures { Appended out.old at (decimal n) out.new result }
{
    if n < 10 {
        out[at] = b'0' + n as u8; // most numbers here are one digit, which needs no buffer
        return at + 1;
    }
    let mut digits = Buffer::new();
    word(out, at, digits.format(n).as_bytes())
}

// A word and a number after it.
pub fn labelled(out: &mut [u8], at: usize, text: &[u8], n: usize) -> usize
    requires { at + length (text.now ++ decimal n) ≤ length out.old }
    ensures { Appended out.old at (text.now ++ decimal n) out.new result }
{
    let next = word(out, at, text);
    number(out, next, n)
}

// A word and a number, and another word and number.
pub fn pair(out: &mut [u8], at: usize, first: &[u8], n: usize, second: &[u8], m: usize) -> usize
    requires { at + length ((first.now ++ decimal n) ++ (second.now ++ decimal m)) ≤ length out.old }
    ensures { Appended out.old at ((first.now ++ decimal n) ++ (second.now ++ decimal m))
        out.new result }
{
    let next = labelled(out, at, first, n);
    labelled(out, next, second, m)
}
