#![tactic(auto)]

// Lines of numbers that a program prints, stored in a lent buffer from a place on, each with its
// newline. Each function answers the place after its line, and asks for the room that a line can
// take.
ghost use Rattle.std.specs.Prelude.{[], ◌∷◌, ◌++◌, ◌+◌, ◌≤◌, length};
ghost use Rattle.text.specs.Decimal.{decimal, Appended};
ghost use Rattle.text_lines.specs.Lines.{refused_event_line, end_line, fault_line, refusal_line, line_room};

use text::{labelled, pair, word};

// The room that a line can take.
pub const LINE_ROOM: usize = 96;

// How many bytes a program puts on standard output, and how many on standard error.
#[derive(Clone, Copy)]
pub struct Output {
    pub bytes: usize,
    pub note: usize,
}

// Two words, each with a number after it, and the line's end.
fn pair_line(out: &mut [u8], at: usize, first: &[u8], n: usize, second: &[u8], m: usize) -> usize
    requires { at + (length first.now + length second.now) + 41 ≤ length out.old }
    ensures { Appended out.old at
        ((first.now ++ decimal n) ++ ((second.now ++ decimal m) ++ (10 ∷ []))) out.new result }
{
    let next = pair(out, at, first, n, second, m);
    word(out, next, b"\n")
}

pub fn refused_event_line(out: &mut [u8], at: usize, event: u32, row: u8) -> usize
    requires { at + line_room ≤ length out.old }
    ensures { Appended out.old at (refused_event_line event row) out.new result }
{
    pair_line(out, at, b"in ", event as usize, b" refused ", row as usize)
}

pub fn end_line(out: &mut [u8], at: usize, accepted: usize, refused: usize) -> usize
    requires { at + line_room ≤ length out.old }
    ensures { Appended out.old at (end_line accepted refused) out.new result }
{
    pair_line(out, at, b"end ", accepted, b" ", refused)
}

pub fn fault_line(out: &mut [u8], at: usize, row: u8, place: usize) -> usize
    requires { at + line_room ≤ length out.old }
    ensures { Appended out.old at (fault_line row place) out.new result }
{
    pair_line(out, at, b"refused ", row as usize, b" at ", place)
}

pub fn refusal_line(out: &mut [u8], at: usize, row: u8) -> usize
    requires { at + line_room ≤ length out.old }
    ensures { Appended out.old at (refusal_line row) out.new result }
{
    let refusal = labelled(out, at, b"refused ", row as usize);
    word(out, refusal, b"\n")
}
