#![tactic(auto)]

// The lines of a day that end in whether the configuration is winning (document 01's guarded): the
// first line and that of an accepted event. Each function answers the place after its line, and
// asks for the room that a line can take; a symbol takes four bytes at most.
ghost use Rattle.std.specs.Prelude.{◌++◌, ◌+◌, ◌*◌, ◌≤◌, length};
ghost use Rattle.text.specs.Decimal.{ascii, decimal, Appended};
ghost use Rattle.text_lines.specs.Lines.{line_room};
ghost use Rattle.day_lines.specs.StatusLines.{winning_end, automaton_line, spaced, emission, event_line};

use text::{labelled, pair, word};

fn winning_end(out: &mut [u8], at: usize, winning: bool) -> usize
    requires { at + 13 ≤ length out.old }
    ensures { Appended out.old at (winning_end winning) out.new result }
{
    if winning {
        word(out, at, b" guarded yes\n")
    } else {
        word(out, at, b" guarded no\n")
    }
}

// Two words, each with a byte's number after it, and whether the configuration is winning.
fn pair_end(
    out: &mut [u8],
    at: usize,
    first: &[u8],
    n: u8,
    second: &[u8],
    m: u8,
    winning: bool,
) -> usize
    requires { at + (length first.now + length second.now) + 19 ≤ length out.old }
    ensures { Appended out.old at
        ((first.now ++ decimal n) ++ ((second.now ++ decimal m) ++ winning_end winning)) out.new result }
{
    let next = pair(out, at, first, n as usize, second, m as usize);
    winning_end(out, next, winning)
}

pub fn automaton_line(out: &mut [u8], at: usize, n: u8, m: u8, b: u8, q: u8, winning: bool) -> usize
    requires { at + line_room ≤ length out.old }
    ensures { Appended out.old at (automaton_line n m b q winning) out.new result }
{
    let sizes = pair(out, at, b"sheet ", n as usize, b" ", m as usize);
    pair_end(out, sizes, b" ", b, b" start ", q, winning)
}

// Symbols, each with a space before it.
fn spaced(out: &mut [u8], at: usize, symbols: &[u8]) -> usize
    requires { at + 4 * length symbols.now ≤ length out.old }
    ensures { Appended out.old at (spaced symbols.now) out.new result
        × (result ≤ at + 4 * length symbols.now) }
{
    let mut place = at;
    for symbol in symbols {
        place = labelled(out, place, b" ", usize::from(*symbol));
    }
    place
}

// .. and `-` for none.
fn emission(out: &mut [u8], at: usize, symbols: &[u8]) -> usize
    requires { (length symbols.now ≤ 7) × (at + 28 ≤ length out.old) }
    ensures { Appended out.old at (emission symbols.now) out.new result × (result ≤ at + 28) }
{
    if symbols.is_empty() {
        word(out, at, b" -")
    } else {
        spaced(out, at, symbols)
    }
}

// The symbol received.
fn received(out: &mut [u8], at: usize, event: u32) -> usize
    requires { at + 27 ≤ length out.old }
    ensures { Appended out.old at (ascii "in " ++ (decimal event ++ ascii " out")) out.new result
        × (result ≤ at + 27) }
{
    let next = labelled(out, at, b"in ", event as usize);
    word(out, next, b" out")
}

pub fn event_line(
    out: &mut [u8],
    at: usize,
    event: u32,
    emitted: &[u8],
    q: u8,
    held: u8,
    winning: bool,
) -> usize
    requires { (length emitted.now ≤ 7) × (at + line_room ≤ length out.old) }
    ensures { Appended out.old at (event_line event emitted.now q held winning) out.new result }
{
    let label = received(out, at, event);
    let end = emission(out, label, emitted);
    pair_end(out, end, b" state ", q, b" held ", held, winning)
}
