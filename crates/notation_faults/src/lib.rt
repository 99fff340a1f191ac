#![tactic(auto)]

// What the program `pack` says of a fault in a text, stored in a lent buffer.
ghost use Rattle.std.specs.Prelude.{◌≡◌, ◌+◌, ◌≤◌, length};
ghost use Rattle.text.specs.Decimal.{Appended};
ghost use Rattle.notation.specs.Results.{fault_of, as_error, as_packed};
ghost use Rattle.notation_faults.specs.Messages.{visible, shown, token_line, said, message};

use notation::{FaultyToken, PackError, WordFault};
use text::{labelled, word};

// A byte as it is shown: `?` where it is no printable ASCII.
#[tactic(auto, unfolding(crate::specs::Messages::visible))]
fn visible(b: u8) -> u8
    ensures { result ≡ visible b }
{
    match b {
        b' '..=b'~' => b,
        _ => b'?',
    }
}

// Shows the first 32 bytes of a token.
fn shown(out: &mut [u8], at: usize, token: &[u8]) -> usize
    requires { at + 32 ≤ length out.old }
    ensures { Appended out.old at (shown token.now) out.new result × (result ≤ at + 32) }
{
    let start = &token[..token.len().min(32)];
    for (i, b) in start.iter().enumerate() {
        out[at + i] = visible(*b);
    }
    at + start.len()
}

// The line of a fault at a token. An ending has 24 bytes at most.
fn token_line(out: &mut [u8], line: usize, token: &[u8], ending: &[u8]) -> usize
    requires { (length ending.now ≤ 24) × (96 ≤ length out.old) }
    ensures { Appended out.old 0 (token_line line token.now ending.now)
        out.new result }
{
    let number = labelled(out, 0, b"line ", line);
    let colon = word(out, number, b": ");
    let name = shown(out, colon, token);
    word(out, name, ending)
}

// What is said of a fault at a token of a line.
fn said(fault: WordFault, line: usize, token: &[u8], out: &mut [u8]) -> usize
    requires { 96 ≤ length out.old }
    ensures { Appended out.old 0 (said (fault_of fault) line token.now) out.new result }
{
    match fault {
        WordFault::NotNumber => token_line(out, line, token, b" is no number\n"),
        WordFault::TooLarge => token_line(out, line, token, b" is over 2097151\n"),
    }
}

// The line that says why a text is not packed.
fn explain(source: &[u8], error: PackError, out: &mut [u8]) -> usize
    requires { let answer = as_error error in
        (answer.from ≤ answer.to) × (answer.to ≤ length source.now) × (96 ≤ length out.old) }
    ensures { Appended out.old 0 (message source.now (as_error error)) out.new result }
{
    match error {
        PackError::Faulty(
            FaultyToken {
                fault,
                line,
                from,
                to,
            },
        ) => said(fault, line, &source[from..to], out),
        PackError::NoRoom => word(out, 0, b"no room for the bytes\n"),
    }
}

// The line of a fault that packing answered; nothing where there is none.
pub fn message(source: &[u8], answer: Result<usize, PackError>, out: &mut [u8]) -> usize
    requires { let told = as_packed answer in
        (told.from ≤ told.to) × (told.to ≤ length source.now) × (96 ≤ length out.old) }
    ensures { Appended out.old 0 (message source.now (as_packed answer)) out.new result }
{
    match answer {
        Ok(_) => 0,
        Err(error) => explain(source, error, out),
    }
}
