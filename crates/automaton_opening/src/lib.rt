#![tactic(auto)]

// Reading a sheet with its length before it: a number L, then L bytes of sheet. What follows is
// not looked at.
ghost use Rattle.std.specs.Prelude.{◌≡◌};
ghost use Rattle.refusal.specs.Numbers.{by_number_at};
ghost use Rattle.automaton_format.specs.Reading.{refused};
ghost use Rattle.automaton_format.specs.Opening.{opening};
ghost use Rattle.automaton_opening.specs.Opened.{opened};

use automaton::Automaton;
use refusal::{Fault, Refusal};

// An automaton that was read, and the place after its sheet.
#[derive(Clone, Copy)]
pub struct Opened {
    pub automaton: Automaton,
    pub place: usize,
}

// The place after the sheet, and that of the first fault, are counted from the input's first byte.
pub fn read(input: &[u8]) -> Result<Opened, Fault>
    ensures { by_number_at opened refused result ≡ opening input.now }
{
    let length = varint_reader::read_at(input, 0)?;
    let from = length.place;
    let count = length.value as usize;
    if input.len() - from < count {
        return Err(Fault {
            refusal: Refusal::BytesEnd,
            place: from,
        });
    }
    let end = from + count;
    match automaton_read::read(&input[from..end]) {
        Ok(automaton) => Ok(Opened {
            automaton,
            place: end,
        }),
        Err(fault) => Err(Fault {
            refusal: fault.refusal,
            place: from + fault.place,
        }),
    }
}
