// The programs' work: all but reading and writing.
ghost use Rattle.std.specs.Prelude.{length};
ghost use Rattle.text.specs.Decimal.{Appended};
ghost use Rattle.notation_programs.specs.Outputs.{pack_output, pack_note, unpack_output, unpack_note};

use notation_faults::message;
use refusal::Refusal;
use text::word;
use text_lines::{Output, fault_line, refusal_line};

// The most bytes of a text that is packed, and of an input that is unpacked.
const MAX_TEXT: usize = 262144;

const MAX_INPUT: usize = 60000;

// Packs a text. A fault, or a text of over 262,144 bytes, puts nothing into `out` and a line into
// `note`.
pub fn pack_input(source: &[u8], out: &mut [u8; 262144], note: &mut [u8; 96]) -> Output
    ensures appended { Appended out.old 0 (pack_output source.now) out.new result.bytes }
    ensures appended_2 { Appended note.old 0 (pack_note source.now) note.new result.note }
{
    if MAX_TEXT < source.len() {
        let long = word(note, 0, b"more than 262144 bytes of text\n");
        return Output {
            bytes: 0,
            note: long,
        };
    }
    match notation_pack::pack(source, out) {
        Ok(length) => Output {
            bytes: length,
            note: 0,
        },
        Err(error) => Output {
            bytes: 0,
            note: message(source, Err(error), note),
        },
    }
}

// Unpacks bytes into a line. A fault, or an input of over 60,000 bytes, puts nothing into `out`
// and a line into `note`.
pub fn unpack_input(bytes: &[u8], out: &mut [u8; 240000], note: &mut [u8; 96]) -> Output
    ensures appended { Appended out.old 0 (unpack_output bytes.now) out.new result.bytes }
    ensures appended_2 { Appended note.old 0 (unpack_note bytes.now) note.new result.note }
{
    if MAX_INPUT < bytes.len() {
        let long = refusal_line(note, 0, u8::from(Refusal::LongInput));
        return Output {
            bytes: 0,
            note: long,
        };
    }
    match notation_unpack::unpack(bytes, out) {
        Ok(length) => Output {
            bytes: length,
            note: 0,
        },
        Err(fault) => Output {
            bytes: 0,
            note: fault_line(note, 0, u8::from(fault.refusal), fault.place),
        },
    }
}
