#![tactic(auto)]

// The transcript in pieces, each as many lines as a lent buffer has room for.

ghost use Rattle.std.specs.Prelude.{◌≡◌, [], ◌≤◌, length};
ghost use Rattle.text_lines.specs.Lines.{line_room};
ghost use Rattle.day_transcript.specs.Pieces.{to_come, Continued};

use day_next::line;
use day_transcript::{Piece, Progress};

// Writes as many lines as have room at the front of `out`. With room for one line, nothing is
// written only where nothing is to come.
pub fn next_piece(progress: Progress, input: &[u8], table: &[u32], out: &mut [u8]) -> Piece
    ensures continued { Continued table.now input.now progress out.old 0
        out.new result.progress result.length }
    ensures progress_value { line_room ≤ length out.old → result.length ≡ 0
        → to_come table.now input.now progress ≡ [] }
{
    let mut current = progress;
    let mut at = 0;
    while text_lines::LINE_ROOM <= out.len() - at {
        let step = line(current, input, table, out, at);
        if step.length == at {
            break;
        }
        current = step.progress;
        at = step.length;
    }
    Piece {
        progress: current,
        length: at,
    }
}
