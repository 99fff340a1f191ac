#![tactic(auto)]

// The day program: reads standard input and writes its transcript.
ghost use Rattle.std.specs.Prelude.{◌≡◌, ◌≤◌, length, take};
ghost use Rattle.std.specs.Io.KnownBytes.{Appends};
ghost use Rattle.text_lines.specs.Lines.{line_room};
ghost use Rattle.day_transcript.specs.Transcript.{transcript};
ghost use Rattle.day_transcript.specs.Pieces.{table_after};
ghost use Rattle.streams.specs.Streams.{writing};
ghost use Rattle.day.specs.Delivery.{Delivered};

use std::io::Write;
use streams::Stopped;

// Writes the transcript of an input piece by piece, until a piece cannot be written whole.
fn write<W: Write>(
    to: &mut W,
    input: &[u8],
    table: &mut [u32; 16384],
    out: &mut [u8],
) -> Result<usize, Stopped>
    requires { line_room ≤ length out.old }
    ensures delivered { Delivered (transcript input.now) out.new (writing result).count (writing result).done }
    ensures passed { Appends (W.contents to.old) (W.contents to.new) (take (writing result).count (transcript input.now)) }
    ensures table_after { table.new ≡ table_after input.now table.old }
{
    let mut count = 0;
    let mut progress = day_opening::begin(input, table);
    loop {
        let piece = day_pieces::next_piece(progress, input, table, out);
        let length = piece.length;
        if length == 0 {
            break Ok(count);
        }
        match streams::write_all(to, &out[..length]) {
            Ok(taken) => count += taken,
            Err(stopped) => {
                count += stopped.count;
                break Err(Stopped { count });
            }
        }
        progress = piece.progress;
    }
}

fn main(rt: HostRuntime) {
    let mut input = [0u8; 60001];
    let Ok(count) = streams::read_all(&mut rt.stdin(), &mut input) else {
        let _ = streams::cannot_read(&mut rt.stderr(), b"day");
        return;
    };
    let mut table = [0u32; 16384];
    let mut out = [0u8; 4096];
    if write(&mut rt.stdout(), &input[..count], &mut table, &mut out).is_err() {
        let _ = streams::cannot_write(&mut rt.stderr(), b"day");
    }
}
