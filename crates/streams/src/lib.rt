#![tactic(auto)]

// Standard input and output, for every program: all of an input into a lent buffer, and all of a
// slice to a writer. A read that fails is told from the end of the input, and a call that a signal
// interrupted is made again. (The library under it promises nothing of the bytes that standard
// input gives or standard output takes.)
mod transfer;

ghost use Rattle.std.specs.Prelude.{◌≤◌, ◌<◌, ◌+◌, ◌≡◌, ◌++◌, false, length, take, replicate};
ghost use Rattle.std.specs.Io.KnownBytes.{Consumes, Appends, IsAtEnd};
ghost use Rattle.streams.specs.Streams.{reading, writing, input_of, written_of, Filled, Handed, cannot_read, cannot_write};

use std::io::{Read, Write};
use text::word;
use transfer::{Transfer, after, begun};

// Zeros, behind a name of their own: the prover writes out a long array where it stands.
pub fn room<const N: usize>() -> [u8; N]
    ensures { result ≡ replicate N 0 }
{
    [0; N]
}

// How many bytes were moved before a call that failed, or (of a write) took nothing.
#[derive(Clone, Copy, Debug)]
pub struct Stopped {
    pub count: usize,
}

fn input_of(t: Transfer) -> Result<usize, Stopped>
    ensures { reading result ≡ input_of t }
{
    if t.failed {
        return Err(Stopped { count: t.count });
    }
    Ok(t.count)
}

fn written_of(t: Transfer) -> Result<usize, Stopped>
    ensures { writing result ≡ written_of t }
{
    if t.count == t.size {
        Ok(t.count)
    } else {
        Err(Stopped { count: t.count })
    }
}

// Reads to the end of the input, or until the buffer is full, and answers how many bytes. (This
// loop and the next share all but the call: what a call makes of a transfer is said once, in
// `after`.)
pub fn read_all<R: Read>(from: &mut R, buf: &mut [u8]) -> Result<usize, Stopped>
    ensures filled { Filled buf.new (reading result) }
    ensures taken { Consumes (R.remaining from.old) (R.remaining from.new) (take (reading result).length buf.new) }
    ensures end { (reading result).failed ≡ false → (reading result).length < length buf.new → IsAtEnd (R.remaining from.new) }
{
    let mut t = begun(buf.len());
    while t.going {
        let answer = from.read(&mut buf[t.count..]);
        t = after(t, answer);
    }
    input_of(t)
}

// Hands over all bytes and answers how many, or those before the first call that fails or takes
// nothing.
pub fn write_all<W: Write>(to: &mut W, bytes: &[u8]) -> Result<usize, Stopped>
    ensures handed { Handed bytes.now (writing result) }
    ensures passed { Appends (W.contents to.old) (W.contents to.new) (take (writing result).count bytes.now) }
{
    let mut t = begun(bytes.len());
    while t.going {
        let answer = to.write(&bytes[t.count..]);
        t = after(t, answer);
    }
    written_of(t)
}

// A program's name and what it cannot do, in one line for standard error.
fn cannot<W: Write>(to: &mut W, name: &[u8], what: &[u8]) -> Result<usize, Stopped>
    requires { (length name.now ≤ 64) × (length what.now ≤ 32) }
    ensures handed { Handed (name.now ++ what.now) (writing result) }
    ensures passed { Appends (W.contents to.old) (W.contents to.new) (take (writing result).count (name.now ++ what.now)) }
{
    let mut line = [0u8; 96];
    let next = word(&mut line, 0, name);
    let length = word(&mut line, next, what);
    write_all(to, &line[..length])
}

// The line `NAME: cannot read`, for standard error.
pub fn cannot_read<W: Write>(to: &mut W, name: &[u8]) -> Result<usize, Stopped>
    requires { length name.now ≤ 64 }
    ensures handed { Handed (cannot_read name.now) (writing result) }
    ensures passed { Appends (W.contents to.old) (W.contents to.new) (take (writing result).count (cannot_read name.now)) }
{
    cannot(to, name, b": cannot read\n")
}

// The line `NAME: cannot write`, for standard error.
pub fn cannot_write<W: Write>(to: &mut W, name: &[u8]) -> Result<usize, Stopped>
    requires { length name.now ≤ 64 }
    ensures handed { Handed (cannot_write name.now) (writing result) }
    ensures passed { Appends (W.contents to.old) (W.contents to.new) (take (writing result).count (cannot_write name.now)) }
{
    cannot(to, name, b": cannot write\n")
}
