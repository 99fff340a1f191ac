// A transfer of bytes by calls of std's `read` or `write`: what one call more makes of it. No call
// is made here.
ghost use Rattle.std.specs.Prelude.{◌≡◌, ◌≤◌, ◌-◌};
ghost use Rattle.streams.specs.Transfers.{Moved, begun, ended, moved, interrupted, failed, after};

use std::io;
use std::io::ErrorKind;

// How often signals may interrupt one transfer: one more counts as a failure. A proved loop must
// end, and nothing else says that the signals do.
const MAX_INTERRUPTIONS: usize = 65536;

// Where a transfer of `size` bytes stands: how many were moved, how many interruptions are left,
// whether another call is to be made, and whether one failed. (Two flags, as in the definitions of
// specs/Transfers.antt.)
#[derive(Clone, Copy)]
pub struct Transfer {
    pub size: usize,
    pub count: usize,
    pub interruptions: usize,
    pub going: bool,
    pub failed: bool,
}

pub fn begun(size: usize) -> Transfer
    ensures { result ≡ begun size }
{
    Transfer {
        size,
        count: 0,
        interruptions: MAX_INTERRUPTIONS,
        going: 0 < size,
        failed: false,
    }
}

// No further call is made.
fn ended(mut t: Transfer, failed: bool) -> Transfer
    ensures { result ≡ ended t failed }
{
    t.going = false;
    t.failed = failed;
    t
}

// A call moved so many bytes. None is the end of the input, or nothing taken.
fn moved(mut t: Transfer, bytes: usize) -> Transfer
    requires { (t.count ≤ t.size) × (bytes ≤ t.size - t.count) }
    ensures { result ≡ moved t bytes }
{
    if bytes == 0 {
        return ended(t, false);
    }
    t.count = t.count + bytes;
    t.going = t.count < t.size;
    t
}

// A signal interrupted a call before it moved a byte. It is made again.
fn interrupted(mut t: Transfer) -> Transfer
    ensures { result ≡ interrupted t }
{
    if t.interruptions == 0 {
        return ended(t, true);
    }
    t.interruptions = t.interruptions - 1;
    t
}

// A call failed.
fn failed(t: Transfer, error: io::Error) -> Transfer
    ensures { result ≡ failed t error }
{
    if error.kind() == ErrorKind::Interrupted {
        return interrupted(t);
    }
    ended(t, true)
}

// After one call more, which answered the number of bytes that it moved, or why it failed.
pub fn after(t: Transfer, answer: io::Result<usize>) -> Transfer
    requires { (t.count ≤ t.size) × Moved (t.size - t.count) answer }
    ensures { result ≡ after t answer }
{
    match answer {
        Ok(bytes) => moved(t, bytes),
        Err(error) => failed(t, error),
    }
}
