#![tactic(auto)]

// One event: the rows that need no search, what an event with room leaves, and what one at a full
// buffer does. Both calls of the monitor, one event and a whole day, are made of these.
ghost use Rattle.std.specs.Prelude.{◌≡◌, false, cond, not, ◌&&◌, [], ◌∷◌, ◌++◌, eqb, leb, ◌+◌, ◌*◌, ◌≤◌, ◌<◌, length, get_or, set, take, drop};
ghost use Rattle.std.proofs.lemmas.List.Edits.{sets};
ghost use Rattle.base.specs.Pad.{pad};
ghost use Rattle.configuration_places.specs.Places.{input_number};
ghost use Rattle.monitor_rule.specs.Step.{effect};
ghost use Rattle.monitor_rule.specs.Fronts.{rest_in, over};
ghost use Rattle.monitor_step.specs.Stepping.{early_row, stepped, overflowed, overflow_emitted};
ghost use Rattle.monitor_step.specs.Stepping.{StepRequires, OverflowRequires};

use base::copy;
use configuration_places::{COUNT_END, InputPlace};
use monitor_release::release;

// What an event leaves: the row that refuses it (0: none), the state, the buffer and how many it
// holds, how many of the events in hand were released, and the place after what was written. All
// is as it was where it is refused.
#[derive(Clone, Copy)]
pub struct Stepped {
    pub row: u8,
    pub state: usize,
    pub held: usize,
    pub buffer: [u8; 6],
    pub released: usize,
    pub written: usize,
}

// Whether an event is controllable (a ranked symbol) and the buffer full.
fn is_full(rank: u8, capacity: usize, held: usize) -> bool
    ensures { result ≡ not (eqb rank 0) && leb capacity held }
{
    if rank == 0 {
        return false;
    }
    capacity <= held
}

// The row of an event, before any search, with so many held and so many accepted before it: 14, no
// symbol; 15, controllable with the buffer full, so that it is refused unless it opens the buffer;
// 23, the input count at its end; 0, none.
pub fn early_row(
    ranks: &[u8; 16],
    symbols: u8,
    capacity: usize,
    held: usize,
    received: InputPlace,
    event: u32,
) -> u8
    requires { symbols ≤ 16 }
    ensures { result ≡ early_row ranks.now symbols capacity held (input_number received) event }
{
    if u32::from(symbols) <= event {
        return 14;
    }
    if is_full(ranks[event as usize], capacity, held) {
        return 15;
    }
    if received.0 == COUNT_END {
        return 23;
    }
    0
}

// The state after an event that goes out; the same state where it is held.
fn moved(next: &[u8; 512], passes: bool, q: usize, e: usize) -> usize
    requires { (q < 32) × (e < 16) }
    ensures { result ≡ cond passes (get_or next.now (q * 16 + e) 0) q }
{
    if passes {
        return usize::from(next[q * 16 + e]);
    }
    q
}

// Puts an event at the end of the buffer, unless it passes: how many it has then.
fn enqueue(passes: bool, e: u8, buffer: &mut [u8; 6], held: usize) -> usize
    requires { passes ≡ false → held < 6 }
    ensures { (result ≡ held + cond passes 0 1)
        × (buffer.new ≡ cond passes buffer.old (set buffer.old held e)) }
{
    if passes {
        return held;
    }
    buffer[held] = e;
    held + 1
}

// Writes an event that goes out: the place after it.
fn pass(passes: bool, e: u8, out: &mut [u8], at: usize) -> usize
    requires { at < length out.old }
    ensures { (result ≡ at + cond passes 1 0)
        × (out.new ≡ cond passes (set out.old at e) out.old) }
{
    if passes {
        out[at] = e;
        return at + 1;
    }
    at
}

// Writes the front part of the buffer that is released.
fn emit<'a>(buffer: &'a [u8; 6], count: usize, out: &mut [u8], at: usize)
    requires { (count ≤ 6) × (at + count ≤ length out.old) }
    ensures { out.new ≡ sets out.old at (take count buffer.now) }
{
    if 0 < count {
        copy(buffer, 0, count, out, at);
    }
}

// What is left of the buffer, moved to its front. (No copy is made of nothing: in a day of many
// releases that is a call each time.)
fn left<'a>(buffer: &'a [u8; 6], held: usize, count: usize) -> [u8; 6]
    requires { (held ≤ 6) × (count ≤ held) × (buffer.now ≡ pad 6 (take held buffer.now)) }
    ensures { result ≡ pad 6 (drop count (take held buffer.now)) }
{
    if count == 0 {
        return *buffer;
    }
    let mut kept = [0u8; 6];
    if count < held {
        copy(buffer, count, held - count, &mut kept, 0);
    }
    kept
}

// An event for which there is room. An uncontrollable one is written and moves the state, a
// controllable one is held at the end; then the release.
pub fn step<'a>(
    next: &'a [u8; 512],
    ranks: &'a [u8; 16],
    k: u32,
    table: &[u32],
    q: usize,
    buffer: [u8; 6],
    held: usize,
    e: u8,
    out: &mut [u8],
    at: usize,
) -> Stepped
    requires { StepRequires next.now ranks.now k table.now q buffer held e (length out.old) at }
    ensures { let rest = rest_in table.now ranks.now k in
        let a = over ranks.now next.now in
        (result ≡ stepped rest a q (take held buffer) e at)
        × (out.new ≡ sets out.old at (effect rest a q (take held buffer) e).emitted) }
{
    let passes = ranks[usize::from(e)] == 0;
    let p = moved(next, passes, q, usize::from(e));
    let mut longer = buffer;
    let all = enqueue(passes, e, &mut longer, held);
    let from = pass(passes, e, out, at);
    let front = release(next, ranks, k, table, p, longer, all);
    emit(&longer, front.count, out, from);
    Stepped {
        row: 0,
        state: front.state,
        held: all - front.count,
        buffer: left(&longer, all, front.count),
        released: front.count,
        written: from + front.count,
    }
}

// The buffer without its first event, and with another behind the rest. (What the array has past
// the buffer's end is 0.)
fn shifted(buffer: [u8; 6], held: usize, e: u8) -> [u8; 6]
    requires { (1 ≤ held) × (held ≤ 6) × (buffer ≡ pad 6 (take held buffer)) }
    ensures { result ≡ pad 6 (drop 1 (take held buffer) ++ e ∷ []) }
{
    let mut later = [buffer[1], buffer[2], buffer[3], buffer[4], buffer[5], 0];
    later[held - 1] = e;
    later
}

// A refused event.
fn refused(row: u8, q: usize, buffer: [u8; 6], held: usize, at: usize) -> Stepped
    ensures { result ≡ record { row = row; state = q; held = held; buffer = buffer; released = 0; written = at } }
{
    Stepped {
        row,
        state: q,
        held,
        buffer,
        released: 0,
        written: at,
    }
}

// A controllable event at a full buffer. It is taken only if a front part that is not empty
// qualifies: the first held event goes, and the search is made for the others with the newcomer
// behind them. Row 15 where it finds none, then row 23; nothing is written before.
pub fn overflow<'a>(
    next: &'a [u8; 512],
    ranks: &'a [u8; 16],
    k: u32,
    table: &[u32],
    q: usize,
    buffer: [u8; 6],
    held: usize,
    received: InputPlace,
    e: u8,
    out: &mut [u8],
    at: usize,
) -> Stepped
    requires { OverflowRequires next.now ranks.now k table.now q buffer held e (length out.old) at }
    ensures { let rest = rest_in table.now ranks.now k in
        let a = over ranks.now next.now in
        (result ≡ overflowed rest a q (take held buffer) (input_number received) e at)
        × (out.new
        ≡ sets out.old at (overflow_emitted rest a q (take held buffer) (input_number received) e)) }
{
    let first = buffer[0];
    let p = moved(next, true, q, usize::from(first));
    let later = shifted(buffer, held, e);
    let front = release(next, ranks, k, table, p, later, held);
    if !front.rests {
        return refused(15, q, buffer, held, at);
    }
    if received.0 == COUNT_END {
        return refused(23, q, buffer, held, at);
    }
    let from = pass(true, first, out, at);
    emit(&later, front.count, out, from);
    Stepped {
        row: 0,
        state: front.state,
        held: held - front.count,
        buffer: left(&later, held, front.count),
        released: front.count + 1,
        written: from + front.count,
    }
}
