#![tactic(auto)]

// The release, to be read beside κ in Definition 3.10 of source document 001: of the buffer's
// front parts in turn from the empty one, those that qualify (the paper's G), then the longest.
ghost use Rattle.std.specs.Prelude.{◌≡◌, cond, [], ℕ, ◌*◌, ◌≤◌, ◌<◌, get_or, length, set, take, replicate};
ghost use Rattle.base.specs.Each.{last_or};
ghost use Rattle.base.specs.Pad.{pad};
ghost use Rattle.monitor_rule.specs.Step.{qualifying};
ghost use Rattle.monitor_rule.specs.Fronts.{index_in, rest_in, winning_sets, rest_among, over, front};
ghost use Rattle.monitor_rule.specs.Fronts.{found_in, kept_in, ReleaseRequires};

use base::has;
use monitor_rule::{Found, Front};

// How many front parts six events have: those of 0 to 6.
const FRONTS: usize = 7;

// The sets of the table for what each front part leaves, in turn from the empty front part, into
// an array that is 0. A set stands at twice the number of what is left; the number grows by each
// event from the buffer's end on.
fn winning_sets<'a>(
    ranks: &'a [u8; 16],
    k: u32,
    table: &[u32],
    buffer: [u8; 6],
    held: usize,
    winning: &mut [u32; FRONTS],
)
    requires { (held ≤ 6) × (k ≤ 8) × ((e : ℕ) → get_or ranks.now e 0 ≤ 8) × ((i : ℕ) → get_or buffer i 0 < 16)
        × (2 * index_in ranks.now k (take held buffer) < length table.now) × (winning.old ≡ replicate 7 0) }
    ensures { winning.new ≡ pad 7 (winning_sets table.now ranks.now k (take held buffer)) }
{
    let mut index: u32 = 0;
    let mut weight: u32 = 1;
    winning[held] = table[0];
    for i in (0..held).rev() {
        index += u32::from(ranks[usize::from(buffer[i])]) * weight;
        weight *= k;
        winning[i] = table[2 * (index as usize)];
    }
}

// Adds the length r of a front part, which leads to p, to those found if it qualifies.
fn keep(qualifies: bool, r: usize, p: usize, found: Found, lengths: &mut [u8; FRONTS]) -> Found
    requires { (found.listed < 7) × (r < 256) }
    ensures { (result ≡ kept_in qualifies p found)
        × (lengths.new ≡ cond qualifies (set lengths.old found.listed r) lengths.old) }
{
    if qualifies {
        let listed = found.listed;
        lengths[listed] = r as u8;
        return Found {
            listed: listed + 1,
            state: p,
        };
    }
    found
}

// Asks all front parts in turn, from the empty one to the whole buffer: the lengths of those that
// qualify, into an array that is 0. `winning` has, for each front part, the states in which the
// monitor may rest with what is left. (Document 02 words it as one loop from 0 to the whole hold,
// left nowhere else: a `for` would ask the whole buffer behind the loop.)
fn search<'a>(
    next: &'a [u8; 512],
    winning: &'a [u32; FRONTS],
    q: usize,
    buffer: [u8; 6],
    held: usize,
    lengths: &mut [u8; FRONTS],
) -> Found
    requires { (held ≤ 6) × (q < 32) × ((i : ℕ) → get_or next.now i 0 < 32) × ((i : ℕ) → get_or buffer i 0 < 16)
        × (lengths.old ≡ replicate 7 0) }
    ensures { let rest = rest_among winning.now held in
        let a = over [] next.now in
        (result ≡ found_in rest a q (take held buffer))
        × (lengths.new ≡ pad 7 (qualifying rest a q (take held buffer))) }
{
    let mut found = Found {
        listed: 0,
        state: q,
    };
    let mut p = q;
    let mut r: usize = 0;
    loop {
        found = keep(has(winning[r], p), r, p, found, lengths);
        if r == held {
            break found;
        }
        p = usize::from(next[p * 16 + usize::from(buffer[r])]);
        r += 1;
    }
}

// The lengths of all front parts that qualify by the table, in turn from the empty one, into an
// array that is 0.
fn qualifying<'a>(
    next: &'a [u8; 512],
    ranks: &'a [u8; 16],
    k: u32,
    table: &[u32],
    q: usize,
    buffer: [u8; 6],
    held: usize,
    lengths: &mut [u8; FRONTS],
) -> Found
    requires { ReleaseRequires next.now ranks.now k table.now q buffer held × (lengths.old ≡ replicate 7 0) }
    ensures { let rest = rest_in table.now ranks.now k in
        let a = over ranks.now next.now in
        (result ≡ found_in rest a q (take held buffer))
        × (lengths.new ≡ pad 7 (qualifying rest a q (take held buffer))) }
{
    let mut winning = [0u32; FRONTS];
    winning_sets(ranks, k, table, buffer, held, &mut winning);
    search(next, &winning, q, buffer, held, lengths)
}

// The last of the first `count` lengths, which is the longest; 0 where there is none.
fn longest(lengths: &[u8], count: usize) -> usize
    requires { count ≤ length lengths.now }
    ensures { result ≡ last_or 0 (take count lengths.now) }
{
    if count == 0 {
        return 0;
    }
    usize::from(lengths[count - 1])
}

// The longest front part of the buffer that leads to where the monitor may rest with what is left,
// and whether there is one; k is the number of controllable symbols.
pub fn release<'a>(
    next: &'a [u8; 512],
    ranks: &'a [u8; 16],
    k: u32,
    table: &[u32],
    q: usize,
    buffer: [u8; 6],
    held: usize,
) -> Front
    requires { ReleaseRequires next.now ranks.now k table.now q buffer held }
    ensures { let rest = rest_in table.now ranks.now k in
        let a = over ranks.now next.now in
        result ≡ front rest a q (take held buffer) }
{
    let mut lengths = [0u8; FRONTS];
    let found = qualifying(next, ranks, k, table, q, buffer, held, &mut lengths);
    Front {
        count: longest(&lengths, found.listed),
        state: found.state,
        rests: found.listed != 0,
    }
}

// Whether the monitor may rest in a state with a buffer: with what the empty front part leaves.
pub fn rests<'a>(
    ranks: &'a [u8; 16],
    k: u32,
    table: &[u32],
    q: usize,
    buffer: [u8; 6],
    held: usize,
) -> bool
    requires { (held ≤ 6) × (k ≤ 8) × ((e : ℕ) → get_or ranks.now e 0 ≤ 8) × ((i : ℕ) → get_or buffer i 0 < 16)
        × (q < 32) × (2 * index_in ranks.now k (take held buffer) < length table.now) }
    ensures { result ≡ rest_in table.now ranks.now k (take held buffer) q }
{
    let mut winning = [0u32; FRONTS];
    winning_sets(ranks, k, table, buffer, held, &mut winning);
    has(winning[0], q)
}
