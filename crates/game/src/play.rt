// The two questions, which put each other, over n states and m symbols. The events still held
// stand from `at` to `held`.
ghost use Rattle.std.specs.Prelude.{◌≡◌, ◌<◌, ◌≤◌};
ghost use Rattle.automaton.specs.Arrays.{goes};
ghost use Rattle.game.specs.Game.{may_rest, can_rest};
ghost use Rattle.game.specs.Arena.{arena, held_from, PlayRequires};

// The next state of q under e.
fn step(next: &[u8; 512], q: usize, e: usize) -> usize
    requires { (q < 32) × (e < 16) }
    ensures { result ≡ goes next.now q e }
{
    usize::from(next[q * 16 + e])
}

// May we rest in q? An accepting state and, with rounds left, after each uncontrollable symbol
// coming to rest with one round fewer.
#[cycle(can_rest_may_rest)]
pub fn may_rest<'a>(
    next: &'a [u8; 512],
    classes: &'a [u8; 16],
    accepting: &'a [u8; 32],
    buffer: &'a [u8; 6],
    n: usize,
    m: usize,
    held: usize,
    at: usize,
    q: usize,
    rounds: usize,
) -> bool
    requires { PlayRequires (arena n m classes.now accepting.now next.now) buffer.now held × (at ≤ held) × (q < n) }
    ensures { result ≡ may_rest (arena n m classes.now accepting.now next.now)
        (held_from buffer.now held at) rounds q }
{
    if accepting[q] != 1 {
        return false;
    }
    if rounds == 0 {
        return true;
    }
    for e in 0..m {
        if classes[e] != 1 {
            let t = step(next, q, e);
            let left = rounds - 1;
            if !can_rest(next, classes, accepting, buffer, n, m, held, at, t, left) {
                return false;
            }
        }
    }
    true
}

// Can we come to rest from q? Resting here, or releasing the first held event and coming to rest
// with n rounds.
#[cycle(can_rest_may_rest)]
pub fn can_rest<'a>(
    next: &'a [u8; 512],
    classes: &'a [u8; 16],
    accepting: &'a [u8; 32],
    buffer: &'a [u8; 6],
    n: usize,
    m: usize,
    held: usize,
    at: usize,
    q: usize,
    rounds: usize,
) -> bool
    requires { PlayRequires (arena n m classes.now accepting.now next.now) buffer.now held × (at ≤ held) × (q < n) }
    ensures { result ≡ can_rest (arena n m classes.now accepting.now next.now)
        (held_from buffer.now held at) rounds q }
{
    if may_rest(next, classes, accepting, buffer, n, m, held, at, q, rounds) {
        return true;
    }
    if at == held {
        return false;
    }
    let e = usize::from(buffer[at]);
    let t = step(next, q, e);
    can_rest(next, classes, accepting, buffer, n, m, held, at + 1, t, n)
}
