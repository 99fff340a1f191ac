#![tactic(auto)]

ghost use Rattle.std.specs.Prelude.{◌≡◌, length, take, drop, ◌<◌, ◌≤◌, ◌+◌, ◌^◌};
ghost use Rattle.std.proofs.lemmas.List.Edits.{sets};
ghost use Rattle.base.specs.Masks.{has};

// A set of states as a number: state q is bit q.

pub fn has(mask: u32, q: usize) -> bool
    requires { q < 32 }
    ensures { result ≡ has mask q }
{
    (mask >> q) % 2 == 1
}

pub fn bit(q: usize) -> u32
    requires { q < 32 }
    ensures { result ≡ 2 ^ q }
{
    1u32 << q
}

// Copies `count` bytes of a list to a place of `out`.
pub fn copy(list: &[u8], from: usize, count: usize, out: &mut [u8], at: usize)
    requires { (from + count ≤ length list.now) × (at + count ≤ length out.old) }
    ensures { out.new ≡ sets out.old at (take count (drop from list.now)) }
{
    out[at..at + count].copy_from_slice(&list[from..from + count]);
}
