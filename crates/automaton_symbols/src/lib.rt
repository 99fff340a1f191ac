#![tactic(auto)]

// What is asked of the symbols' classes: how many symbols are controllable, their ranks, and the
// list of the uncontrollable ones. The classes are lent.
ghost use Rattle.std.specs.Prelude.{◌≡◌, ◌≤◌};
ghost use Rattle.automaton.specs.Arrays.{controllable_in};
ghost use Rattle.automaton_symbols.specs.Symbols.{ranking_of, free_of};

// The controllable symbols: how many there are, and the rank of each from 1 (0: uncontrollable).
#[derive(Clone, Copy)]
pub struct Ranking {
    pub count: u32,
    pub ranks: [u8; 16],
}

// Some of the symbols, in rising order: the first `count` of the list.
#[derive(Clone, Copy)]
pub struct Symbols {
    pub count: usize,
    pub list: [u8; 16],
}

// How many of the first m symbols are controllable.
pub fn controllable_in(classes: &[u8; 16], m: usize) -> usize
    requires { m ≤ 16 }
    ensures { result ≡ controllable_in classes.now m }
{
    classes[..m].iter().filter(|&&c| c == 1).count()
}

// How many of the first m symbols are controllable, and the rank of each.
pub fn rank_symbols(classes: &[u8; 16], m: usize) -> Ranking
    requires { m ≤ 16 }
    ensures { result ≡ ranking_of classes.now m }
{
    let mut ranks = [0u8; 16];
    let mut count: u8 = 0;
    for e in 0..m {
        if classes[e] == 1 {
            count = count + 1;
            ranks[e] = count;
        }
    }
    Ranking {
        count: u32::from(count),
        ranks,
    }
}

// The uncontrollable ones of m symbols.
pub fn uncontrollable(classes: &[u8; 16], m: usize) -> Symbols
    requires { m ≤ 16 }
    ensures { result ≡ free_of classes.now m }
{
    let mut list = [0u8; 16];
    let mut count: usize = 0;
    for e in 0..m {
        if classes[e] != 1 {
            list[count] = e as u8;
            count = count + 1;
        }
    }
    Symbols { count, list }
}
