#![tactic(auto)]

// The game (document 01's second judge): may we rest here, and can we come to rest? The two
// questions are put here; the crate `game_judge` answers both for small automata.
mod play;

pub use play::{can_rest, may_rest};

// Both answers.
#[derive(Clone, Copy)]
pub struct Verdict {
    pub may_rest: bool,
    pub can_rest: bool,
}
