#![tactic(auto)]

// The set that rounds of refinement settle on, and how many of them struck a state.
#[derive(Clone, Copy)]
pub struct Settled {
    pub set: u32,
    pub rounds: u32,
}

// The two sets of a buffer (document 01's held list), a state q as bit q, and the rounds that
// found the first: `winning` is S, where the monitor may rest; `intermediate` is I, where it must
// release its first held event.
#[derive(Clone, Copy)]
pub struct Sets {
    pub winning: u32,
    pub intermediate: u32,
    pub rounds: u32,
}
