#![tactic(auto)]

// One event and the release, as definitions and what holds of them; the crates `monitor_release`
// and `monitor_step` have the code.

// The front part of a buffer that is released: its length, the state after it, and whether the
// monitor may rest there with what is left. (It may not where no front part qualifies.)
#[derive(Clone, Copy)]
pub struct Front {
    pub count: usize,
    pub state: usize,
    pub rests: bool,
}

// What the search leaves beside the lengths of the front parts that qualify: how many are listed,
// and the state after the longest of them (the state before, where there is none).
#[derive(Clone, Copy)]
pub struct Found {
    pub listed: usize,
    pub state: usize,
}
