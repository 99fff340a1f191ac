#![tactic(auto)]

// What the programs `pack` and `unpack` write on an input.
mod programs;

pub use programs::{pack_input, unpack_input};
