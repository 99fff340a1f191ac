#![tactic(auto)]

// Theorems only: each claim of the other crates at an example, most at sheet V or W, so that its
// hypotheses are seen to be met.
