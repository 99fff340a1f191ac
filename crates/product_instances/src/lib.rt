#![tactic(auto)]

// Theorems only: each claim on the product of two automata at an example, most at sheet V and a
// second sheet on its symbols.
