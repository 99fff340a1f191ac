#![tactic(auto)]

// Theorems only: each claim on the calls over a list of clients at an example, most at sheet W.
