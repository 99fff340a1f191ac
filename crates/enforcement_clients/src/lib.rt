#![tactic(auto)]

// Theorems about the calls over a list of clients: demand 3, with one published function for each.
