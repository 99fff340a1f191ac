#![tactic(auto)]

// What the calls say of a product (document 02, Card 6) and of its parts: a claim in specs/,
// proved here. There is no code.
