#![tactic(auto)]

// The product of two automata (document 02, Card 6: two sheets, both to be obeyed, merged into
// one): what it is and which rows refuse it is defined in specs/, and what holds of it is proved
// here. The crate `product` makes it.
