#![tactic(auto)]

// The automaton as bytes (document 01's sheet): the format is defined in specs/, and what holds of
// it is proved here. The crate `automaton_read` reads it, `automaton_write` writes it.
