#![tactic(auto)]

// Theorems only: the monitor of a product obeys both its parts (document 02, Card 6).
