#![tactic(auto)]

// Theorems only: a list of calls through the interface for C, where a configuration lies in lent
// bytes from call to call.
