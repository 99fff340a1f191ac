#![tactic(auto)]

// The cases that document 01 marks, as rows of one list under one claim (specs/Cases.antt).
