// Document 01 with the clear-in-progress mark that change request 5 took out, and the proof that no list of steps from a fresh table tells it from the
// present rule (specs/ClearMark). No crate builds on this one, and it has no code.
#![tactic(auto)]
