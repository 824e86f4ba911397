#![tactic(auto)]

// Definitions and laws that every layer shares: tests, lists, ascending order, parts, runs of stores. It has no code.
