#![tactic(auto)]

// What the device means: its records, one step of one stream, lists of steps, the ledger of pending answers. Definitions and theorems, no code.
