// Whether the words of a table are valid: those of a device, and of one that keeps the rules.
#![tactic(auto)]

mod figures;
mod numbers;
mod places;
mod queues;

pub use places::valid;
