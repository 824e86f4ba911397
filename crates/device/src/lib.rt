// Steps on the used words of a table: the place of the step's stream is found and lent, and the step is served there.
#![tactic(auto)]

mod commands;
mod places;
mod reports;

pub use commands::command;
pub use reports::{drained, finish};
