// What completes pending answers on the block of one live stream: the back end's reports, a clear, a destroy.
#![tactic(auto)]

mod drains;
mod reports;
mod stops;

pub use reports::{drained, finish};
pub use stops::{clear, destroy};
