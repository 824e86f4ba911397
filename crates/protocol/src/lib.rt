// The draft's numbers and the small types that all layers share, each once.
#![tactic(auto)]

mod codes;
mod outcome;
mod queue_type;
mod ranges;
mod report;

pub use codes::{AnswerType, ErrorCode};
pub use outcome::{Outcome, Refusal, refused};
pub use queue_type::{NoQueue, QueueType};
pub use ranges::{coded_good, extent_good};
pub use report::FinishReport;

// The bytes of a command's header, and of the answer room that a step must be lent.
pub const HEADER: usize = 8;

pub const ANSWER_ROOM: usize = 1056;

// The stream numbers that a creation may take: those below this one.
pub const STREAM_NUMBERS: u32 = 1024;

// The flags of a buffer: an error, the end of the stream; and both.
pub const ERR: u32 = 1;

pub const EOS: u32 = 2;

pub const ALL_FLAGS: u32 = 3;

// The format of every output queue.
pub const NV12: u32 = 3;

// The planes of a buffer at most.
pub const MOST_PLANES: u32 = 8;
