// The log's lines: hexadecimal text to a step or a refusal and back, and lines split from what is read in pieces.
#![tactic(auto)]

mod decoding;
mod hex;
mod splitting;
mod writing;

pub use decoding::decode_line;
use protocol::FinishReport;
pub use splitting::{KeptLine, LINE_ROOM, first_line};
pub use writing::{put_answers, put_refusal};

// Every line ends with this byte, read or written.
const NEWLINE: u8 = 10;

// A frame. A command's bytes stand in the buffer that was lent, from its start.
#[derive(Clone, Copy, Debug, PartialEq, Eq)]
pub enum Frame {
    Command { ticket: u32, count: usize },
    Finish(FinishReport),
    Drained { stream: u32 },
}
