// The log as it is run: lines out of what is read in pieces, and a step for each. A program over it only reads, calls and writes.
#![tactic(auto)]

ghost use Rattle.std.specs.Prelude.{◌≡◌, ◌<◌, ◌≤◌, length};
ghost use Rattle.model.specs.Tables.{effect};
ghost use Rattle.table.specs.Blocks.{layout};
ghost use Rattle.protocol.specs.Refusals.{outcome_of};
ghost use Rattle.guard.specs.AsEffect.{as_effect};
ghost use Rattle.line.specs.Line.{framed, count_in};
ghost use Rattle.line.specs.Log.{line_step};
ghost use Rattle.line.specs.Reading.{on_piece, last_step};
ghost use Rattle.replay.specs.Fed.{Logs, Did};

use line::Frame;
pub use line::KeptLine;
use protocol::Refusal;

// What a call on a piece did: the bytes used of it, the bytes written.
#[derive(Clone, Copy, Debug, PartialEq, Eq)]
pub struct Fed {
    pub used: usize,
    pub written: usize,
}

// Takes a piece up to its first byte 10 behind what is kept of the line, and steps the line where it ends.
pub fn feed(table: &mut [u32], kept: &mut KeptLine, piece: &[u8], out: &mut [u8; 2112]) -> Fed
    ensures fits { result.written ≤ length out.new }
    ensures uses { (result.used ≤ length piece.now) × (0 < length piece.now → 0 < result.used) }
    ensures means { Did (on_piece layout (record { table = table.old; line = kept.old }) piece.now) result table.new kept.new out.old out.new }
{
    match kept.gather(piece) {
        Some(used) => {
            let written = log_line(table, kept.bytes(), out);
            kept.clear();
            Fed { used, written }
        }
        None => Fed {
            used: piece.len(),
            written: 0,
        },
    }
}

// Steps the last line where the log ends without byte 10, unless it is empty; returns the bytes written.
pub fn last_line(table: &mut [u32], kept: &KeptLine, out: &mut [u8; 2112]) -> usize
    ensures fits { result ≤ length out.new }
    ensures means { Logs (last_step layout (record { table = table.old; line = kept.now })) result table.new out.old out.new }
{
    if kept.is_empty() {
        return 0;
    }
    log_line(table, kept.bytes(), out)
}

// Steps a line, without its byte 10, on the table, and writes its lines from the start of `out`; returns the place after them.
pub fn log_line(table: &mut [u32], line: &[u8], out: &mut [u8; 2112]) -> usize
    ensures fits { result ≤ length out.new }
    ensures means { Logs (line_step layout table.old line.now) result table.new out.old out.new }
{
    let mut frame = [0u8; 4184];
    let mut answers = [0u8; 1056];
    let Some(found) = line::decode_line(line, &mut frame) else {
        return line::put_refusal(Refusal::NoFrame as u32, out);
    };
    match step_frame(table, found, &frame, &mut answers) {
        Ok(written) => line::put_answers(&answers[..written as usize], out),
        Err(refusal) => line::put_refusal(refusal as u32, out),
    }
}

// Carries out the step of a frame.
fn step_frame(
    table: &mut [u32],
    found: Frame,
    frame: &[u8],
    answers: &mut [u8],
) -> Result<u32, Refusal>
    requires { count_in found ≤ length frame.now }
    ensures { as_effect (outcome_of result) table.new answers.new ≡ effect layout table.old (framed found frame.now) answers.old }
{
    match found {
        Frame::Command { ticket, count } => {
            guard::command(table, ticket, &frame[..count], answers)
        }
        Frame::Finish(report) => guard::finish(table, report, answers),
        Frame::Drained { stream } => guard::drained(table, stream, answers),
    }
}
