// The command core of a virtio-video decoder, for a host that links it: four functions of a device, two questions to it and one function of logs, safe on any
// bytes and words. Each states its whole outcome by one equation: the four to the model, `freshen` and `effect` of crates/model/specs/Tables, and the check of a log to
// `log_verdict` of crates/log_verdict/specs/Checking, over the layout of crates/table/specs/Blocks; the questions to crates/table/specs/Figures.
#![tactic(auto)]

ghost use Rattle.std.specs.Prelude.{◌≡◌};
ghost use Rattle.model.specs.Steps.{command, finish, drained};
ghost use Rattle.model.specs.Tables.{freshen, effect};
ghost use Rattle.table.specs.Blocks.{layout};
ghost use Rattle.table.specs.Values.{freshened};
ghost use Rattle.table.specs.Figures.{asked_in_all, asked_of_stream};
ghost use Rattle.guard.specs.AsEffect.{as_effect};
ghost use Rattle.log_verdict.specs.Checking.{log_verdict};
ghost use Rattle.checker.specs.Meant.{numbered_by};

use checker::NumberedVerdict;
use protocol::{FinishReport, Outcome};
use table::PendingFigure;

// Makes a table fresh: the used words are those of no stream.
#[unsafe(no_mangle)]
pub extern "C" fn virtio_video_fresh(table: &mut [u32]) -> u32
    ensures { freshened result table.new ≡ freshen layout table.old }
{
    match table::fresh(table) {
        Ok(()) => 0,
        Err(refusal) => refusal as u32,
    }
}

// A command of the guest, under a ticket: its answers, and those to what it stops, are written to the room.
#[unsafe(no_mangle)]
pub extern "C" fn virtio_video_command(
    table: &mut [u32],
    ticket: u32,
    frame: &[u8],
    answers: &mut [u8],
) -> Outcome
    ensures { as_effect result table.new answers.new ≡ effect layout table.old (command ticket frame.now) answers.old }
{
    guard::command(table, ticket, frame, answers).into()
}

// The back end reports that it has finished a buffer: its answer is written to the room.
#[unsafe(no_mangle)]
pub extern "C" fn virtio_video_finish(
    table: &mut [u32],
    stream: u32,
    queue: u32,
    resource: u32,
    flags: u32,
    timestamp: u64,
    answers: &mut [u8],
) -> Outcome
    ensures { as_effect result table.new answers.new ≡ effect layout table.old (finish stream queue resource flags timestamp) answers.old }
{
    let report = FinishReport {
        stream,
        queue,
        resource,
        flags,
        timestamp,
    };
    guard::finish(table, report, answers).into()
}

// The back end reports that it has drained a stream: the pending answer is written to the room.
#[unsafe(no_mangle)]
pub extern "C" fn virtio_video_drained(
    table: &mut [u32],
    stream: u32,
    answers: &mut [u8],
) -> Outcome
    ensures { as_effect result table.new answers.new ≡ effect layout table.old (drained stream) answers.old }
{
    guard::drained(table, stream, answers).into()
}

// How many answers are pending in all, and how many words of the table were read for it.
#[unsafe(no_mangle)]
pub extern "C" fn virtio_video_pending_in_all(table: &[u32]) -> PendingFigure
    ensures { result ≡ asked_in_all table.now }
{
    table::pending_in_all(table)
}

// How many answers are pending to a stream, and how many words of the table were read for it.
#[unsafe(no_mangle)]
pub extern "C" fn virtio_video_pending_of_stream(table: &[u32], stream: u32) -> PendingFigure
    ensures { result ≡ asked_of_stream table.now stream }
{
    table::pending_of_stream(table, stream)
}

// The verdict on a log of questions and answers, such as another maker's device gave: its number, and the line that is named.
#[unsafe(no_mangle)]
pub extern "C" fn virtio_video_check_log(log: &[u8]) -> NumberedVerdict
    ensures { result ≡ numbered_by (log_verdict layout log.now) }
{
    checker::numbered_verdict(log)
}
