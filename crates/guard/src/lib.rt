// Steps on whatever the host lends: its first tests, then the step on the used words of the table. What stands behind them is never lent on.
// Each states its whole outcome by one equation to the model: `effect` of crates/model/specs/Tables, over the layout of crates/table/specs/Blocks.
#![tactic(auto)]

ghost use Rattle.std.specs.Prelude.{◌≡◌, length};
ghost use Rattle.model.specs.Steps.{command, finish, drained, host_refusal};
ghost use Rattle.model.specs.Tables.{valid, effect};
ghost use Rattle.table.specs.Blocks.{layout};
ghost use Rattle.protocol.specs.Refusals.{refusal_of, outcome_of};
ghost use Rattle.guard.specs.AsEffect.{as_effect};

use protocol::{ANSWER_ROOM, FinishReport, HEADER, Refusal};
use table::TABLE_WORDS;

// A command.
pub fn command(
    table: &mut [u32],
    ticket: u32,
    frame: &[u8],
    answers: &mut [u8],
) -> Result<u32, Refusal>
    ensures { as_effect (outcome_of result) table.new answers.new ≡ effect layout table.old (command ticket frame.now) answers.old }
{
    host_tests(table, answers.len())?;
    if frame.len() < HEADER {
        return Err(Refusal::ShortCommand);
    }
    let written = device::command(&mut table[0..TABLE_WORDS], ticket, frame, answers);
    Ok(written as u32)
}

// A finish report.
pub fn finish(table: &mut [u32], report: FinishReport, answers: &mut [u8]) -> Result<u32, Refusal>
    ensures { as_effect (outcome_of result) table.new answers.new ≡ effect layout table.old (finish report.stream report.queue report.resource report.flags report.timestamp) answers.old }
{
    host_tests(table, answers.len())?;
    device::finish(&mut table[0..TABLE_WORDS], report, answers)
}

// A drained report.
pub fn drained(table: &mut [u32], stream: u32, answers: &mut [u8]) -> Result<u32, Refusal>
    ensures { as_effect (outcome_of result) table.new answers.new ≡ effect layout table.old (drained stream) answers.old }
{
    host_tests(table, answers.len())?;
    device::drained(&mut table[0..TABLE_WORDS], stream, answers)
}

// The host's first tests, in their order: the table's words, the room's bytes, the table's validity.
fn host_tests(table: &[u32], room: usize) -> Result<(), Refusal>
    ensures { refusal_of result ≡ host_refusal (length table.now) room (valid layout table.now) }
{
    if table.len() < TABLE_WORDS {
        return Err(Refusal::ShortTable);
    }
    if room < ANSWER_ROOM {
        return Err(Refusal::ShortRoom);
    }
    if !valid::valid(&table[0..TABLE_WORDS]) {
        return Err(Refusal::InvalidTable);
    }
    Ok(())
}
