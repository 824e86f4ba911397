// The device table (specs/Blocks): eight blocks of 512 words, one for each stream place, and behind them the words of the spent numbers, the figures of
// pending answers and words without use.
#![tactic(auto)]

ghost use Rattle.std.specs.Prelude.{◌≡◌};
ghost use Rattle.model.specs.Tables.{freshen};
ghost use Rattle.table.specs.Blocks.{layout};
ghost use Rattle.protocol.specs.Refusals.{refusal_of};
ghost use Rattle.table.specs.Values.{freshened};

use protocol::Refusal;

mod block;
mod figures;
mod search;
mod spent;

pub use block::{
    DRAIN, FORMAT, INPUTS, LIVE, NUMBER, OUTPUTS, QUEUES_END, TICKET, UNUSED, coded_format,
    free_stream, new_stream, pending_drain, queue_start, set_drain,
};
pub use figures::{
    FIGURES_END, FIGURES_WORDS, FIRST_FIGURE, FIRST_MARK, PendingFigure, TOTAL, TOTAL_AT, add_up,
    mark_of, pending_in, pending_in_all, pending_of_stream, put_figure,
};
pub use search::{find_stream, find_vacant};
pub use spent::{is_spent, spend};

// The stream places, the words of one, and those of all.
pub const PLACES: usize = 8;

pub const PLACE_WORDS: usize = 512;

pub const BLOCKS_WORDS: usize = 4096;

// The words of the spent numbers stand behind the blocks, up to this one.
pub const SPENT_END: usize = 4128;

// The used words of a table: the blocks, the spent numbers, the figures, and words without use.
pub const TABLE_WORDS: usize = 4160;

// Makes the table fresh: where it is too short it is refused and stays as it is, else its used words become zero.
pub fn fresh(table: &mut [u32]) -> Result<(), Refusal>
    ensures { freshened (refusal_of result) table.new ≡ freshen layout table.old }
{
    if table.len() < TABLE_WORDS {
        return Err(Refusal::ShortTable);
    }
    table[0..TABLE_WORDS].fill(0);
    Ok(())
}
