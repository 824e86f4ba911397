// The test of a table, place by place: its words are those of a device, and the device keeps the rules.
ghost use Rattle.std.specs.Prelude.{◌≡◌, true, [], ◌+◌, length, get_or};
ghost use Rattle.laws.specs.Tests.{all_below};
ghost use Rattle.model.specs.Numbers.{table_words, stream_places};
ghost use Rattle.model.specs.Device.{Place};
ghost use Rattle.model.specs.WellFormed.{good_place};
ghost use Rattle.model.specs.Tables as tables;
ghost use Rattle.table.specs.Spent.{spent_size};
ghost use Rattle.table.specs.Figures.{figures_size, first_mark, first_figure};
ghost use Rattle.table.specs.Blocks.{place_words, blocks_size, layout};
ghost use Rattle.table.specs.Search.{has_all_slots};
ghost use Rattle.valid.specs.Rules.{head_stands, place_stands, place_right, blocks_right};

use crate::figures::total_stands;
use crate::numbers::numbers_distinct;
use crate::queues::{all_zero, queue_stands, queue_well};
use protocol::coded_good;
use table::{
    BLOCKS_WORDS, DRAIN, FIGURES_END, FIRST_FIGURE, FIRST_MARK, FORMAT, INPUTS, LIVE, NUMBER,
    OUTPUTS, PLACE_WORDS, PLACES, QUEUES_END, SPENT_END, TABLE_WORDS, TICKET, TOTAL_AT, UNUSED,
};

// Whether eight words, the first of them 1, are the head of a live stream.
fn head_stands(h: &[u32]) -> bool
    requires { (length h.now ≡ 8) × (get_or h.now 0 0 ≡ 1) }
    ensures { result ≡ head_stands h.now }
{
    match h[DRAIN] {
        0 => all_zero(&h[TICKET..INPUTS]),
        1 => all_zero(&h[UNUSED..INPUTS]),
        _ => false,
    }
}

// Whether a block's words are those of the place that they stand for.
#[tactic(auto, using(crate::proofs::PlaceStands::block_laws))]
fn place_stands(b: &[u32; PLACE_WORDS]) -> bool
    ensures { result ≡ place_stands b.now }
{
    if b[LIVE] != 1 {
        return all_zero(b);
    }
    head_stands(&b[LIVE..INPUTS])
        && queue_stands(&b[INPUTS..OUTPUTS])
        && queue_stands(&b[OUTPUTS..QUEUES_END])
        && all_zero(&b[QUEUES_END..PLACE_WORDS])
}

// Whether a block's stream keeps the rules.
fn place_well(b: &[u32; PLACE_WORDS]) -> bool
    ensures { (p : Place) → has_all_slots p ≡ true → b.now ≡ place_words p → result ≡ good_place p }
{
    b[LIVE] == 0
        || (coded_good(b[FORMAT])
            && queue_well(&b[INPUTS..OUTPUTS])
            && queue_well(&b[OUTPUTS..QUEUES_END]))
}

// Whether a block's words are those of a place that keeps the rules, the number of its stream being spent, and its mark and its figure are its own.
// A vacant block is told by its first word, so that most of the tests are left out.
#[tactic(auto, using(crate::proofs::PlaceStands::vacant_right))]
fn place_valid(b: &[u32; PLACE_WORDS], spent: &[u32], mark: u32, figure: u32) -> bool
    requires { length spent.now ≡ spent_size }
    ensures { result ≡ place_right spent.now mark figure b.now }
{
    if b[LIVE] == 0 {
        return mark == 0 && figure == 0 && all_zero(b);
    }
    place_stands(b)
        && place_well(b)
        && table::is_spent(spent, b[NUMBER])
        && mark == table::mark_of(b)
        && figure == table::pending_in(b)
}

// Whether the words of eight blocks are those of such places, with the marks and the figures, and no stream number stands twice.
fn blocks_valid(b: &[u32], spent: &[u32], w: &[u32]) -> bool
    requires { (length b.now ≡ blocks_size) × (length spent.now ≡ spent_size) × (length w.now ≡ figures_size) }
    ensures { result ≡ blocks_right spent.now w.now b.now }
{
    let (blocks, _) = b.as_chunks();
    (0..PLACES).all(|k| place_valid(&blocks[k], spent, w[FIRST_MARK + k], w[FIRST_FIGURE + k]))
        && numbers_distinct(blocks)
}

// Whether the used words of a table are valid: its blocks are, with their marks and figures, the total is the sum of the figures, and the words without use before and
// behind the figures are zero.
pub fn valid(t: &[u32]) -> bool
    requires { length t.now ≡ table_words }
    ensures { result ≡ tables.valid layout t.now }
{
    let figures = &t[TOTAL_AT..FIGURES_END];
    blocks_valid(&t[0..BLOCKS_WORDS], &t[BLOCKS_WORDS..SPENT_END], figures)
        && all_zero(&t[SPENT_END..TOTAL_AT])
        && total_stands(figures)
        && all_zero(&t[FIGURES_END..TABLE_WORDS])
}
