// The figures of pending answers: their words, counting in a block, and the questions.
ghost use Rattle.std.specs.Prelude.{◌≡◌, IfSome, suc, ◌%◌, ◌^◌, ◌<◌, ◌≤◌, true, List, length, ◌==◌, slice_set};
ghost use Rattle.laws.specs.Lists.{all_of, total};
ghost use Rattle.model.specs.Numbers.{table_words, stream_places};
ghost use Rattle.model.specs.Device.{Place, pending_at};
ghost use Rattle.table.specs.Blocks.{place_words};
ghost use Rattle.table.specs.Search.{has_all_slots};
ghost use Rattle.table.specs.Figures.{figures_size, place_mark, figure_words, marked_place, not_read, asked_in_all, asked_of_stream};

use crate::block::{DRAIN, INPUTS, LIVE, NUMBER, OUTPUTS, QUEUES_END};
use crate::{PLACES, TABLE_WORDS};
use protocol::Refusal;

// The words of the table: the total, the marks of the places, their figures, and the first word behind them.
pub const TOTAL_AT: usize = 4129;

const MARKS_AT: usize = 4130;

const PLACE_FIGURES_AT: usize = 4138;

pub const FIGURES_END: usize = 4146;

// The same, counted from the first of them.
pub const TOTAL: usize = 0;

pub const FIRST_MARK: usize = 1;

pub const FIRST_FIGURE: usize = 9;

pub const FIGURES_WORDS: usize = 17;

// What a question gives: the number of its refusal, or 0, how many answers are pending, and how many words of the table were read. It crosses to the host as it is.
#[repr(C)]
#[derive(Clone, Copy, Debug, PartialEq, Eq)]
pub struct PendingFigure {
    pub refusal: u32,
    pub pending: u32,
    pub reads: u32,
}

// The mark of a block: 0 where it is vacant, else the number of its stream and 1.
pub fn mark_of(b: &[u32]) -> u32
    requires { length b.now ≡ 512 }
    ensures { (p : Place) → b.now ≡ place_words p → result ≡ place_mark p % 2 ^ 32 }
{
    if b[LIVE] == 0 {
        return 0;
    }
    b[NUMBER].wrapping_add(1)
}

// Whether a word is the mark of that stream number. The word of a vacant place is nobody's.
fn is_mark(word: u32, number: u32) -> bool
    ensures { result ≡ (word == suc number) }
{
    word.checked_sub(1) == Some(number)
}

// How many answers are pending to the stream of a block.
pub fn pending_in(b: &[u32]) -> u32
    requires { length b.now ≡ 512 }
    ensures { (p : Place) → has_all_slots p ≡ true → b.now ≡ place_words p → result ≡ pending_at p }
{
    if b[LIVE] == 0 {
        return 0;
    }
    let buffers = queue::count_queued(&b[INPUTS..OUTPUTS])
        + queue::count_queued(&b[OUTPUTS..QUEUES_END]);
    if b[DRAIN] == 0 {
        return buffers;
    }
    buffers + 1
}

// The sum of all words, modulo 2^32.
pub fn add_up(w: &[u32]) -> u32
    ensures { result ≡ total w.now % 2 ^ 32 }
{
    let mut all: u32 = 0;
    for n in w {
        all = all.wrapping_add(*n);
    }
    all
}

// The mark and the figure of a place are written, and the total with them.
pub fn put_figure(w: &mut [u32], k: usize, mark: u32, pending: u32)
    requires { (length w.old ≡ figures_size) × (k < stream_places) }
    ensures { (ps : List Place) (p : Place) → length ps ≡ stream_places → all_of has_all_slots (slice_set ps k p) ≡ true → w.old ≡ figure_words ps → mark ≡ place_mark p → pending ≡ pending_at p → w.new ≡ figure_words (slice_set ps k p) }
{
    w[FIRST_MARK + k] = mark;
    w[FIRST_FIGURE + k] = pending;
    w[TOTAL] = add_up(&w[FIRST_FIGURE..FIGURES_WORDS]);
}

// How many answers are pending in all. Of the table one word is read.
pub fn pending_in_all(table: &[u32]) -> PendingFigure
    ensures { result ≡ asked_in_all table.now }
{
    if table.len() < TABLE_WORDS {
        return not_read();
    }
    PendingFigure {
        refusal: 0,
        pending: table[TOTAL_AT],
        reads: 1,
    }
}

// How many answers are pending to a stream. Of the table the mark of each place up to the stream's is read, and its figure.
pub fn pending_of_stream(table: &[u32], stream: u32) -> PendingFigure
    ensures { result ≡ asked_of_stream table.now stream }
{
    if table.len() < TABLE_WORDS {
        return not_read();
    }
    let Some(k) = marked_place(table, stream) else {
        return PendingFigure {
            refusal: 0,
            pending: 0,
            reads: PLACES as u32,
        };
    };
    PendingFigure {
        refusal: 0,
        pending: table[PLACE_FIGURES_AT + k],
        reads: k as u32 + 2,
    }
}

// The place whose mark is that of the stream number; they are looked at in order.
fn marked_place(table: &[u32], number: u32) -> Option<usize>
    requires { table_words ≤ length table.now }
    ensures within { IfSome result (λ k. k < 8) }
    ensures found { result ≡ marked_place table.now number }
{
    (0..PLACES).find(|k| is_mark(table[MARKS_AT + *k], number))
}

// A table that is too short: nothing is read.
fn not_read() -> PendingFigure
    ensures { result ≡ not_read }
{
    PendingFigure {
        refusal: Refusal::ShortTable as u32,
        pending: 0,
        reads: 0,
    }
}
