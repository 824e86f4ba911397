// The places and the spent numbers in the used words of a table: searches, a new stream, and the figures after a change.
ghost use Rattle.std.specs.Prelude.{◌≡◌, IfSome, false, ◌<◌, length, set};
ghost use Rattle.std.specs.Prelude.{None, Some};
ghost use Rattle.model.specs.Numbers.{table_words, stream_places, stream_numbers};
ghost use Rattle.model.specs.Device.{Place, occupied, Device, new_stream, record_of, spend};
ghost use Rattle.model.specs.Steps.{around};
ghost use Rattle.table.specs.Blocks.{encode, with_places, with_spent};
ghost use Rattle.table.specs.Search.{find_stream, find_vacant};
ghost use Rattle.device.specs.Served.{Encodes, Unsettled};

use protocol::STREAM_NUMBERS;
use table::{BLOCKS_WORDS, FIGURES_END, PLACE_WORDS, SPENT_END, TOTAL_AT};

// The place of the live stream with that number.
pub fn live_place(t: &[u32], number: u32) -> Option<usize>
    requires { length t.now ≡ table_words }
    ensures within { IfSome result (λ k. k < 8) }
    ensures found { (d : Device) → Encodes t.now d → result ≡ find_stream number d.places }
{
    table::find_stream(&t[0..BLOCKS_WORDS], number)
}

// The lowest vacant place.
pub fn vacant_place(t: &[u32]) -> Option<usize>
    requires { length t.now ≡ table_words }
    ensures within { IfSome result (λ k. k < 8) }
    ensures found { (d : Device) → Encodes t.now d → result ≡ find_vacant d.places }
{
    table::find_vacant(&t[0..BLOCKS_WORDS])
}

// Whether a creation may not take the number: it is above the last, or spent.
#[tactic(auto, using(crate::proofs::Served::above_unusable))]
pub fn unusable(t: &[u32], number: u32) -> bool
    requires { length t.now ≡ table_words }
    ensures below { result ≡ false → number < stream_numbers }
    ensures told { (d : Device) → Encodes t.now d → result ≡ (around d number).unusable }
{
    if STREAM_NUMBERS <= number {
        return true;
    }
    table::is_spent(&t[BLOCKS_WORDS..SPENT_END], number)
}

// A new stream in the lowest vacant place, whose number is spent with it. The figures are not settled yet.
pub fn add_stream(t: &mut [u32], k: usize, number: u32, format: u32)
    requires { (length t.old ≡ table_words) × (k < stream_places) × (number < stream_numbers) }
    ensures size { length t.new ≡ table_words }
    ensures added { (d : Device) → Encodes t.old d → record_of number d.places ≡ None → find_vacant d.places ≡ Some k → Unsettled t.new (with_spent (spend number d.spent) d) k (occupied number (new_stream format)) }
{
    let at = PLACE_WORDS * k;
    table::spend(&mut t[BLOCKS_WORDS..SPENT_END], number);
    table::new_stream(&mut t[at..at + PLACE_WORDS], number, format);
}

// After a change in the block of place k its mark, its figure and the total are those of the blocks again.
pub fn settle(t: &mut [u32], k: usize)
    requires { (length t.old ≡ table_words) × (k < stream_places) }
    ensures { (d : Device) (p : Place) → Unsettled t.old d k p → t.new ≡ encode (with_places (set d.places k p) d) }
{
    let at = PLACE_WORDS * k;
    let mark = table::mark_of(&t[at..at + PLACE_WORDS]);
    let pending = table::pending_in(&t[at..at + PLACE_WORDS]);
    table::put_figure(&mut t[TOTAL_AT..FIGURES_END], k, mark, pending);
}
