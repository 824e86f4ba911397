// Whether words stand for a queue, and whether the queue keeps the rules.
ghost use Rattle.std.specs.Prelude.{◌≡◌, ◌==◌, ◌&&◌, length};
ghost use Rattle.laws.specs.Lists.{same};
ghost use Rattle.laws.specs.Parts.{zeros};
ghost use Rattle.model.specs.Device.{Queue};
ghost use Rattle.model.specs.Commands.{good_extent};
ghost use Rattle.model.specs.WellFormed.{distinct_slots};
ghost use Rattle.queue.specs.Words.{slot_words, queue_words, decode_slot, decode_queue};

use crate::numbers::numbers_distinct;
use protocol::extent_good;
use queue::{
    DEQUEUED, FIRST_SLOT, FREE, HEIGHT, QUEUE_WORDS, QUEUED, SLOT_NUMBER, SLOT_SIZE, SLOT_STATE,
    SLOT_TICKET, SPARE, WIDTH,
};

// Whether all words are zero. It never stops early, so that the compiler takes several words at once.
// The step states what it gives: a wrong one is refused there, and not in a search of the caller's.
pub fn all_zero(s: &[u32]) -> bool
    ensures { result ≡ same s.now (zeros (length s.now)) }
{
    s.iter().fold(
        true,
        |zero, w|
            ensures { result ≡ (zero && (w.now == 0)) }
        { zero & (*w == 0) },
    )
}

// Whether five words are those of the slot that they stand for.
#[tactic(auto, using(crate::proofs::QueueStands::high_words))]
fn slot_stands(w: &[u32; SLOT_SIZE]) -> bool
    ensures { result ≡ same w.now (slot_words (decode_slot w.now)) }
{
    match w[SLOT_STATE] {
        FREE => all_zero(&w[SLOT_NUMBER..SLOT_SIZE]),
        QUEUED => true,
        // Created or Dequeued.
        ..=DEQUEUED => all_zero(&w[SLOT_TICKET..SLOT_SIZE]),
        _ => false,
    }
}

// Whether 84 words are those of the queue that they stand for.
pub fn queue_stands(q: &[u32]) -> bool
    requires { length q.now ≡ 84 }
    ensures { result ≡ same q.now (queue_words (decode_queue q.now)) }
{
    let (slots, _) = q[FIRST_SLOT..QUEUE_WORDS].as_chunks();
    q[SPARE] == 0 && slots.iter().all(slot_stands)
}

// Whether a queue's width and height are good, and no resource number stands in it twice.
pub fn queue_well(q: &[u32]) -> bool
    requires { length q.now ≡ 84 }
    ensures { (Q : Queue) → q.now ≡ queue_words Q → result ≡ (good_extent Q.width && (good_extent Q.height && distinct_slots Q.slots)) }
{
    let (slots, _) = q[FIRST_SLOT..QUEUE_WORDS].as_chunks::<SLOT_SIZE>();
    extent_good(q[WIDTH]) && extent_good(q[HEIGHT]) && numbers_distinct(slots)
}
