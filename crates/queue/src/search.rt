// Searches of a queue's slots.
ghost use Rattle.std.specs.Prelude.{◌≡◌, not, ◌+◌, ◌<◌, ◌≤◌, length, drop, IfSome};
ghost use Rattle.laws.specs.Lists.{is_empty};
ghost use Rattle.model.specs.Device.{Queue, queued_in, no_resource};
ghost use Rattle.queue.specs.Words.{queue_words};
ghost use Rattle.queue.specs.Search.{find_resource, find_free, next_queued};
ghost use Rattle.queue.specs.Lowest.{lowest_queued};

use crate::slots::{SLOTS, slot_free, slot_holds, slot_number, slot_queued};

// The slot of the resource of that number.
pub fn find_resource(q: &[u32], number: u32) -> Option<usize>
    requires { length q.now ≡ 84 }
    ensures within { IfSome result (λ k. k < 16) }
    ensures found { (Q : Queue) → q.now ≡ queue_words Q → result ≡ find_resource number Q.slots }
{
    (0..SLOTS).find(|k| slot_holds(q, *k, number))
}

// The lowest free slot.
pub fn find_free(q: &[u32]) -> Option<usize>
    requires { length q.now ≡ 84 }
    ensures within { IfSome result (λ k. k < 16) }
    ensures found { (Q : Queue) → q.now ≡ queue_words Q → result ≡ find_free Q.slots }
{
    (0..SLOTS).find(|k| slot_free(q, *k))
}

// Whether any buffer is Queued.
pub fn any_queued(q: &[u32]) -> bool
    requires { length q.now ≡ 84 }
    ensures { (Q : Queue) → q.now ≡ queue_words Q → result ≡ not (is_empty (queued_in Q.slots)) }
{
    (0..SLOTS).any(|k| slot_queued(q, k))
}

// How many buffers are Queued.
pub fn count_queued(q: &[u32]) -> u32
    requires { length q.now ≡ 84 }
    ensures within { result ≤ 16 }
    ensures counted { (Q : Queue) → q.now ≡ queue_words Q → result ≡ length (queued_in Q.slots) }
{
    let mut count = 0;
    for k in 0..SLOTS {
        if slot_queued(q, k) {
            count += 1;
        }
    }
    count
}

// Whether no slot holds a resource.
pub fn no_resource(q: &[u32]) -> bool
    requires { length q.now ≡ 84 }
    ensures { (Q : Queue) → q.now ≡ queue_words Q → result ≡ no_resource Q.slots }
{
    (0..SLOTS).all(|k| slot_free(q, k))
}

// The slot of the Queued buffer with the lowest number from `least` on.
pub fn next_queued(q: &[u32], least: u64) -> Option<usize>
    requires { length q.now ≡ 84 }
    ensures within { IfSome result (λ k. k < 16) }
    ensures found { (Q : Queue) → q.now ≡ queue_words Q → result ≡ next_queued least Q.slots }
{
    let lowest = lowest_queued(q, least)?;
    find_resource(q, lowest)
}

// The lowest number from `least` on of a Queued buffer. It goes from the last slot to the first.
fn lowest_queued(q: &[u32], least: u64) -> Option<u32>
    requires { length q.now ≡ 84 }
    ensures { (Q : Queue) → q.now ≡ queue_words Q → result ≡ lowest_queued least Q.slots }
{
    let mut lowest = None;
    for k in (0..SLOTS).rev() {
        lowest = lower_queued(q, k, least, lowest);
    }
    lowest
}

// The number in slot k where that is a Queued buffer's, from `least` on and below `lowest`; otherwise `lowest`.
fn lower_queued(q: &[u32], k: usize, least: u64, lowest: Option<u32>) -> Option<u32>
    requires { (length q.now ≡ 84) × (k < 16) }
    ensures { (Q : Queue) → q.now ≡ queue_words Q → lowest ≡ lowest_queued least (drop (k + 1) Q.slots) → result ≡ lowest_queued least (drop k Q.slots) }
{
    if !slot_queued(q, k) {
        return lowest;
    }
    let number = slot_number(q, k);
    if (number as u64) < least {
        return lowest;
    }
    match lowest {
        Some(other) if other <= number => lowest,
        _ => Some(number),
    }
}
