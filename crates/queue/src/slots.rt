// One slot of a queue: its words read and written.
ghost use Rattle.std.specs.Prelude.{◌≡◌, [], ◌∷◌, ◌<◌, length, set};
ghost use Rattle.model.specs.Device.{created, queued, dequeued, Slot, free, resource, Queue, with_slots};
ghost use Rattle.queue.specs.Words.{slot_words, queue_words};
ghost use Rattle.queue.specs.Search.{slot_at, is_free, is_resource, is_queued, number_in, ticket_in, timestamp_in};
ghost use Rattle.queue.specs.Changes.{stopped_slot};

// The slots of a queue: how many, where they begin, and the words of one.
pub const SLOTS: usize = 16;

pub const FIRST_SLOT: usize = 4;

pub const SLOT_SIZE: usize = 5;

// The words of a slot: state, number, ticket, and the timestamp's low and high word.
pub const SLOT_STATE: usize = 0;

pub const SLOT_NUMBER: usize = 1;

pub const SLOT_TICKET: usize = 2;

const LOW_WORD: usize = 3;

const HIGH_WORD: usize = 4;

// The states.
pub const FREE: u32 = 0;

pub const CREATED: u32 = 1;

pub const QUEUED: u32 = 2;

pub const DEQUEUED: u32 = 3;

// What the high word of a timestamp counts.
const HIGH: u64 = 4294967296;

// Whether slot k is free.
pub fn slot_free(q: &[u32], k: usize) -> bool
    requires { (length q.now ≡ 84) × (k < 16) }
    ensures { (Q : Queue) → q.now ≡ queue_words Q → result ≡ is_free (slot_at k Q.slots) }
{
    q[FIRST_SLOT + SLOT_SIZE * k] == FREE
}

// Whether slot k holds the resource of that number.
pub fn slot_holds(q: &[u32], k: usize, number: u32) -> bool
    requires { (length q.now ≡ 84) × (k < 16) }
    ensures { (Q : Queue) → q.now ≡ queue_words Q → result ≡ is_resource number (slot_at k Q.slots) }
{
    let at = FIRST_SLOT + SLOT_SIZE * k;
    if q[at] == FREE {
        return false;
    }
    q[at + SLOT_NUMBER] == number
}

// Whether slot k holds a Queued buffer.
pub fn slot_queued(q: &[u32], k: usize) -> bool
    requires { (length q.now ≡ 84) × (k < 16) }
    ensures { (Q : Queue) → q.now ≡ queue_words Q → result ≡ is_queued (slot_at k Q.slots) }
{
    q[FIRST_SLOT + SLOT_SIZE * k] == QUEUED
}

// The resource number in slot k; 0 where it is free.
pub fn slot_number(q: &[u32], k: usize) -> u32
    requires { (length q.now ≡ 84) × (k < 16) }
    ensures { (Q : Queue) → q.now ≡ queue_words Q → result ≡ number_in (slot_at k Q.slots) }
{
    q[FIRST_SLOT + SLOT_SIZE * k + SLOT_NUMBER]
}

// The ticket of the Queued buffer in slot k; 0 where there is none.
pub fn slot_ticket(q: &[u32], k: usize) -> u32
    requires { (length q.now ≡ 84) × (k < 16) }
    ensures { (Q : Queue) → q.now ≡ queue_words Q → result ≡ ticket_in (slot_at k Q.slots) }
{
    q[FIRST_SLOT + SLOT_SIZE * k + SLOT_TICKET]
}

// The timestamp of the Queued buffer in slot k; 0 where there is none.
pub fn slot_timestamp(q: &[u32], k: usize) -> u64
    requires { (length q.now ≡ 84) × (k < 16) }
    ensures { (Q : Queue) → q.now ≡ queue_words Q → result ≡ timestamp_in (slot_at k Q.slots) }
{
    let at = FIRST_SLOT + SLOT_SIZE * k;
    (q[at + LOW_WORD] as u64) + HIGH * (q[at + HIGH_WORD] as u64)
}

// Slot k gets the five words of a slot.
fn write_slot(q: &mut [u32], k: usize, state: u32, number: u32, ticket: u32, low: u32, high: u32)
    requires { (length q.old ≡ 84) × (k < 16) }
    ensures { (Q : Queue) (s : Slot) → q.old ≡ queue_words Q → slot_words s ≡ state ∷ number ∷ ticket ∷ low ∷ high ∷ [] → q.new ≡ queue_words (with_slots (set Q.slots k s) Q) }
{
    let at = FIRST_SLOT + SLOT_SIZE * k;
    q[at] = state;
    q[at + SLOT_NUMBER] = number;
    q[at + SLOT_TICKET] = ticket;
    q[at + LOW_WORD] = low;
    q[at + HIGH_WORD] = high;
}

// Slot k becomes free.
pub fn set_free(q: &mut [u32], k: usize)
    requires { (length q.old ≡ 84) × (k < 16) }
    ensures { (Q : Queue) → q.old ≡ queue_words Q → q.new ≡ queue_words (with_slots (set Q.slots k free) Q) }
{
    write_slot(q, k, FREE, 0, 0, 0, 0);
}

// Slot k gets a new resource, Created.
pub fn set_created(q: &mut [u32], k: usize, number: u32)
    requires { (length q.old ≡ 84) × (k < 16) }
    ensures { (Q : Queue) → q.old ≡ queue_words Q → q.new ≡ queue_words (with_slots (set Q.slots k (resource number created)) Q) }
{
    write_slot(q, k, CREATED, number, 0, 0, 0);
}

// The resource in slot k becomes Queued, with its ticket and timestamp.
pub fn set_queued(q: &mut [u32], k: usize, ticket: u32, timestamp: u64)
    requires { (length q.old ≡ 84) × (k < 16) }
    ensures { (Q : Queue) → q.old ≡ queue_words Q → q.new ≡ queue_words (with_slots (set Q.slots k (resource (number_in (slot_at k Q.slots)) (queued ticket timestamp))) Q) }
{
    let number = slot_number(q, k);
    let low = (timestamp % HIGH) as u32;
    let high = (timestamp / HIGH) as u32;
    write_slot(q, k, QUEUED, number, ticket, low, high);
}

// The resource in slot k becomes Dequeued.
pub fn set_dequeued(q: &mut [u32], k: usize)
    requires { (length q.old ≡ 84) × (k < 16) }
    ensures { (Q : Queue) → q.old ≡ queue_words Q → q.new ≡ queue_words (with_slots (set Q.slots k (resource (number_in (slot_at k Q.slots)) dequeued)) Q) }
{
    let number = slot_number(q, k);
    write_slot(q, k, DEQUEUED, number, 0, 0, 0);
}

// A Queued buffer in slot k becomes Dequeued; any other slot stays.
pub fn stop_slot(q: &mut [u32], k: usize)
    requires { (length q.old ≡ 84) × (k < 16) }
    ensures { (Q : Queue) → q.old ≡ queue_words Q → q.new ≡ queue_words (with_slots (set Q.slots k (stopped_slot (slot_at k Q.slots))) Q) }
{
    if slot_queued(q, k) {
        set_dequeued(q, k);
    }
}
