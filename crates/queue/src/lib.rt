// Functions on the words of one queue of the device table: four words, and sixteen slots of five (specs/Words).
// The contracts speak of every queue Q whose words are lent.
#![tactic(auto)]

mod changes;
mod search;
mod slots;

pub use changes::{
    HEIGHT, SPARE, WIDTH, free_all, height, rate, stop_all, store_parameters, width,
};
pub use search::{any_queued, count_queued, find_free, find_resource, next_queued, no_resource};
pub use slots::{
    DEQUEUED, FIRST_SLOT, FREE, QUEUED, SLOT_NUMBER, SLOT_SIZE, SLOT_STATE, SLOT_TICKET, SLOTS,
    set_created, set_dequeued, set_queued, slot_number, slot_queued, slot_ticket, slot_timestamp,
};

// The words of a queue.
pub const QUEUE_WORDS: usize = 84;
