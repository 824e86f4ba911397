// A queue's parameters, and changes of all its slots.
ghost use Rattle.std.specs.Prelude.{◌≡◌, length};
ghost use Rattle.model.specs.Device.{Queue, with_slots, stop_all, free_all};
ghost use Rattle.model.specs.Commands.{with_parameters};
ghost use Rattle.queue.specs.Words.{queue_words};

use crate::slots::{SLOTS, set_free, stop_slot};

// The words of a queue before its slots: one without use, and the parameters that are kept.
pub const SPARE: usize = 0;

pub const WIDTH: usize = 1;

pub const HEIGHT: usize = 2;

const RATE: usize = 3;

// The width.
pub fn width(q: &[u32]) -> u32
    requires { length q.now ≡ 84 }
    ensures { (Q : Queue) → q.now ≡ queue_words Q → result ≡ Q.width }
{
    q[WIDTH]
}

// The height.
pub fn height(q: &[u32]) -> u32
    requires { length q.now ≡ 84 }
    ensures { (Q : Queue) → q.now ≡ queue_words Q → result ≡ Q.height }
{
    q[HEIGHT]
}

// The rate.
pub fn rate(q: &[u32]) -> u32
    requires { length q.now ≡ 84 }
    ensures { (Q : Queue) → q.now ≡ queue_words Q → result ≡ Q.rate }
{
    q[RATE]
}

// Other parameters are kept.
pub fn store_parameters(q: &mut [u32], width: u32, height: u32, rate: u32)
    requires { length q.old ≡ 84 }
    ensures { (Q : Queue) → q.old ≡ queue_words Q → q.new ≡ queue_words (with_parameters width height rate Q) }
{
    q[WIDTH] = width;
    q[HEIGHT] = height;
    q[RATE] = rate;
}

// Every Queued buffer becomes Dequeued.
pub fn stop_all(q: &mut [u32])
    requires { length q.old ≡ 84 }
    ensures { (Q : Queue) → q.old ≡ queue_words Q → q.new ≡ queue_words (with_slots (stop_all Q.slots) Q) }
{
    for i in 0..SLOTS {
        stop_slot(q, i);
    }
}

// Every slot becomes free.
pub fn free_all(q: &mut [u32])
    requires { length q.old ≡ 84 }
    ensures { (Q : Queue) → q.old ≡ queue_words Q → q.new ≡ queue_words (with_slots (free_all Q.slots) Q) }
{
    for k in 0..SLOTS {
        set_free(q, k);
    }
}
