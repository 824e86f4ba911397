// Functions on the 512 words of a stream place. The contracts speak of every stream whose words are lent.
ghost use Rattle.std.specs.Prelude.{◌≡◌, ℕ, ◌≤◌, length};
ghost use Rattle.std.specs.Prelude.{Option};
ghost use Rattle.laws.specs.Parts.{zeros};
ghost use Rattle.model.specs.Device.{Stream, vacant, occupied, new_queue, new_stream, with_drain};
ghost use Rattle.queue.specs.Words.{queue_words};
ghost use Rattle.table.specs.Blocks.{queue_start, place_words};
ghost use Rattle.protocol.specs.QueueTypes.{queue_type_of};

use protocol::QueueType;
use queue::{HEIGHT, WIDTH};

// The words of a block: whether the stream is live, its number and coded format, whether a drain is pending and its ticket, three without use, the two queues.
pub const LIVE: usize = 0;

pub const NUMBER: usize = 1;

pub const FORMAT: usize = 2;

pub const DRAIN: usize = 3;

pub const TICKET: usize = 4;

pub const UNUSED: usize = 5;

pub const INPUTS: usize = 8;

pub const OUTPUTS: usize = 92;

// The first word behind the queues; from there on words have no use.
pub const QUEUES_END: usize = 176;

// The width and the height that a creation puts into a queue's words.
const NEW_WIDTH: u32 = 640;

const NEW_HEIGHT: u32 = 480;

// Writes a new queue's words over 84 zero words.
fn new_queue(q: &mut [u32])
    requires { length q.old ≡ 84 }
    ensures { q.old ≡ zeros 84 → q.new ≡ queue_words new_queue }
{
    q[WIDTH] = NEW_WIDTH;
    q[HEIGHT] = NEW_HEIGHT;
}

// Writes a new stream's words over a vacant block.
pub fn new_stream(b: &mut [u32], number: u32, format: u32)
    requires { length b.old ≡ 512 }
    ensures { b.old ≡ place_words vacant → b.new ≡ place_words (occupied number (new_stream format)) }
{
    new_queue(&mut b[INPUTS..OUTPUTS]);
    new_queue(&mut b[OUTPUTS..QUEUES_END]);
    b[LIVE] = 1;
    b[NUMBER] = number;
    b[FORMAT] = format;
}

// Makes a block vacant, whatever stands in it.
pub fn free_stream(b: &mut [u32])
    requires { length b.old ≡ 512 }
    ensures { b.new ≡ place_words vacant }
{
    b.fill(0);
}

// The coded format of the block's stream.
pub fn coded_format(b: &[u32]) -> u32
    requires { length b.now ≡ 512 }
    ensures { (n : ℕ) (s : Stream) → b.now ≡ place_words (occupied n s) → result ≡ s.format }
{
    b[FORMAT]
}

// The pending drain of the block's stream.
pub fn pending_drain(b: &[u32]) -> Option<u32>
    requires { length b.now ≡ 512 }
    ensures { (n : ℕ) (s : Stream) → b.now ≡ place_words (occupied n s) → result ≡ s.draining }
{
    if b[DRAIN] == 0 {
        return None;
    }
    Some(b[TICKET])
}

// A drain of the block's stream is pending under that ticket from now on, or none is.
pub fn set_drain(b: &mut [u32], drain: Option<u32>)
    requires { length b.old ≡ 512 }
    ensures { (n : ℕ) (s : Stream) → b.old ≡ place_words (occupied n s) → b.new ≡ place_words (occupied n (with_drain drain s)) }
{
    match drain {
        Some(ticket) => {
            b[DRAIN] = 1;
            b[TICKET] = ticket;
        }
        None => {
            b[DRAIN] = 0;
            b[TICKET] = 0;
        }
    }
}

// Where a queue's words start in a block.
pub fn queue_start(q: QueueType) -> usize
    ensures inside { result ≤ 92 }
    ensures start { result ≡ queue_start (queue_type_of q) }
{
    match q {
        QueueType::Input => INPUTS,
        QueueType::Output => OUTPUTS,
    }
}
