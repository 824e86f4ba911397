// The commands to a live stream that answer no buffer, each with the queue that it names: it is tested, then its change is made and its answer
// written from the start of the room.
#![tactic(auto)]

ghost use Rattle.std.specs.Prelude.{◌≡◌, List, ℕ, ◌<◌, ◌≤◌, length};
ghost use Rattle.model.specs.Device.{Queue, Stream, occupied, present};
ghost use Rattle.model.specs.Frames.{frame_width, frame_height, frame_rate};
ghost use Rattle.model.specs.Replies.{Reply};
ghost use Rattle.model.specs.Commands.{on_drain, on_create_resource, input_draining, on_queue, on_destroy_all, on_get, format_of, with_parameters, on_set};
ghost use Rattle.laws.specs.Stores.{Wrote};
ghost use Rattle.answer.specs.Answer.{plain_bytes};
ghost use Rattle.queue.specs.Words.{queue_words};
ghost use Rattle.table.specs.Blocks.{place_words};
ghost use Rattle.protocol.specs.QueueTypes.{queue_type_of};
ghost use Rattle.stream.specs.Replied.{BlockOf, LiveBlock, told, Replied, Tried};
ghost use Rattle.stream.specs.Queueing.{Placed};

use answer::Parameters;
use protocol::{AnswerType, ErrorCode, NV12, QueueType};
use queue::QUEUE_WORDS;

// Whom a command is answered to: its stream number and its ticket.
#[derive(Clone, Copy, Debug, PartialEq, Eq)]
pub struct Asked {
    pub stream: u32,
    pub ticket: u32,
}

// Hands on the bytes that were written, or writes the error, which changed nothing.
fn answer_error(tried: Result<usize, ErrorCode>, asked: Asked, room: &mut [u8]) -> usize
    requires { 16 ≤ length room.old }
    ensures { (f before after start : List ℕ) (b : Stream) (v : Reply) → BlockOf asked.stream before b → Tried (told asked f b) v before after start room.old tried → Replied asked.stream v after start room.new result }
{
    match tried {
        Ok(written) => written,
        Err(error) => {
            let kind = AnswerType::Error(error);
            answer::put_typed(room, 0, asked.ticket, kind, asked.stream)
        }
    }
}

// 0x0103: a drain is pending from now on, unless one is pending already.
pub fn drain(block: &mut [u32], asked: Asked, room: &mut [u8]) -> usize
    requires { (length block.old ≡ 512) × (1056 ≤ length room.old) }
    ensures { (f : List ℕ) (b : Stream) → BlockOf asked.stream block.old b → Replied asked.stream (on_drain (told asked f b) b) block.new room.old room.new result }
{
    let tried = try_drain(block, asked);
    answer_error(tried, asked, room)
}

// The same without the answer of its error.
fn try_drain(block: &mut [u32], asked: Asked) -> Result<usize, ErrorCode>
    requires { length block.old ≡ 512 }
    ensures { (room f : List ℕ) (b : Stream) → BlockOf asked.stream block.old b → Tried (told asked f b) (on_drain (told asked f b) b) block.old block.new room room result }
{
    if table::pending_drain(block).is_some() {
        return Err(ErrorCode::InvalidOperation);
    }
    table::set_drain(block, Some(asked.ticket));
    Ok(0)
}

// 0x0104: a new resource in a queue, Created, in the lowest free slot.
pub fn create_resource(
    block: &mut [u32],
    asked: Asked,
    frame: &[u8],
    q: QueueType,
    room: &mut [u8],
) -> usize
    requires { (length block.old ≡ 512) × (88 ≤ length frame.now) × (1056 ≤ length room.old) }
    ensures { (b : Stream) → BlockOf asked.stream block.old b → Replied asked.stream (on_create_resource (told asked frame.now b) b (queue_type_of q)) block.new room.old room.new result }
{
    let tried = try_create_resource(block, asked, frame, q, room);
    answer_error(tried, asked, room)
}

// The same without the answer of its error.
fn try_create_resource(
    block: &mut [u32],
    asked: Asked,
    frame: &[u8],
    q: QueueType,
    room: &mut [u8],
) -> Result<usize, ErrorCode>
    requires { (length block.old ≡ 512) × (88 ≤ length frame.now) × (1056 ≤ length room.old) }
    ensures { (b : Stream) → BlockOf asked.stream block.old b → Tried (told asked frame.now b) (on_create_resource (told asked frame.now b) b (queue_type_of q)) block.old block.new room.old room.new result }
{
    if !frame::resource_good(frame) {
        return Err(ErrorCode::InvalidParameter);
    }
    let at = table::queue_start(q);
    let number = frame::resource(frame);
    if number_present(&block[at..at + QUEUE_WORDS], number) {
        return Err(ErrorCode::InvalidResource);
    }
    let Some(k) = queue::find_free(&block[at..at + QUEUE_WORDS]) else {
        return Err(ErrorCode::OutOfMemory);
    };
    queue::set_created(&mut block[at..at + QUEUE_WORDS], k, number);
    Ok(succeed(asked, room))
}

// Whether a queue has the resource of that number.
fn number_present(queue: &[u32], number: u32) -> bool
    requires { length queue.now ≡ 84 }
    ensures { (Q : Queue) → queue.now ≡ queue_words Q → result ≡ present number Q.slots }
{
    queue::find_resource(queue, number).is_some()
}

// Writes plain success, which answers the command itself.
fn succeed(asked: Asked, room: &mut [u8]) -> usize
    requires { 16 ≤ length room.old }
    ensures { Wrote room.old room.new 0 result (plain_bytes asked.ticket 0x0200 asked.stream) }
{
    answer::put_typed(room, 0, asked.ticket, AnswerType::Success, asked.stream)
}

// 0x0105: a resource becomes Queued and keeps the ticket and the timestamp, without an answer now.
pub fn queue_resource(
    block: &mut [u32],
    asked: Asked,
    frame: &[u8],
    q: QueueType,
    room: &mut [u8],
) -> usize
    requires { (length block.old ≡ 512) × (64 ≤ length frame.now) × (1056 ≤ length room.old) }
    ensures { (b : Stream) → BlockOf asked.stream block.old b → Replied asked.stream (on_queue (told asked frame.now b) b (queue_type_of q)) block.new room.old room.new result }
{
    let tried = try_queue_resource(block, asked, frame, q);
    answer_error(tried, asked, room)
}

// The same without the answer of its error.
fn try_queue_resource(
    block: &mut [u32],
    asked: Asked,
    frame: &[u8],
    q: QueueType,
) -> Result<usize, ErrorCode>
    requires { (length block.old ≡ 512) × (64 ≤ length frame.now) }
    ensures { (room : List ℕ) (b : Stream) → BlockOf asked.stream block.old b → Tried (told asked frame.now b) (on_queue (told asked frame.now b) b (queue_type_of q)) block.old block.new room room result }
{
    if !frame::sizes_good(frame) {
        return Err(ErrorCode::InvalidParameter);
    }
    if input_draining(block, q) {
        return Err(ErrorCode::InvalidOperation);
    }
    let at = table::queue_start(q);
    let number = frame::resource(frame);
    let Some(k) = queue::find_resource(&block[at..at + QUEUE_WORDS], number) else {
        return Err(ErrorCode::InvalidResource);
    };
    queue_slot(block, asked, frame, q, k)
}

// 0x0105 on the resource's slot.
fn queue_slot(
    block: &mut [u32],
    asked: Asked,
    frame: &[u8],
    q: QueueType,
    k: usize,
) -> Result<usize, ErrorCode>
    requires { (length block.old ≡ 512) × (64 ≤ length frame.now) × (k < 16) }
    ensures { (room : List ℕ) (b : Stream) → BlockOf asked.stream block.old b → Placed frame.now b (queue_type_of q) k → Tried (told asked frame.now b) (on_queue (told asked frame.now b) b (queue_type_of q)) block.old block.new room room result }
{
    let at = table::queue_start(q);
    if queue::slot_queued(&block[at..at + QUEUE_WORDS], k) {
        return Err(ErrorCode::InvalidOperation);
    }
    let timestamp = frame::timestamp(frame);
    queue::set_queued(&mut block[at..at + QUEUE_WORDS], k, asked.ticket, timestamp);
    Ok(0)
}

// Whether the queue is the input queue of a stream whose drain is pending.
fn input_draining(block: &[u32], q: QueueType) -> bool
    requires { length block.now ≡ 512 }
    ensures { (n : ℕ) (b : Stream) → BlockOf n block.now b → result ≡ input_draining (queue_type_of q) b }
{
    q.is_input() && table::pending_drain(block).is_some()
}

// 0x0106: the resources of a queue without Queued buffers are freed.
pub fn destroy_all(block: &mut [u32], asked: Asked, q: QueueType, room: &mut [u8]) -> usize
    requires { (length block.old ≡ 512) × (1056 ≤ length room.old) }
    ensures { (f : List ℕ) (b : Stream) → BlockOf asked.stream block.old b → Replied asked.stream (on_destroy_all (told asked f b) b (queue_type_of q)) block.new room.old room.new result }
{
    let tried = try_destroy_all(block, asked, q, room);
    answer_error(tried, asked, room)
}

// The same without the answer of its error.
fn try_destroy_all(
    block: &mut [u32],
    asked: Asked,
    q: QueueType,
    room: &mut [u8],
) -> Result<usize, ErrorCode>
    requires { (length block.old ≡ 512) × (1056 ≤ length room.old) }
    ensures { (f : List ℕ) (b : Stream) → BlockOf asked.stream block.old b → Tried (told asked f b) (on_destroy_all (told asked f b) b (queue_type_of q)) block.old block.new room.old room.new result }
{
    let from = table::queue_start(q);
    if queue::any_queued(&block[from..from + QUEUE_WORDS]) {
        return Err(ErrorCode::InvalidOperation);
    }
    queue::free_all(&mut block[from..from + QUEUE_WORDS]);
    Ok(succeed(asked, room))
}

// 0x0108: the parameters of a queue are answered.
pub fn get_parameters(block: &[u32], asked: Asked, q: QueueType, room: &mut [u8]) -> usize
    requires { (length block.now ≡ 512) × LiveBlock asked.stream block.now × (1056 ≤ length room.old) }
    ensures { (f : List ℕ) (b : Stream) → BlockOf asked.stream block.now b → Replied asked.stream (on_get (told asked f b) b (queue_type_of q)) block.now room.old room.new result }
{
    let start = table::queue_start(q);
    let queue = &block[start..start + QUEUE_WORDS];
    let kept = Parameters {
        format: queue_format(block, q),
        width: queue::width(queue),
        height: queue::height(queue),
        rate: queue::rate(queue),
    };
    answer::put_parameters(room, 0, asked.ticket, asked.stream, q, kept)
}

// 0x0109: format, width, height and rate of a queue without Queued buffers are kept as sent.
pub fn set_parameters(
    block: &mut [u32],
    asked: Asked,
    frame: &[u8],
    q: QueueType,
    room: &mut [u8],
) -> usize
    requires { (length block.old ≡ 512) × (120 ≤ length frame.now) × (1056 ≤ length room.old) }
    ensures { (b : Stream) → BlockOf asked.stream block.old b → Replied asked.stream (on_set (told asked frame.now b) b (queue_type_of q)) block.new room.old room.new result }
{
    let tried = try_set_parameters(block, asked, frame, q, room);
    answer_error(tried, asked, room)
}

// The same without the answer of its error.
fn try_set_parameters(
    block: &mut [u32],
    asked: Asked,
    frame: &[u8],
    q: QueueType,
    room: &mut [u8],
) -> Result<usize, ErrorCode>
    requires { (length block.old ≡ 512) × (120 ≤ length frame.now) × (1056 ≤ length room.old) }
    ensures { (b : Stream) → BlockOf asked.stream block.old b → Tried (told asked frame.now b) (on_set (told asked frame.now b) b (queue_type_of q)) block.old block.new room.old room.new result }
{
    if !frame::set_good(frame, queue_format(block, q)) {
        return Err(ErrorCode::InvalidParameter);
    }
    let at = table::queue_start(q);
    if queue::any_queued(&block[at..at + QUEUE_WORDS]) {
        return Err(ErrorCode::InvalidOperation);
    }
    keep_parameters(&mut block[at..at + QUEUE_WORDS], frame);
    Ok(succeed(asked, room))
}

// A queue keeps the parameters of a set.
fn keep_parameters(queue: &mut [u32], frame: &[u8])
    requires { (length queue.old ≡ 84) × (120 ≤ length frame.now) }
    ensures { (Q : Queue) → queue.old ≡ queue_words Q → queue.new ≡ queue_words (with_parameters (frame_width frame.now) (frame_height frame.now) (frame_rate frame.now) Q) }
{
    let width = frame::frame_width(frame);
    let height = frame::frame_height(frame);
    let rate = frame::frame_rate(frame);
    queue::store_parameters(queue, width, height, rate);
}

// The format of a queue.
fn queue_format(block: &[u32], q: QueueType) -> u32
    requires { length block.now ≡ 512 }
    ensures { (n : ℕ) (b : Stream) → block.now ≡ place_words (occupied n b) → result ≡ format_of (queue_type_of q) b }
{
    match q {
        QueueType::Input => table::coded_format(block),
        QueueType::Output => NV12,
    }
}
