// A clear and a destroy: the buffers that they stop and the drain that they end are answered before the command itself.
ghost use Rattle.std.specs.Prelude.{◌≡◌, true, List, [], ◌∷◌, ℕ, ◌+◌, ◌<◌, ◌≤◌, length};
ghost use Rattle.laws.specs.Stores.{Wrote};
ghost use Rattle.model.specs.Device.{QueueType as Meant, Queue, Stream, occupied, Buffer, queued_in, by_resource, buffers};
ghost use Rattle.model.specs.Answers.{bytes_of};
ghost use Rattle.model.specs.Commands.{stopped_answers, on_destroy, on_clear};
ghost use Rattle.model.specs.WellFormed.{distinct_slots};
ghost use Rattle.queue.specs.Words.{queue_words};
ghost use Rattle.queue.specs.Search.{slot_at, ticket_in, timestamp_in};
ghost use Rattle.table.specs.Blocks.{place_words};
ghost use Rattle.protocol.specs.QueueTypes.{queue_type_of};
ghost use Rattle.stream.specs.Replied.{BlockOf, told, Replied};
ghost use Rattle.completion.specs.Done.{clear_answers, destroy_answers, clear_leaves};

use crate::drains::{end_drain, ended_answer};
use protocol::{AnswerType, ERR, QueueType};
use queue::{QUEUE_WORDS, SLOTS};
use stream::Asked;

// 0x0107 clear: the Queued buffers of a queue and, for input, a pending drain are answered, then the command; then the changes are made.
pub fn clear(block: &mut [u32], asked: Asked, q: QueueType, room: &mut [u8]) -> usize
    requires { (length block.old ≡ 512) × (1056 ≤ length room.old) }
    ensures { (f : List ℕ) (b : Stream) → BlockOf asked.stream block.old b → Replied asked.stream (on_clear (told asked f b) b (queue_type_of q)) block.new room.old room.new result }
{
    let written = clear_answers(block, q, asked, room);
    clear_words(block, q);
    written
}

// Writes the answers of a clear: the queue's Queued buffers, the drain that it ends, itself.
fn clear_answers(block: &[u32], queue: QueueType, asked: Asked, room: &mut [u8]) -> usize
    requires { (length block.now ≡ 512) × (1056 ≤ length room.old) }
    ensures { (n : ℕ) (b : Stream) → BlockOf n block.now b → Wrote room.old room.new 0 result (bytes_of (clear_answers asked.stream asked.ticket (queue_type_of queue) b)) }
{
    let stopped = stop_queue(block, queue, 0, asked.stream, room);
    let ends = queue.is_input();
    let ended = ended_answer(block, ends, stopped, asked.stream, room);
    answer::put_typed(room, ended, asked.ticket, AnswerType::Success, asked.stream)
}

// Changes a block as a clear of the queue does.
fn clear_words(block: &mut [u32], queue: QueueType)
    requires { length block.old ≡ 512 }
    ensures { (n : ℕ) (b : Stream) → BlockOf n block.old b → block.new ≡ place_words (occupied n (clear_leaves (queue_type_of queue) b)) }
{
    let ends = queue.is_input();
    end_drain(block, ends);
    let at = table::queue_start(queue);
    queue::stop_all(&mut block[at..at + QUEUE_WORDS]);
}

// 0x0102 destroy: all that waits is answered, then the command, and the block becomes vacant.
pub fn destroy(block: &mut [u32], asked: Asked, room: &mut [u8]) -> usize
    requires { (length block.old ≡ 512) × (1056 ≤ length room.old) }
    ensures { (f : List ℕ) (b : Stream) → BlockOf asked.stream block.old b → Replied asked.stream (on_destroy (told asked f b) b) block.new room.old room.new result }
{
    let written = destroy_answers(block, asked, room);
    table::free_stream(block);
    written
}

// Writes the answers of a destroy: Queued inputs, Queued outputs, a pending drain, itself.
fn destroy_answers(block: &[u32], asked: Asked, room: &mut [u8]) -> usize
    requires { (length block.now ≡ 512) × (1056 ≤ length room.old) }
    ensures { (n : ℕ) (b : Stream) → BlockOf n block.now b → Wrote room.old room.new 0 result (bytes_of (destroy_answers asked.stream asked.ticket b)) }
{
    let inputs = stop_queue(block, QueueType::Input, 0, asked.stream, room);
    let outputs = stop_queue(block, QueueType::Output, inputs, asked.stream, room);
    let drain = ended_answer(block, true, outputs, asked.stream, room);
    answer::put_typed(room, drain, asked.ticket, AnswerType::Success, asked.stream)
}

// Answers the Queued buffers of one of a block's queues as stopped.
fn stop_queue(block: &[u32], queue: QueueType, at: usize, stream: u32, room: &mut [u8]) -> usize
    requires { (length block.now ≡ 512) × (at + 512 ≤ length room.old) }
    ensures bound { result ≤ at + 512 }
    ensures written { (n : ℕ) (b : Stream) → BlockOf n block.now b → Wrote room.old room.new at result (bytes_of (stopped_answers stream (queue_type_of queue) (buffers (queue_type_of queue) b))) }
{
    let start = table::queue_start(queue);
    stop_answers(&block[start..start + QUEUE_WORDS], at, stream, room)
}

// Answers the buffers of a queue that are Queued, by ascending resource number, as stopped.
fn stop_answers(q: &[u32], at: usize, stream: u32, room: &mut [u8]) -> usize
    requires { (length q.now ≡ 84) × (at + 512 ≤ length room.old) }
    ensures bound { result ≤ at + 512 }
    ensures written { (Q : Queue) (t : Meant) → distinct_slots Q.slots ≡ true → q.now ≡ queue_words Q → Wrote room.old room.new at result (bytes_of (stopped_answers stream t (by_resource (queued_in Q.slots)))) }
{
    let mut next = at;
    let mut least: u64 = 0;
    for _turn in 0..SLOTS {
        let Some(k) = queue::next_queued(q, least) else {
            return next;
        };
        next = stop_answer(q, k, next, stream, room);
        least = queue::slot_number(q, k) as u64 + 1;
    }
    next
}

// Answers the Queued buffer in slot k as stopped: its own timestamp, flag ERR.
fn stop_answer(q: &[u32], k: usize, at: usize, stream: u32, room: &mut [u8]) -> usize
    requires { (length q.now ≡ 84) × (k < 16) × (at + 32 ≤ length room.old) }
    ensures next { result ≡ at + 32 }
    ensures written { (Q : Queue) (t : Meant) (i : Buffer) → q.now ≡ queue_words Q → i.ticket ≡ ticket_in (slot_at k Q.slots) → i.timestamp ≡ timestamp_in (slot_at k Q.slots) → Wrote room.old room.new at result (bytes_of (stopped_answers stream t (i ∷ []))) }
{
    let ticket = queue::slot_ticket(q, k);
    let timestamp = queue::slot_timestamp(q, k);
    answer::put_buffer(room, at, ticket, stream, timestamp, ERR)
}
