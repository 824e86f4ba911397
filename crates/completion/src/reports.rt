// The back end's reports: each ends the wait of a buffer, of a drain, or of both.
ghost use Rattle.std.specs.Prelude.{◌≡◌, true, false, ℕ, ◌+◌, ◌<◌, ◌≤◌, length};
ghost use Rattle.std.specs.Prelude.{Some};
ghost use Rattle.laws.specs.Stores.{Wrote};
ghost use Rattle.model.specs.Device.{Queue, Stream, occupied, queue_of, Buffer, queued_in, buffer_of};
ghost use Rattle.model.specs.Answers.{bytes_of};
ghost use Rattle.model.specs.Reports.{timestamp_of, has_eos, bad_eos, input_queued, early_eos, finish_answers, finish_leaves, finish_buffer, on_finish, drain_over, on_drained};
ghost use Rattle.queue.specs.Words.{queue_words};
ghost use Rattle.queue.specs.Search.{slot_at, is_queued, ticket_in, timestamp_in, find_resource};
ghost use Rattle.table.specs.Blocks.{place_words};
ghost use Rattle.protocol.specs.QueueTypes.{queue_type_of};
ghost use Rattle.protocol.specs.Refusals.{refusal_of, written_of};
ghost use Rattle.stream.specs.Replied.{BlockOf};
ghost use Rattle.completion.specs.Done.{Done};

use crate::drains::{end_drain, ended_answer};
use protocol::{AnswerType, EOS, FinishReport, QueueType, Refusal};
use queue::QUEUE_WORDS;

// A drained report: a pending drain is answered where it is over.
pub fn drained(block: &mut [u32], stream: u32, room: &mut [u8]) -> Result<u32, Refusal>
    requires { (length block.old ≡ 512) × (1056 ≤ length room.old) }
    ensures { (b : Stream) → BlockOf stream block.old b → Done stream (on_drained stream (Some b)) block.new room.old room.new (refusal_of result) (written_of result) }
{
    let Some(ticket) = table::pending_drain(block) else {
        return Err(Refusal::UnexpectedReport);
    };
    if !drain_over(block) {
        return Err(Refusal::UnexpectedReport);
    }
    table::set_drain(block, None);
    let written = answer::put_typed(room, 0, ticket, AnswerType::Success, stream);
    Ok(written as u32)
}

// Whether no input is Queued, and there is no output resource.
fn drain_over(block: &[u32]) -> bool
    requires { length block.now ≡ 512 }
    ensures { (n : ℕ) (b : Stream) → BlockOf n block.now b → result ≡ drain_over b }
{
    let at = table::queue_start(QueueType::Output);
    !input_queued(block) && queue::no_resource(&block[at..at + QUEUE_WORDS])
}

// Whether an input is Queued.
fn input_queued(block: &[u32]) -> bool
    requires { length block.now ≡ 512 }
    ensures { (n : ℕ) (b : Stream) → BlockOf n block.now b → result ≡ input_queued b }
{
    let at = table::queue_start(QueueType::Input);
    queue::any_queued(&block[at..at + QUEUE_WORDS])
}

// A finish report whose flags are known: a Queued buffer is answered and becomes Dequeued, and EOS ends the drain.
pub fn finish(block: &mut [u32], report: FinishReport, room: &mut [u8]) -> Result<u32, Refusal>
    requires { (length block.old ≡ 512) × (report.flags ≤ 3) × (1056 ≤ length room.old) }
    ensures { (b : Stream) → BlockOf report.stream block.old b → Done report.stream (on_finish report.stream report.queue report.resource report.flags report.timestamp (Some b)) block.new room.old room.new (refusal_of result) (written_of result) }
{
    let Ok(q) = QueueType::try_from(report.queue) else {
        return Err(Refusal::UnexpectedReport);
    };
    finish_buffer(block, q, report, room)
}

// A finish of the resource of that number in a queue.
fn finish_buffer(
    block: &mut [u32],
    queue: QueueType,
    report: FinishReport,
    room: &mut [u8],
) -> Result<u32, Refusal>
    requires { (length block.old ≡ 512) × (1056 ≤ length room.old) }
    ensures { (b : Stream) → BlockOf report.stream block.old b → Done report.stream (finish_buffer report.stream report.resource report.flags report.timestamp b (queue_type_of queue) (buffer_of report.resource (queued_in (queue_of (queue_type_of queue) b).slots))) block.new room.old room.new (refusal_of result) (written_of result) }
{
    let at = table::queue_start(queue);
    let Some(k) = queue::find_resource(&block[at..at + QUEUE_WORDS], report.resource) else {
        return Err(Refusal::UnexpectedReport);
    };
    finish_slot(block, queue, k, report, room)
}

// A finish of the resource in slot k of a queue.
fn finish_slot(
    block: &mut [u32],
    queue: QueueType,
    k: usize,
    report: FinishReport,
    room: &mut [u8],
) -> Result<u32, Refusal>
    requires { (length block.old ≡ 512) × (k < 16) × (1056 ≤ length room.old) }
    ensures { (b : Stream) (m : ℕ) → BlockOf report.stream block.old b → find_resource m (queue_of (queue_type_of queue) b).slots ≡ Some k → Done report.stream (finish_buffer report.stream m report.flags report.timestamp b (queue_type_of queue) (buffer_of m (queued_in (queue_of (queue_type_of queue) b).slots))) block.new room.old room.new (refusal_of result) (written_of result) }
{
    let at = table::queue_start(queue);
    if !queue::slot_queued(&block[at..at + QUEUE_WORDS], k) {
        return Err(Refusal::UnexpectedReport);
    }
    if bad_eos(block, queue, report.flags) {
        return Err(Refusal::BadFlags);
    }
    if early_eos(block, report.flags) {
        return Err(Refusal::UnexpectedReport);
    }
    answer_slot(block, queue, k, report, room)
}

// Whether the flags have EOS. Those above ERR and EOS together are refused before.
fn has_eos(flags: u32) -> bool
    ensures { result ≡ has_eos flags }
{
    flags >= EOS
}

// Whether the flags have EOS on an input, or with no drain pending.
fn bad_eos(block: &[u32], queue: QueueType, flags: u32) -> bool
    requires { length block.now ≡ 512 }
    ensures { (n : ℕ) (b : Stream) → BlockOf n block.now b → result ≡ bad_eos flags (queue_type_of queue) b }
{
    has_eos(flags) && (queue.is_input() || table::pending_drain(block).is_none())
}

// Whether the flags have EOS while an input is Queued.
fn early_eos(block: &[u32], flags: u32) -> bool
    requires { length block.now ≡ 512 }
    ensures { (n : ℕ) (b : Stream) → BlockOf n block.now b → result ≡ early_eos flags b }
{
    has_eos(flags) && input_queued(block)
}

// Answers the Queued buffer in slot k, which becomes Dequeued, and behind it the drain that EOS ends.
fn answer_slot(
    block: &mut [u32],
    queue: QueueType,
    k: usize,
    report: FinishReport,
    room: &mut [u8],
) -> Result<u32, Refusal>
    requires { (length block.old ≡ 512) × (k < 16) × (1056 ≤ length room.old) }
    ensures { (b : Stream) (m : ℕ) → BlockOf report.stream block.old b → find_resource m (queue_of (queue_type_of queue) b).slots ≡ Some k → is_queued (slot_at k (queue_of (queue_type_of queue) b).slots) ≡ true → bad_eos report.flags (queue_type_of queue) b ≡ false → early_eos report.flags b ≡ false → Done report.stream (finish_buffer report.stream m report.flags report.timestamp b (queue_type_of queue) (buffer_of m (queued_in (queue_of (queue_type_of queue) b).slots))) block.new room.old room.new (refusal_of result) (written_of result) }
{
    let written = finish_answers(block, queue, k, report, room);
    finish_words(block, queue, k, report.flags);
    Ok(written as u32)
}

// Writes the answers of a finish of the buffer in slot k: the buffer's, and the drain's that EOS ends.
fn finish_answers(
    block: &[u32],
    queue: QueueType,
    k: usize,
    report: FinishReport,
    room: &mut [u8],
) -> usize
    requires { (length block.now ≡ 512) × (k < 16) × (48 ≤ length room.old) }
    ensures bound { result ≤ 48 }
    ensures written { (n : ℕ) (b : Stream) (i : Buffer) → BlockOf n block.now b → i.ticket ≡ ticket_in (slot_at k (queue_of (queue_type_of queue) b).slots) → i.timestamp ≡ timestamp_in (slot_at k (queue_of (queue_type_of queue) b).slots) → Wrote room.old room.new 0 result (bytes_of (finish_answers report.stream report.flags report.timestamp b (queue_type_of queue) i)) }
{
    let at = table::queue_start(queue);
    let ticket = queue::slot_ticket(&block[at..at + QUEUE_WORDS], k);
    let told = timestamp_in(&block[at..at + QUEUE_WORDS], queue, k, report.timestamp);
    let next = answer::put_buffer(room, 0, ticket, report.stream, told, report.flags);
    let ends = has_eos(report.flags);
    ended_answer(block, ends, next, report.stream, room)
}

// Changes a block as a finish of the buffer in slot k does.
fn finish_words(block: &mut [u32], queue: QueueType, k: usize, flags: u32)
    requires { (length block.old ≡ 512) × (k < 16) }
    ensures { (n : ℕ) (b : Stream) (m : ℕ) → BlockOf n block.old b → find_resource m (queue_of (queue_type_of queue) b).slots ≡ Some k → block.new ≡ place_words (occupied n (finish_leaves m flags b (queue_type_of queue))) }
{
    let ends = has_eos(flags);
    end_drain(block, ends);
    let at = table::queue_start(queue);
    queue::set_dequeued(&mut block[at..at + QUEUE_WORDS], k);
}

// The timestamp that a finish answers with: an input's own, an output's the report's.
fn timestamp_in(q: &[u32], queue: QueueType, k: usize, timestamp: u64) -> u64
    requires { (length q.now ≡ 84) × (k < 16) }
    ensures { (Q : Queue) (i : Buffer) → q.now ≡ queue_words Q → i.timestamp ≡ timestamp_in (slot_at k Q.slots) → result ≡ timestamp_of (queue_type_of queue) i timestamp }
{
    match queue {
        QueueType::Input => queue::slot_timestamp(q, k),
        QueueType::Output => timestamp,
    }
}
