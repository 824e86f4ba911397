// Commands to a device: by the type and the length of the frame a creation, or a command in the block of the live stream that it names.
ghost use Rattle.std.specs.Prelude.{◌≡◌, ◌≤◌, length};
ghost use Rattle.model.specs.Numbers.{table_words};
ghost use Rattle.model.specs.Device.{Stream, Device};
ghost use Rattle.model.specs.Frames.{create, live, queue_named, stream_id, queue_type};
ghost use Rattle.model.specs.Commands.{on_queue_of, on_named, on_live};
ghost use Rattle.model.specs.Steps.{command};
ghost use Rattle.protocol.specs.QueueTypes.{queue_type_of};
ghost use Rattle.frame.specs.Meant.{queue_command_of, live_command_of, right, queue_length, least_length, verdict_for};
ghost use Rattle.stream.specs.Replied.{BlockOf, LiveBlock, told, Replied, Tried};
ghost use Rattle.device.specs.Served.{Encodes, DeviceWords, Served, Attempted};

use crate::places::{add_stream, live_place, settle, unusable, vacant_place};
use frame::{Command, LiveCommand, QueueCommand};
use protocol::{AnswerType, ErrorCode, QueueType};
use stream::Asked;
use table::PLACE_WORDS;

// A command with a whole header: it is carried out, or answered by its error.
pub fn command(t: &mut [u32], ticket: u32, frame: &[u8], room: &mut [u8]) -> usize
    requires { (length t.old ≡ table_words) × DeviceWords t.old × (8 ≤ length frame.now) × (1056 ≤ length room.old) }
    ensures { (d : Device) → Encodes t.old d → Served d (stream_id frame.now) (command ticket frame.now) t.new room.old room.new 0 result }
{
    let stream = frame::stream(frame);
    let asked = Asked { stream, ticket };
    match carry_out(t, asked, frame, room) {
        Ok(written) => written,
        Err(error) => answer::put_typed(room, 0, ticket, AnswerType::Error(error), stream),
    }
}

// A command by the type and the length of its frame.
fn carry_out(t: &mut [u32], asked: Asked, frame: &[u8], room: &mut [u8]) -> Result<usize, ErrorCode>
    requires { (length t.old ≡ table_words) × DeviceWords t.old × (8 ≤ length frame.now) × (1056 ≤ length room.old) }
    ensures { (d : Device) → Encodes t.old d → Attempted d asked frame.now t.old t.new room.old room.new result }
{
    let kind = frame::kind(frame);
    let named = frame::check(kind, frame.len())?;
    match named {
        Command::Create => create(t, asked, frame, room),
        Command::Live(live) => to_live(t, live, asked, frame, room),
    }
}

// 0x0101: a new stream in the lowest vacant place, under a number never used before.
fn create(t: &mut [u32], asked: Asked, frame: &[u8], room: &mut [u8]) -> Result<usize, ErrorCode>
    requires { (length t.old ≡ table_words) × (verdict_for frame.now ≡ right create) × (88 ≤ length frame.now) × (1056 ≤ length room.old) }
    ensures { (d : Device) → Encodes t.old d → Attempted d asked frame.now t.old t.new room.old room.new result }
{
    if unusable(t, asked.stream) {
        return Err(ErrorCode::InvalidStream);
    }
    if !frame::creation_good(frame) {
        return Err(ErrorCode::InvalidParameter);
    }
    let Some(k) = vacant_place(t) else {
        return Err(ErrorCode::OutOfMemory);
    };
    let format = frame::coded_format(frame);
    add_stream(t, k, asked.stream, format);
    settle(t, k);
    let kind = AnswerType::Success;
    Ok(answer::put_typed(room, 0, asked.ticket, kind, asked.stream))
}

// All other commands: to a live stream, in its block.
fn to_live(
    t: &mut [u32],
    command: LiveCommand,
    asked: Asked,
    frame: &[u8],
    room: &mut [u8],
) -> Result<usize, ErrorCode>
    requires { (length t.old ≡ table_words) × DeviceWords t.old × (verdict_for frame.now ≡ right (live (live_command_of command))) × (1056 ≤ length room.old) }
    ensures { (d : Device) → Encodes t.old d → Attempted d asked frame.now t.old t.new room.old room.new result }
{
    let Some(k) = live_place(t, asked.stream) else {
        return Err(ErrorCode::InvalidStream);
    };
    let at = PLACE_WORDS * k;
    let written = in_block(&mut t[at..at + PLACE_WORDS], command, asked, frame, room)?;
    settle(t, k);
    Ok(written)
}

// A command to the live stream of a block.
fn in_block(
    block: &mut [u32],
    command: LiveCommand,
    asked: Asked,
    frame: &[u8],
    room: &mut [u8],
) -> Result<usize, ErrorCode>
    requires { (length block.old ≡ 512) × LiveBlock asked.stream block.old × (least_length (live (live_command_of command)) ≤ length frame.now) × (1056 ≤ length room.old) }
    ensures { (b : Stream) → BlockOf asked.stream block.old b → Tried (told asked frame.now b) (on_live (live_command_of command) (told asked frame.now b) b) block.old block.new room.old room.new result }
{
    match command {
        LiveCommand::Destroy => Ok(completion::destroy(block, asked, room)),
        LiveCommand::Drain => Ok(stream::drain(block, asked, room)),
        LiveCommand::Control => Err(ErrorCode::UnsupportedControl),
        LiveCommand::ToQueue(k) => to_queue(block, k, asked, frame, room),
    }
}

// A command to the queue that it names.
fn to_queue(
    block: &mut [u32],
    command: QueueCommand,
    asked: Asked,
    frame: &[u8],
    room: &mut [u8],
) -> Result<usize, ErrorCode>
    requires { (length block.old ≡ 512) × LiveBlock asked.stream block.old × (16 ≤ length frame.now) × (queue_length (queue_command_of command) ≤ length frame.now) × (1056 ≤ length room.old) }
    ensures { (b : Stream) → BlockOf asked.stream block.old b → Tried (told asked frame.now b) (on_named (queue_command_of command) (told asked frame.now b) b (queue_named (queue_type frame.now))) block.old block.new room.old room.new result }
{
    let Ok(q) = QueueType::try_from(frame::queue_type(frame)) else {
        return Err(ErrorCode::InvalidParameter);
    };
    Ok(in_queue(block, command, q, asked, frame, room))
}

// A command to a queue.
fn in_queue(
    block: &mut [u32],
    command: QueueCommand,
    q: QueueType,
    asked: Asked,
    frame: &[u8],
    room: &mut [u8],
) -> usize
    requires { (length block.old ≡ 512) × LiveBlock asked.stream block.old × (queue_length (queue_command_of command) ≤ length frame.now) × (1056 ≤ length room.old) }
    ensures { (b : Stream) → BlockOf asked.stream block.old b → Replied asked.stream (on_queue_of (queue_command_of command) (told asked frame.now b) b (queue_type_of q)) block.new room.old room.new result }
{
    match command {
        QueueCommand::CreateResource => stream::create_resource(block, asked, frame, q, room),
        QueueCommand::QueueResource => stream::queue_resource(block, asked, frame, q, room),
        QueueCommand::DestroyAll => stream::destroy_all(block, asked, q, room),
        QueueCommand::Clear => completion::clear(block, asked, q, room),
        QueueCommand::GetParameters => stream::get_parameters(block, asked, q, room),
        QueueCommand::SetParameters => stream::set_parameters(block, asked, frame, q, room),
    }
}
