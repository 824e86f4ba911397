// A line to a step or a refusal.
ghost use Rattle.std.specs.Prelude.{◌≡◌, true, List, ℕ, ◌≤◌, length};
ghost use Rattle.std.proofs.lemmas.List.Edits.{sets};
ghost use Rattle.line.specs.Hex.{is_hex, hex_bytes};
ghost use Rattle.line.specs.Line.{command_in, finish_in, drained_in, line_of, of_length, decoded, count_of, command_bytes};

use crate::{Frame, hex};
use protocol::FinishReport;

// The first byte of each kind of frame. Kept as numbers: each is matched once, and an enum would be made only to be matched.
const COMMAND: u8 = 0x00;

const FINISH: u8 = 0x01;

const DRAINED: u8 = 0x02;

// The digits of a frame at least, of a command's at most, and the bytes of a finish and a drained report's.
const SHORTEST: usize = 10;

const LONGEST: usize = 8378;

const FINISH_BYTES: usize = 25;

const DRAINED_BYTES: usize = 5;

// The frame that a line stands for, if it is one; a line that is none is refused with 7. A command's bytes are stored from the start of `frame`, and nothing else is.
pub fn decode_line(line: &[u8], frame: &mut [u8]) -> Option<Frame>
    requires { 4184 ≤ length frame.old }
    ensures fits { count_of result ≤ 4184 }
    ensures means { decoded result frame.new ≡ line_of line.now }
    ensures stored { frame.new ≡ sets frame.old 0 (command_bytes (line_of line.now)) }
{
    if !hex::is_hex(line) || line.len() < SHORTEST {
        return None;
    }
    match hex::byte_at(line, 0) {
        COMMAND => command_in(line, frame),
        FINISH => finish_in(line),
        DRAINED => drained_in(line),
        _ => None,
    }
}

// 00 ticket command.
fn command_in(line: &[u8], frame: &mut [u8]) -> Option<Frame>
    requires { (is_hex line.now ≡ true) × (10 ≤ length line.now) × (4184 ≤ length frame.old) }
    ensures fits { count_of result ≤ 4184 }
    ensures means { decoded result frame.new ≡ command_in (hex_bytes line.now) }
    ensures stored { frame.new ≡ sets frame.old 0 (command_bytes (command_in (hex_bytes line.now))) }
{
    if LONGEST < line.len() {
        return None;
    }
    let mut head = [0u8; 5];
    hex::unhex(&line[0..10], &mut head);
    hex::unhex(&line[10..], frame);
    Some(Frame::Command {
        ticket: field::read::<u32>(&head, 1),
        count: line.len() / 2 - 5,
    })
}

// 01 stream, queue type, resource, flags, timestamp.
fn finish_in(line: &[u8]) -> Option<Frame>
    requires { is_hex line.now ≡ true }
    ensures fits { count_of result ≤ 4184 }
    ensures means { (buffer : List ℕ) → decoded result buffer ≡ finish_in (hex_bytes line.now) }
{
    let Some(bytes) = array_of::<FINISH_BYTES>(line) else {
        return None;
    };
    Some(Frame::Finish(FinishReport {
        stream: field::read::<u32>(&bytes, 1),
        queue: field::read::<u32>(&bytes, 5),
        resource: field::read::<u32>(&bytes, 9),
        flags: field::read::<u32>(&bytes, 13),
        timestamp: field::read::<u64>(&bytes, 17),
    }))
}

// 02 stream.
fn drained_in(line: &[u8]) -> Option<Frame>
    requires { is_hex line.now ≡ true }
    ensures fits { count_of result ≤ 4184 }
    ensures means { (buffer : List ℕ) → decoded result buffer ≡ drained_in (hex_bytes line.now) }
{
    let Some(bytes) = array_of::<DRAINED_BYTES>(line) else {
        return None;
    };
    Some(Frame::Drained {
        stream: field::read::<u32>(&bytes, 1),
    })
}

// The bytes that a line's digits stand for, if they are so many.
fn array_of<const N: usize>(line: &[u8]) -> Option<[u8; N]>
    requires { is_hex line.now ≡ true }
    ensures { result ≡ of_length N (hex_bytes line.now) }
{
    if line.len() / 2 != N {
        return None;
    }
    let mut bytes = [0u8; N];
    hex::unhex(line, &mut bytes);
    Some(bytes)
}
