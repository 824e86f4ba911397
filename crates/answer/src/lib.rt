// Writers of answers into a lent room: ticket, byte count, response. Each returns the place after what it wrote.
#![tactic(auto)]

ghost use Rattle.std.specs.Prelude.{◌≡◌, [], ◌∷◌, ◌++◌, ◌+◌, ◌*◌, ◌≤◌, length, replicate};
ghost use Rattle.std.proofs.lemmas.List.Edits.{sets};
ghost use Rattle.laws.specs.Stores.{Wrote};
ghost use Rattle.model.specs.Device.{Queue, Stream, QueueType as Meant};
ghost use Rattle.model.specs.Answers.{buffer_done, parameters, word_bytes, bytes_of};
ghost use Rattle.model.specs.Commands.{planes, parameter_words};
ghost use Rattle.protocol.specs.Codes.{answer_number};
ghost use Rattle.protocol.specs.QueueTypes.{queue_type_of};
ghost use Rattle.answer.specs.Answer.{answer_to, plain_bytes, NumbersOf};

use protocol::{AnswerType, QueueType};

// The buffers that a queue holds at least and at most.
const MINIMUM: u32 = 1;

const MAXIMUM: u32 = 16;

// The size of the one plane of an input queue.
const INPUT_SIZE: u32 = 262144;

// What is kept of a queue's parameters.
#[derive(Clone, Copy, Debug, PartialEq, Eq)]
pub struct Parameters {
    pub format: u32,
    pub width: u32,
    pub height: u32,
    pub rate: u32,
}

// Writes an answer that is a code and the stream number, 16 bytes.
pub fn put_plain(out: &mut [u8], at: usize, ticket: u32, code: u32, stream: u32) -> usize
    requires { at + 16 ≤ length out.old }
    ensures { Wrote out.old out.new at result (plain_bytes ticket code stream) }
{
    put_words(out, at, &[ticket, 8, code, stream])
}

// The same with the number of a type of answers: plain success, a drain that ended, an error.
pub fn put_typed(out: &mut [u8], at: usize, ticket: u32, kind: AnswerType, stream: u32) -> usize
    requires { at + 16 ≤ length out.old }
    ensures { Wrote out.old out.new at result (plain_bytes ticket (answer_number kind) stream) }
{
    put_plain(out, at, ticket, kind.into(), stream)
}

// Writes the answer to a buffer of either queue, 32 bytes.
pub fn put_buffer(
    out: &mut [u8],
    at: usize,
    ticket: u32,
    stream: u32,
    timestamp: u64,
    flags: u32,
) -> usize
    requires { at + 32 ≤ length out.old }
    ensures { (q : Meant) → Wrote out.old out.new at result (bytes_of (answer_to ticket stream (buffer_done q timestamp flags) ∷ [])) }
{
    let payload = put_words(
        out,
        at,
        &[ticket, 24, AnswerType::BufferDone.into(), stream],
    );
    field::put(out, payload, timestamp);
    put_words(out, payload + 8, &[flags, 0])
}

// Writes the answer to a get, 128 bytes, from what is kept of a queue's parameters.
pub fn put_parameters(
    out: &mut [u8],
    at: usize,
    ticket: u32,
    stream: u32,
    q: QueueType,
    kept: Parameters,
) -> usize
    requires { (at + 128 ≤ length out.old) × (kept.width ≤ 4096) × (kept.height ≤ 4096) }
    ensures next { result ≡ at + 128 }
    ensures whole { (b : Stream) → NumbersOf (queue_type_of q) b kept → Wrote out.old out.new at result (bytes_of (answer_to ticket stream (parameters (parameter_words (queue_type_of q) b)) ∷ [])) }
{
    let planes = planes_of(q, kept.width, kept.height);
    let next = put_words(
        out,
        at,
        &[ticket, 120, AnswerType::Parameters.into(), stream],
    );
    let next = put_words(out, next, &[q.into(), kept.format, kept.width, kept.height]);
    let next = put_words(out, next, &[MINIMUM, MAXIMUM, 0, 0]);
    let next = put_words(out, next, &[kept.width, kept.height, kept.rate]);
    let next = put_words(out, next, &planes);
    put_words(out, next, &[0; 12])
}

// A queue's plane count and its first two pairs of size and stride. The other six pairs are 0.
fn planes_of(q: QueueType, width: u32, height: u32) -> [u32; 5]
    requires { (width ≤ 4096) × (height ≤ 4096) }
    ensures { (Q : Queue) → width ≡ Q.width → height ≡ Q.height → result ++ replicate 12 0 ≡ planes (queue_type_of q) Q }
{
    match q {
        QueueType::Input => [1, INPUT_SIZE, 0, 0, 0],
        QueueType::Output => {
            let size = width * height;
            [2, size, width, size / 2, width]
        }
    }
}

// Writes words.
#[tactic(auto, using(crate::proofs::Laws::sets_word))]
fn put_words(out: &mut [u8], at: usize, words: &[u32]) -> usize
    requires { at + 4 * length words.now ≤ length out.old }
    ensures next { result ≡ at + 4 * length words.now }
    ensures whole { out.new ≡ sets out.old at (word_bytes words.now) }
{
    for (i, word) in words.iter().enumerate() {
        field::put(out, at + 4 * i, *word);
    }
    at + 4 * words.len()
}
