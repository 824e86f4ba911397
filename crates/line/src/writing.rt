// Answers and refusals as lines of the log.
ghost use Rattle.std.specs.Prelude.{◌≡◌, [], ◌∷◌, ◌+◌, ◌*◌, ◌<◌, ◌≤◌, length};
ghost use Rattle.laws.specs.Stores.{Wrote};
ghost use Rattle.model.specs.Answers.{Written, rewritten};
ghost use Rattle.line.specs.Log.{answer_line, refusal_line, answer_lines, Whole};

use crate::{NEWLINE, hex};

// The first byte of an answer's line and of a refusal's.
const ANSWER: u8 = 0x80;

const REFUSAL: u8 = 0xff;

// Writes a line for each of the answers, which are whole, from the start of `out`; returns the place after the last.
pub fn put_answers(answers: &[u8], out: &mut [u8]) -> usize
    requires { Whole answers.now × (2 * length answers.now ≤ length out.old) }
    ensures bound { result ≤ 2 * length answers.now }
    ensures wrote { Wrote out.old out.new 0 result (answer_lines answers.now) }
{
    let mut end = 0;
    let mut rest = answers;
    while !rest.is_empty() {
        let (answer, others) = rest.split_at(8 + field::read::<u32>(rest, 4) as usize);
        end = put_answer(answer, out, end);
        rest = others;
    }
    end
}

// Writes the line of one answer, which is ticket, byte count and response; the byte count is not written.
fn put_answer(answer: &[u8], out: &mut [u8], at: usize) -> usize
    requires { (8 ≤ length answer.now) × (at + 2 * length answer.now ≤ length out.old) }
    ensures { (w : Written) → answer.now ≡ rewritten (w ∷ []) → Wrote out.old out.new at result (answer_line w) }
{
    hex::put_byte(ANSWER, out, at);
    let middle = hex::put_hex(&answer[0..4], out, at + 2);
    let end = hex::put_hex(&answer[8..], out, middle);
    out[end] = NEWLINE;
    end + 1
}

// Writes the line of a refusal, 5 bytes, at the start of `out`; returns the place after it.
pub fn put_refusal(number: u32, out: &mut [u8]) -> usize
    requires { (number < 256) × (5 ≤ length out.old) }
    ensures bound { result ≤ 5 }
    ensures wrote { Wrote out.old out.new 0 result (refusal_line number) }
{
    hex::put_byte(REFUSAL, out, 0);
    hex::put_byte(number as u8, out, 2);
    out[4] = NEWLINE;
    5
}
