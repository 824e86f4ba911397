// Which lines are questions and answers, and when two lines are equal.
ghost use Rattle.std.specs.Prelude.{◌≡◌, take};
ghost use Rattle.log_verdict.specs.Kinds.{lower_case, same_line, kind_of};
ghost use Rattle.checker.specs.Meant.{kind_meant};

use line::LINE_ROOM;

// A frame is a question.
#[derive(Clone, Copy, Debug, PartialEq, Eq)]
pub enum LineKind {
    QuestionKind,
    AnswerKind,
}

// What a line is: an answer by its first two digits, or a frame; nothing of these, as one that is too long.
pub fn kind_of(line: &[u8]) -> Option<LineKind>
    ensures { kind_meant result ≡ kind_of line.now }
{
    if LINE_ROOM <= line.len() {
        return None;
    }
    if begins_with(line, b"80") || begins_with(line, b"ff") {
        return Some(LineKind::AnswerKind);
    }
    let mut frame = [0u8; 4184];
    line::decode_line(line, &mut frame)?;
    Some(LineKind::QuestionKind)
}

// Whether a line begins with two digits, of either case.
fn begins_with(line: &[u8], digits: &[u8; 2]) -> bool
    ensures { result ≡ same_line (take 2 line.now) digits.now }
{
    same_line(&line[..line.len().min(2)], digits)
}

// Whether two lines are equal, the case of digits aside.
pub fn same_line(a: &[u8], b: &[u8]) -> bool
    ensures { result ≡ same_line a.now b.now }
{
    a.len() == b.len()
        && a.iter()
            .zip(b)
            .all(|(x, y)| lower_case(*x) == lower_case(*y))
}

// A digit in lower case; any other byte as it is.
fn lower_case(b: u8) -> u8
    ensures { result ≡ lower_case b }
{
    match b {
        b'A'..=b'F' => b + 32,
        _ => b,
    }
}
