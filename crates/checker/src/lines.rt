// How the check of a log stands, and what a line makes of it.
ghost use Rattle.std.specs.Prelude.{◌≡◌, List, [], ℕ, suc, ◌<◌, ◌≤◌, min, length};
ghost use Rattle.table.specs.Blocks.{layout};
ghost use Rattle.line.specs.Split.{lines_in, split};
ghost use Rattle.log_verdict.specs.Kinds.{question_kind, answer_kind, kind_of};
ghost use Rattle.log_verdict.specs.Checking.{CheckState, right_so_far, check_by, conclude};
ghost use Rattle.log_verdict.specs.InPieces.{last_number, in64, check_in64, check_lines_in64, check_piece};
ghost use Rattle.checker.specs.Meant.{due_in, state_in, InRange, verdict_meant, has_stopped};
ghost use Rattle.checker.specs.Took.{Took};

use crate::kinds::{LineKind, kind_of, same_line};
use crate::{Fault, WrongLine};
use line::KeptLine;
use std::marker::Model;

// Before a line, where nothing was wrong so far: its number, and where in the text of the last question's answers those that are due begin and end.
#[derive(Clone, Copy, Debug, PartialEq, Eq)]
pub struct Due {
    pub line: u64,
    pub at: usize,
    pub end: usize,
}

impl Due {
    // Before the next line, whose number is counted as far as 64 bits do.
    fn next(self, at: usize, end: usize) -> Due
        ensures { result ≡ record { line = min (suc self.line) last_number; at = at; end = end } }
    {
        Due {
            line: self.line.saturating_add(1),
            at,
            end,
        }
    }

    // A fault of the line.
    fn wrong(self, fault: Fault) -> WrongLine
        ensures { result ≡ record { fault = fault; line = self.line } }
    {
        WrongLine {
            fault,
            line: self.line,
        }
    }
}

// What a call on a piece did: the bytes used of it, and how the check then stands.
#[derive(Clone, Copy, Debug, PartialEq, Eq)]
pub struct TakenPiece {
    pub used: usize,
    pub state: Result<Due, WrongLine>,
}

// How the check stands before a line: the table that it was lent, the text of the last question's answers, and what is due, or the first wrong line.
#[derive(Drop)]
pub struct Check<'a> {
    table: &'a mut [u32],
    text: [u8; 2112],
    state: Result<Due, WrongLine>,
}

impl<'a> Model for Check<'a> {
    ghost Value = { CheckState };

    ghost view = { λ c. state_in c.state c.table.now c.text };

    ghost invariant = { λ c. InRange c.state × (length c.text ≡ 2112) };
}

impl<'a> Check<'a> {
    // Before the first line, on a table, with nothing due.
    pub fn on_table(table: &'a mut [u32]) -> Check<'a>
        ensures { result ≡ right_so_far table.old [] 1 }
    {
        let first = Due {
            line: 1,
            at: 0,
            end: 0,
        };
        Check::standing(table, [0; 2112], Ok(first))
    }

    // Anywhere in a log.
    pub fn standing(
        table: &'a mut [u32],
        text: [u8; 2112],
        state: Result<Due, WrongLine>,
    ) -> Check<'a>
        ensures { result ≡ state_in state table.old text }
    {
        let state = in_text(state, &text);
        Check { table, text, state }
    }

    // Checks the lines of a log, one after the other.
    pub fn check_lines(&mut self, log: &[u8])
        ensures { self.new ≡ check_lines_in64 layout self.old (lines_in log.now) }
    {
        let mut rest = log;
        while !rest.is_empty() {
            let (line, others) = line::first_line(rest);
            self.check_line(line);
            rest = others;
        }
    }

    // Checks a line.
    pub fn check_line(&mut self, line: &[u8])
        ensures { self.new ≡ check_in64 layout self.old line.now }
    {
        self.state = checked_line(self.table, &mut self.text, self.state, line);
    }

    // Takes a piece, as `take_piece` does.
    pub fn take_piece(&mut self, kept: &mut KeptLine, piece: &[u8]) -> usize
        ensures uses { (result ≤ length piece.now) × (0 < length piece.now → 0 < result) }
        ensures used { result ≡ (split [] piece.now).used }
        ensures means { record { state = self.new; line = kept.new } ≡ check_piece layout (record { state = self.old; line = kept.old }) piece.now }
    {
        let taken = take_piece(self.table, &mut self.text, kept, self.state, piece);
        self.state = taken.state;
        taken.used
    }

    pub fn has_stopped(&self) -> bool
        ensures { result ≡ has_stopped self.now }
    {
        self.state.is_err()
    }

    // The verdict where the log ends.
    pub fn verdict(&self) -> Result<(), WrongLine>
        ensures { verdict_meant result ≡ conclude self.now }
    {
        let due = self.state?;
        if due.at < due.end {
            return Err(due.wrong(Fault::MissingAnswer));
        }
        Ok(())
    }
}

// A state with no more due than stands in the text.
fn in_text(state: Result<Due, WrongLine>, text: &[u8; 2112]) -> Result<Due, WrongLine>
    ensures fits { InRange result }
    ensures means { (t : List ℕ) → state_in result t text.now ≡ state_in state t text.now }
{
    match state {
        Ok(due) => Ok(Due {
            end: due.end.min(text.len()),
            ..due
        }),
        Err(wrong) => Err(wrong),
    }
}

// Takes a piece up to its first byte 10 behind what is kept of the line, and checks the line where it ends. Whoever keeps the parts of a check himself has
// them before him after each piece: a `Checker` does no more.
pub fn take_piece(
    table: &mut [u32],
    text: &mut [u8; 2112],
    kept: &mut KeptLine,
    state: Result<Due, WrongLine>,
    piece: &[u8],
) -> TakenPiece
    ensures size { length text.new ≡ 2112 }
    ensures fits { InRange result.state }
    ensures uses { (result.used ≤ length piece.now) × (0 < length piece.now → 0 < result.used) }
    ensures means { Took (check_piece layout (record { state = state_in state table.old text.old; line = kept.old }) piece.now) piece.now result table.new text.new kept.new }
{
    let before = in_text(state, text);
    match kept.gather(piece) {
        Some(used) => {
            let after = checked_line(table, text, before, kept.bytes());
            kept.clear();
            TakenPiece { used, state: after }
        }
        None => TakenPiece {
            used: piece.len(),
            state: before,
        },
    }
}

// Checks a line. Where one was wrong, nothing that follows is looked at.
fn checked_line(
    table: &mut [u32],
    text: &mut [u8; 2112],
    state: Result<Due, WrongLine>,
    line: &[u8],
) -> Result<Due, WrongLine>
    requires { InRange state }
    ensures size { length text.new ≡ 2112 }
    ensures fits { InRange result }
    ensures means { state_in result table.new text.new ≡ check_in64 layout (state_in state table.old text.old) line.now }
{
    let Ok(due) = state else {
        return state;
    };
    check_by_kind(table, text, due, line)
}

// A line where nothing was wrong so far.
fn check_by_kind(
    table: &mut [u32],
    text: &mut [u8; 2112],
    due: Due,
    line: &[u8],
) -> Result<Due, WrongLine>
    requires { due.end ≤ length text.old }
    ensures size { length text.new ≡ 2112 }
    ensures fits { InRange result }
    ensures means { state_in result table.new text.new ≡ in64 (check_by layout (kind_of line.now) table.old (due_in due.at due.end text.old) due.line line.now) }
{
    match kind_of(line) {
        Some(LineKind::QuestionKind) => check_question(table, text, due, line),
        Some(LineKind::AnswerKind) => check_answer(text, due, line),
        None => Err(due.wrong(Fault::LineRefused)),
    }
}

// A question: no answer may be due. Its step writes the text of those that then are.
fn check_question(
    table: &mut [u32],
    text: &mut [u8; 2112],
    due: Due,
    line: &[u8],
) -> Result<Due, WrongLine>
    requires { due.end ≤ length text.old }
    ensures size { length text.new ≡ 2112 }
    ensures fits { InRange result }
    ensures means { state_in result table.new text.new ≡ in64 (check_by layout question_kind table.old (due_in due.at due.end text.old) due.line line.now) }
{
    if due.at < due.end {
        return Err(due.wrong(Fault::MissingAnswer));
    }
    let written = replay::log_line(table, line, text);
    Ok(due.next(0, written))
}

// An answer: it is to be the first of those that are due.
fn check_answer(text: &[u8; 2112], due: Due, line: &[u8]) -> Result<Due, WrongLine>
    requires { due.end ≤ length text.now }
    ensures fits { InRange result }
    ensures means { (t : List ℕ) → state_in result t text.now ≡ in64 (check_by layout answer_kind t (due_in due.at due.end text.now) due.line line.now) }
{
    if due.end <= due.at {
        return Err(due.wrong(Fault::ExtraAnswer));
    }
    let (answer, others) = line::first_line(&text[due.at..due.end]);
    if !same_line(line, answer) {
        return Err(due.wrong(Fault::DifferentAnswer));
    }
    Ok(due.next(due.end - others.len(), due.end))
}
