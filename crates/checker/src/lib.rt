// The checker of other makers' logs: lines out of a whole log or out of pieces, and a verdict. But for making its table fresh, its only way to the core
// is a line's step in `replay`.
#![tactic(auto)]

ghost use Rattle.std.specs.Prelude.{◌≡◌, ◌<◌, ◌≤◌, [], length, Some};
ghost use Rattle.table.specs.Blocks.{layout};
ghost use Rattle.line.specs.Split.{split};
ghost use Rattle.line.specs.Log.{fresh_table};
ghost use Rattle.log_verdict.specs.Checking.{right_so_far, conclude, log_verdict, fault_number};
ghost use Rattle.log_verdict.specs.InPieces.{CheckReader, check_piece, check_last};
ghost use Rattle.checker.specs.Meant.{fault_meant, verdict_meant, numbered_by, fault_text, wrong_text, has_stopped, state_in};

use crate::lines::Check;
pub use crate::lines::{Due, TakenPiece, take_piece};
use line::KeptLine;
use std::fmt;
use std::marker::Model;
use table::TABLE_WORDS;

mod kinds;
mod lines;

// What is wrong with a line, or with the end of the log. Of a line that is refused the number is the refusal's.
#[derive(Clone, Copy, Debug, PartialEq, Eq)]
pub enum Fault {
    MissingAnswer = 1,
    ExtraAnswer = 2,
    DifferentAnswer = 3,
    LineRefused = 7,
}

// The first wrong line of a log.
#[derive(Clone, Copy, Debug, PartialEq, Eq)]
pub struct WrongLine {
    pub fault: Fault,
    pub line: u64,
}

// A verdict as it crosses to the host: the line that is named, or 0, and the verdict's number.
#[repr(C)]
#[derive(Clone, Copy, Debug, PartialEq, Eq)]
pub struct NumberedVerdict {
    pub line: u64,
    pub verdict: u32,
}

// A log that is checked in pieces, in fixed memory: how the check stands, and what is kept of the line that has not ended.
#[derive(Drop)]
pub struct Checker<'a> {
    check: Check<'a>,
    kept: KeptLine,
}

impl<'a> Model for Checker<'a> {
    ghost Value = { CheckReader };

    ghost view = { λ c. record { state = c.check; line = c.kept } };
}

impl<'a> Checker<'a> {
    // Before the first line, on any table.
    pub fn on_table(table: &'a mut [u32]) -> Checker<'a>
        ensures { result ≡ record { state = right_so_far table.old [] 1; line = [] } }
    {
        Checker {
            check: Check::on_table(table),
            kept: KeptLine::new(),
        }
    }

    // Anywhere in a log.
    pub fn standing(
        table: &'a mut [u32],
        text: [u8; 2112],
        state: Result<Due, WrongLine>,
        kept: KeptLine,
    ) -> Checker<'a>
        ensures { result ≡ record { state = state_in state table.old text; line = kept } }
    {
        Checker {
            check: Check::standing(table, text, state),
            kept,
        }
    }

    // Takes a piece up to its first byte 10 behind what is kept of the line, and checks the line where it ends; returns the bytes used.
    pub fn take_piece(&mut self, piece: &[u8]) -> usize
        ensures uses { (result ≤ length piece.now) × (0 < length piece.now → 0 < result) }
        ensures used { result ≡ (split [] piece.now).used }
        ensures means { self.new ≡ check_piece layout self.old piece.now }
    {
        self.check.take_piece(&mut self.kept, piece)
    }

    // Whether a line was wrong: then no more need be read.
    pub fn has_stopped(&self) -> bool
        ensures { result ≡ has_stopped self.now.state }
    {
        self.check.has_stopped()
    }

    // The verdict where the log ends: the last line is checked too, unless it is empty.
    pub fn verdict(self) -> Result<(), WrongLine>
        ensures { verdict_meant result ≡ conclude (check_last layout self.entry) }
    {
        let Checker { mut check, kept } = self;
        if !kept.is_empty() {
            check.check_line(kept.bytes());
        }
        check.verdict()
    }
}

// The verdict on a whole log.
pub fn check_log(log: &[u8]) -> Result<(), WrongLine>
    ensures { verdict_meant result ≡ log_verdict layout log.now }
{
    let mut table = fresh_table();
    let mut check = Check::on_table(&mut table);
    check.check_lines(log);
    check.verdict()
}

fn fresh_table() -> [u32; TABLE_WORDS]
    ensures { result ≡ fresh_table layout }
{
    let mut table = [0; TABLE_WORDS];
    let _ = table::fresh(&mut table);
    table
}

// The verdict on a whole log, in numbers.
pub fn numbered_verdict(log: &[u8]) -> NumberedVerdict
    ensures { result ≡ numbered_by (log_verdict layout log.now) }
{
    check_log(log).into()
}

// An accepted log names no line.
impl From<Result<(), WrongLine>> for NumberedVerdict {
    ghost from_gives = { λ v n. n ≡ numbered_by (verdict_meant v) };

    fn from(verdict: Result<(), WrongLine>) -> NumberedVerdict {
        match verdict {
            Ok(()) => NumberedVerdict {
                line: 0,
                verdict: 0,
            },
            Err(wrong) => NumberedVerdict {
                line: wrong.line,
                verdict: wrong.fault.into(),
            },
        }
    }
}

impl From<Fault> for u32 {
    ghost from_gives = { λ f n. n ≡ fault_number (fault_meant f) };

    fn from(fault: Fault) -> u32 {
        fault as u32
    }
}

impl Fault {
    // What is printed of it.
    fn text(self) -> &'static str
        ensures { result.now ≡ fault_text self }
    {
        match self {
            Fault::MissingAnswer => "missing",
            Fault::ExtraAnswer => "extra",
            Fault::DifferentAnswer => "different",
            Fault::LineRefused => "refused 7",
        }
    }
}

impl fmt::Display for Fault {
    ghost output = { λ f. Some (fault_text f) };

    fn fmt<W: fmt::Write>(&self, f: &mut fmt::Formatter<W>) -> fmt::Result {
        f.write_str(self.text())
    }
}

impl fmt::Display for WrongLine {
    ghost output = { λ w. Some (wrong_text w) };

    fn fmt<W: fmt::Write>(&self, f: &mut fmt::Formatter<W>) -> fmt::Result {
        write!(f, "line {}: {}", self.line, self.fault)
    }
}

impl std::error::Error for WrongLine {}
