// The program that checks a log: standard input to one line of standard output, from a fresh table, in fixed memory. All that it does with what it
// reads is in `checker`.
#![tactic(auto)]

use checker::{Checker, WrongLine};
use std::io;
use std::io::{Read, Write};

// Room for the line of a verdict, which has 37 bytes at most: the number of a line has up to 20 digits.
const VERDICT_ROOM: usize = 64;

// Why no verdict was given.
#[derive(Clone, Copy, Debug, PartialEq, Eq)]
enum Failure {
    Unread,
    Unwritten,
}

impl Failure {
    // What is said of it: a whole line, so that it leaves in one write.
    fn message(self) -> &'static [u8] {
        match self {
            Failure::Unread => b"log_check: the log cannot be read to its end\n",
            Failure::Unwritten => b"log_check: the verdict cannot be written\n",
        }
    }
}

// Offers what was read until it is used up.
fn take_all(check: &mut Checker, piece: &[u8]) {
    let mut rest = piece;
    while !rest.is_empty() {
        let used = check.take_piece(rest);
        rest = &rest[used..];
    }
}

// Reads until the log ends or a line was wrong, and checks what came. A proved loop has to end, and nothing says that the input does: so the reads are counted,
// up to a number that no run reaches.
fn read_all(input: &mut impl Read, check: &mut Checker) -> Result<(), Failure> {
    let mut piece = [0u8; 4096];
    for _ in 0..u64::MAX {
        let n = input.read(&mut piece).map_err(|_| Failure::Unread)?;
        if n == 0 {
            return Ok(());
        }
        take_all(check, &piece[..n]);
        if check.has_stopped() {
            return Ok(());
        }
    }
    Err(Failure::Unread)
}

// Writes the verdict in one line, and in one write, since output is not buffered.
fn write_verdict(output: &mut impl Write, verdict: Result<(), WrongLine>) -> io::Result<()> {
    let Err(wrong) = verdict else {
        return output.write_all(b"accepted\n");
    };
    let mut line = [0u8; VERDICT_ROOM];
    let mut rest = &mut line[..];
    writeln!(rest, "{wrong}")?;
    let left = rest.len();
    output.write_all(&line[..line.len().saturating_sub(left)])
}

// Checks a log, and writes the verdict.
fn run_check(input: &mut impl Read, output: &mut impl Write) -> Result<(), Failure> {
    let mut table = [0u32; table::TABLE_WORDS];
    let _ = table::fresh(&mut table);
    let mut check = Checker::on_table(&mut table);
    read_all(input, &mut check)?;
    write_verdict(output, check.verdict()).map_err(|_| Failure::Unwritten)
}

fn main(rt: HostRuntime) {
    let mut output = rt.stdout();
    if let Err(failure) = run_check(&mut rt.stdin(), &mut output) {
        // Where even this cannot be said, there is nobody to tell.
        let _ = rt.stderr().write_all(failure.message());
    }
}
