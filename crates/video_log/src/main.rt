// The log program: standard input to standard output, from a fresh table, in fixed memory. All that it does with what it reads is in `replay`.
#![tactic(auto)]

use replay::KeptLine;
use std::io::{Read, Write};

// Why a log was not run to its end.
#[derive(Clone, Copy, Debug, PartialEq, Eq)]
enum Failure {
    Unread,
    Unwritten,
}

impl Failure {
    // What is said of it: a whole line, so that it leaves in one write.
    fn message(self) -> &'static [u8] {
        match self {
            Failure::Unread => b"video_log: the log cannot be read to its end\n",
            Failure::Unwritten => b"video_log: the answers cannot be written\n",
        }
    }
}

// Offers what was read until it is used up, and writes what each call gives.
fn feed_all(
    output: &mut impl Write,
    table: &mut [u32],
    kept: &mut KeptLine,
    piece: &[u8],
) -> Result<(), Failure> {
    let mut out = [0u8; 2112];
    let mut rest = piece;
    while !rest.is_empty() {
        let fed = replay::feed(table, kept, rest, &mut out);
        output
            .write_all(&out[..fed.written])
            .map_err(|_| Failure::Unwritten)?;
        rest = &rest[fed.used..];
    }
    Ok(())
}

// Reads until the log ends, and feeds what came. A proved loop has to end, and nothing says that the input does: so the reads are counted, up to a number
// that no run reaches.
fn read_all(
    input: &mut impl Read,
    output: &mut impl Write,
    table: &mut [u32],
    kept: &mut KeptLine,
) -> Result<(), Failure> {
    let mut piece = [0u8; 4096];
    for _ in 0..u64::MAX {
        let n = input.read(&mut piece).map_err(|_| Failure::Unread)?;
        if n == 0 {
            return Ok(());
        }
        feed_all(output, table, kept, &piece[..n])?;
    }
    Err(Failure::Unread)
}

// Runs a log. Its last line is stepped where it has ended. A read that failed is no end: what is kept of a line is then not stepped.
fn run_log(input: &mut impl Read, output: &mut impl Write) -> Result<(), Failure> {
    let mut table = [0u32; table::TABLE_WORDS];
    let _ = table::fresh(&mut table);
    let mut kept = KeptLine::new();
    read_all(input, output, &mut table, &mut kept)?;
    let mut out = [0u8; 2112];
    let written = replay::last_line(&mut table, &kept, &mut out);
    output
        .write_all(&out[..written])
        .map_err(|_| Failure::Unwritten)
}

fn main(rt: HostRuntime) {
    let mut output = rt.stdout();
    if let Err(failure) = run_log(&mut rt.stdin(), &mut output) {
        // Where even this cannot be said, there is nobody to tell.
        let _ = rt.stderr().write_all(failure.message());
    }
}
