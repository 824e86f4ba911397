// Lines out of what is read in pieces, with room for one line.
ghost use Rattle.std.specs.Prelude.{◌≡◌, ◌≤◌, ◌++◌, List, ℕ, suc, [], length, take, drop};
ghost use Rattle.laws.specs.Lists.{is_empty};
ghost use Rattle.line.specs.Split.{line_room, kept, line_end, split, gathered};

use crate::NEWLINE;
use std::marker::Model;

// The bytes that are kept of a line: the digits of the longest frame, and one more, which shows that the line is over-long.
pub const LINE_ROOM: usize = 8379;

// What is kept of a line that has not ended, in fixed memory: the first `have` bytes of `held`.
#[derive(Drop)]
pub struct KeptLine {
    held: [u8; LINE_ROOM],
    have: usize,
}

// Clauses see the bytes that are kept.
impl Model for KeptLine {
    ghost Value = { List ℕ };

    ghost view = { λ k. take k.have k.held };

    ghost invariant = { λ k. k.have ≤ line_room };
}

impl KeptLine {
    // No byte of a line.
    pub fn new() -> KeptLine
        ensures { result ≡ [] }
    {
        KeptLine {
            held: [0; LINE_ROOM],
            have: 0,
        }
    }

    // What is kept of a line's bytes.
    pub fn from_bytes(line: &[u8]) -> KeptLine
        ensures { result ≡ kept line.now }
    {
        let mut begun = KeptLine::new();
        begun.append(line);
        begun
    }

    // The bytes that are kept.
    pub fn bytes(&self) -> &[u8]
        ensures fits { length result.now ≤ line_room }
        ensures value { result.now ≡ self.now }
    {
        &self.held[..self.have]
    }

    pub fn is_empty(&self) -> bool
        ensures { result ≡ is_empty self.now }
    {
        self.have == 0
    }

    // The next line begins.
    pub fn clear(&mut self)
        ensures { self.new ≡ [] }
    {
        self.have = 0;
    }

    // Takes the bytes of a piece up to its first byte 10, or all, behind those that are kept of the line. Where the line ended, the bytes that were used
    // of the piece; else all were.
    pub fn gather(&mut self, piece: &[u8]) -> Option<usize>
        ensures { gathered result piece.now self.new ≡ split self.old piece.now }
    {
        let n = line_end(piece);
        self.append(&piece[..n]);
        if n < piece.len() { Some(n + 1) } else { None }
    }

    // Keeps text behind the bytes that are kept, as far as it is kept.
    fn append(&mut self, text: &[u8])
        ensures { self.new ≡ kept (self.old ++ text.now) }
    {
        let end = LINE_ROOM.min(self.have + text.len());
        self.held[self.have..end].copy_from_slice(&text[..end - self.have]);
        self.have = end;
    }
}

// The first line of a text, without its byte 10, and what follows that.
pub fn first_line(text: &[u8]) -> (&[u8], &[u8])
    ensures line { result.0.now ≡ take (line_end text.now) text.now }
    ensures rest { result.1.now ≡ drop (suc (line_end text.now)) text.now }
{
    let n = line_end(text);
    (&text[..n], &text[text.len().min(n + 1)..])
}

// Where the first line of a text ends: the place of its first byte 10, or the end of the text.
fn line_end(text: &[u8]) -> usize
    ensures within { result ≤ length text.now }
    ensures value { result ≡ line_end text.now }
{
    text.iter()
        .position(|b| *b == NEWLINE)
        .unwrap_or(text.len())
}
