// Hexadecimal digits: read in either case, written in lower case.
ghost use Rattle.std.specs.Prelude.{◌≡◌, true, ◌+◌, ◌*◌, ◌<◌, ◌≤◌, length, get_or};
ghost use Rattle.std.proofs.lemmas.List.Edits.{sets};
ghost use Rattle.laws.specs.Stores.{Wrote};
ghost use Rattle.line.specs.Hex.{digit_of, is_hex, hex_bytes, lower_digit, hex_pair, hex_text};

// The number of each digit, sixteen bytes to a line; 16 for a byte that is none.
const DIGITS: [u8; 256] = *b"\
    \x10\x10\x10\x10\x10\x10\x10\x10\x10\x10\x10\x10\x10\x10\x10\x10\
    \x10\x10\x10\x10\x10\x10\x10\x10\x10\x10\x10\x10\x10\x10\x10\x10\
    \x10\x10\x10\x10\x10\x10\x10\x10\x10\x10\x10\x10\x10\x10\x10\x10\
    \x00\x01\x02\x03\x04\x05\x06\x07\x08\x09\x10\x10\x10\x10\x10\x10\
    \x10\x0a\x0b\x0c\x0d\x0e\x0f\x10\x10\x10\x10\x10\x10\x10\x10\x10\
    \x10\x10\x10\x10\x10\x10\x10\x10\x10\x10\x10\x10\x10\x10\x10\x10\
    \x10\x0a\x0b\x0c\x0d\x0e\x0f\x10\x10\x10\x10\x10\x10\x10\x10\x10\
    \x10\x10\x10\x10\x10\x10\x10\x10\x10\x10\x10\x10\x10\x10\x10\x10\
    \x10\x10\x10\x10\x10\x10\x10\x10\x10\x10\x10\x10\x10\x10\x10\x10\
    \x10\x10\x10\x10\x10\x10\x10\x10\x10\x10\x10\x10\x10\x10\x10\x10\
    \x10\x10\x10\x10\x10\x10\x10\x10\x10\x10\x10\x10\x10\x10\x10\x10\
    \x10\x10\x10\x10\x10\x10\x10\x10\x10\x10\x10\x10\x10\x10\x10\x10\
    \x10\x10\x10\x10\x10\x10\x10\x10\x10\x10\x10\x10\x10\x10\x10\x10\
    \x10\x10\x10\x10\x10\x10\x10\x10\x10\x10\x10\x10\x10\x10\x10\x10\
    \x10\x10\x10\x10\x10\x10\x10\x10\x10\x10\x10\x10\x10\x10\x10\x10\
    \x10\x10\x10\x10\x10\x10\x10\x10\x10\x10\x10\x10\x10\x10\x10\x10";

// The digit of each number.
const LOWER: [u8; 16] = *b"0123456789abcdef";

// Whether a line is an even number of digits and nothing else.
pub fn is_hex(line: &[u8]) -> bool
    ensures { result ≡ is_hex line.now }
{
    line.len() % 2 == 0 && line.iter().all(|b| digit(*b) < 16)
}

// Stores the bytes that a line's digits stand for from the start of `out`.
pub fn unhex(line: &[u8], out: &mut [u8])
    requires { (is_hex line.now ≡ true) × (length line.now ≤ 2 * length out.old) }
    ensures { out.new ≡ sets out.old 0 (hex_bytes line.now) }
{
    for i in 0..line.len() / 2 {
        out[i] = byte_at(line, i);
    }
}

// Byte `i` of those that a line's digits stand for.
pub fn byte_at(line: &[u8], i: usize) -> u8
    requires { (is_hex line.now ≡ true) × (2 * i + 1 < length line.now) }
    ensures { result ≡ get_or (hex_bytes line.now) i 0 }
{
    16 * digit(line[2 * i]) + digit(line[2 * i + 1])
}

// The number of a digit; 16 for any other byte.
fn digit(b: u8) -> u8
    ensures { result ≡ digit_of b }
{
    DIGITS[b as usize]
}

// Writes the text of bytes; returns the place after it.
pub fn put_hex(bytes: &[u8], out: &mut [u8], at: usize) -> usize
    requires { at + 2 * length bytes.now ≤ length out.old }
    ensures { Wrote out.old out.new at result (hex_text bytes.now) }
{
    for (i, b) in bytes.iter().enumerate() {
        put_byte(*b, out, at + 2 * i);
    }
    at + 2 * bytes.len()
}

// Writes the two digits of a byte.
pub fn put_byte(b: u8, out: &mut [u8], at: usize)
    requires { at + 2 ≤ length out.old }
    ensures { out.new ≡ sets out.old at (hex_pair b) }
{
    out[at] = lower(b / 16);
    out[at + 1] = lower(b % 16);
}

// The digit of a number.
fn lower(n: u8) -> u8
    requires { n < 16 }
    ensures { result ≡ lower_digit n }
{
    LOWER[n as usize]
}
