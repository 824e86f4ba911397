// Little-endian fields: a number is read from a part of a frame, and stored in a lent buffer, in as many bytes as it has.
#![tactic(auto)]

ghost use Rattle.std.specs.Prelude.{ℕ, ◌≡◌, ◌+◌, ◌^◌, ◌<◌, ◌≤◌, length};
ghost use Rattle.std.proofs.Common.{lit≤};
ghost use Rattle.std.proofs.lemmas.List.Edits.{sets};
ghost use Rattle.field.specs.Field.{field, little_endian};

// An unsigned number of at most 8 bytes.
pub trait Number: Into<u64> {
    const BYTES: usize;

    ghost BYTES: { ℕ };

    ghost value: { Self → ℕ };

    // The one whose value is `n`.
    fn from_u64(n: u64) -> Self
        requires { n < 256 ^ BYTES }
        ensures { value result ≡ n };

    ghost at_most_8: { BYTES ≤ 8 };

    // What `into` gives is the value.
    ghost into_value: { (x : Self) (n : ℕ) → Self.converts x n → n ≡ value x };
}

impl Number for u16 {
    const BYTES: usize = 2;

    ghost BYTES = { 2 };

    ghost value = { λ x. x };

    ghost at_most_8 = { lit≤ tt };

    ghost into_value = { λ x n e. e };

    fn from_u64(n: u64) -> u16 {
        n as u16
    }
}

impl Number for u32 {
    const BYTES: usize = 4;

    ghost BYTES = { 4 };

    ghost value = { λ x. x };

    ghost at_most_8 = { lit≤ tt };

    ghost into_value = { λ x n e. e };

    fn from_u64(n: u64) -> u32 {
        n as u32
    }
}

impl Number for u64 {
    const BYTES: usize = 8;

    ghost BYTES = { 8 };

    ghost value = { λ x. x };

    ghost at_most_8 = { lit≤ tt };

    ghost into_value = { λ x n e. e };

    fn from_u64(n: u64) -> u64 {
        n
    }
}

// The number in its bytes from `at`.
pub fn read<N: Number>(part: &[u8], at: usize) -> N
    requires { at + N.BYTES ≤ length part.now }
    ensures { N.value result ≡ field N.BYTES part.now at }
{
    let mut bytes = [0; 8];
    for i in 0..N::BYTES {
        bytes[i] = part[at + i];
    }
    N::from_u64(u64::from_le_bytes(bytes))
}

// The number in the 4 bytes from `at` of the payload, which is the part of the frame from offset 8.
pub fn payload_u32(frame: &[u8], at: usize) -> u32
    requires { (8 + at) + 4 ≤ length frame.now }
    ensures { result ≡ field 4 frame.now (8 + at) }
{
    read(frame, 8 + at)
}

// Stores `n` in its bytes from `at`.
pub fn put<N: Number>(out: &mut [u8], at: usize, n: N)
    requires { at + N.BYTES ≤ length out.old }
    ensures { out.new ≡ sets out.old at (little_endian N.BYTES (N.value n)) }
{
    let all: u64 = n.into();
    let bytes = all.to_le_bytes();
    for i in 0..N::BYTES {
        out[at + i] = bytes[i];
    }
}
