// Searches of the stream places. The contracts speak of all places whose blocks are lent.
ghost use Rattle.std.specs.Prelude.{◌≡◌, ◌<◌, true, List, length, IfSome};
ghost use Rattle.laws.specs.Lists.{all_of, position};
ghost use Rattle.model.specs.Device.{Place};
ghost use Rattle.table.specs.Blocks.{place_words, blocks, blocks_size};
ghost use Rattle.table.specs.Search.{find_stream, find_vacant, head_is, has_all_slots};

use crate::block::{LIVE, NUMBER};
use crate::{PLACE_WORDS, PLACES};

// The place of the stream with that number.
pub fn find_stream(t: &[u32], number: u32) -> Option<usize>
    requires { length t.now ≡ blocks_size }
    ensures within { IfSome result (λ k. k < 8) }
    ensures found { (ps : List Place) → all_of has_all_slots ps ≡ true → t.now ≡ blocks ps → result ≡ find_stream number ps }
{
    find_place(t, 1, number)
}

// The lowest vacant place: all its words are zero.
pub fn find_vacant(t: &[u32]) -> Option<usize>
    requires { length t.now ≡ blocks_size }
    ensures within { IfSome result (λ k. k < 8) }
    ensures found { (ps : List Place) → all_of has_all_slots ps ≡ true → t.now ≡ blocks ps → result ≡ find_vacant ps }
{
    find_place(t, 0, 0)
}

// The lowest place whose block starts with these two words: whether it is live, and the number.
fn find_place(t: &[u32], live: u32, number: u32) -> Option<usize>
    requires { length t.now ≡ blocks_size }
    ensures within { IfSome result (λ k. k < 8) }
    ensures found { (ps : List Place) → all_of has_all_slots ps ≡ true → t.now ≡ blocks ps → result ≡ position (λ p. head_is live number (place_words p)) ps }
{
    (0..PLACES).find(|k| {
        let at = PLACE_WORDS * *k;
        head_is(&t[at..at + PLACE_WORDS], live, number)
    })
}

// Whether a block starts with these two words.
fn head_is(b: &[u32], live: u32, number: u32) -> bool
    requires { length b.now ≡ 512 }
    ensures { result ≡ head_is live number b.now }
{
    b[LIVE] == live && b[NUMBER] == number
}
