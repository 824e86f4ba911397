// Functions on the words of the spent numbers.
ghost use Rattle.std.specs.Prelude.{◌≡◌, ◌%◌, ◌^◌, ◌<◌, length};
ghost use Rattle.model.specs.Numbers.{stream_numbers};
ghost use Rattle.model.specs.Device.{is_spent, spend};
ghost use Rattle.table.specs.Spent.{word_numbers, spent_size, spent_words, decode_spent};

use protocol::STREAM_NUMBERS;

// The numbers of one word.
const WORD_NUMBERS: u32 = 32;

// What the bit of a number counts in its word.
fn bit_of(number: u32) -> u32
    ensures { result ≡ 2 ^ (number % word_numbers) }
{
    1 << (number % WORD_NUMBERS)
}

// Whether the bit of a number is set.
fn bit_is_set(w: &[u32], number: u32) -> bool
    requires { (length w.now ≡ spent_size) × (number < stream_numbers) }
    ensures { result ≡ is_spent number (decode_spent w.now) }
{
    let at = (number / WORD_NUMBERS) as usize;
    let bit = bit_of(number);
    w[at] / bit % 2 == 1
}

// Whether the number is spent; none above the last is.
pub fn is_spent(w: &[u32], number: u32) -> bool
    requires { length w.now ≡ spent_size }
    ensures { result ≡ is_spent number (decode_spent w.now) }
{
    if STREAM_NUMBERS <= number {
        return false;
    }
    bit_is_set(w, number)
}

// The number is spent from now on.
pub fn spend(w: &mut [u32], number: u32)
    requires { (length w.old ≡ spent_size) × (number < stream_numbers) }
    ensures { w.new ≡ spent_words (spend number (decode_spent w.old)) }
{
    if bit_is_set(w, number) {
        return;
    }
    let at = (number / WORD_NUMBERS) as usize;
    let bit = bit_of(number);
    w[at] += bit;
}
