// Whether a number stands twice among elements of some words each. An element's first word is 0 where it is empty, and its second is its
// number: so it is with a queue's slots and with the blocks of a table.
ghost use Rattle.std.specs.Prelude.{◌≡◌, ◌∷◌, ◌≤◌};
ghost use Rattle.laws.specs.Lists.{numbers_in, stands_in, distinct};
ghost use Rattle.valid.specs.Rules.{words_number, Apart, Told};

// A number's mark is its remainder by this. Most numbers find no mark of their own, and so are not compared with any other.
const MARKS: usize = 64;

// Whether no number stands twice. It goes from the last element to the first.
pub fn numbers_distinct<const N: usize>(elements: &[[u32; N]]) -> bool
    requires { 2 ≤ N }
    ensures { result ≡ distinct (numbers_in words_number elements.now) }
{
    let mut marks = [false; MARKS];
    for i in (0..elements.len()).rev() {
        if number_again(&elements[i], &elements[i + 1..], &mut marks) {
            return false;
        }
    }
    true
}

// Whether the element's number stands in one behind it too. Where its mark is missing it does not, and it leaves its mark.
fn number_again<const N: usize>(
    element: &[u32; N],
    behind: &[[u32; N]],
    marks: &mut [bool; MARKS],
) -> bool
    requires { 2 ≤ N }
    ensures { Apart marks.old (numbers_in words_number behind.now) → Told result marks.new (numbers_in words_number (element.now ∷ behind.now)) }
{
    if element[0] == 0 {
        return false;
    }
    let number = element[1];
    let mark = number as usize % MARKS;
    if marks[mark] {
        return number_stands(number, behind);
    }
    marks[mark] = true;
    false
}

// Whether the number stands in one of the elements. Seldom is an element's the same, so that is tested first.
fn number_stands<const N: usize>(number: u32, elements: &[[u32; N]]) -> bool
    requires { 2 ≤ N }
    ensures { result ≡ stands_in number (numbers_in words_number elements.now) }
{
    for element in elements {
        if element[1] == number && element[0] != 0 {
            return true;
        }
    }
    false
}
