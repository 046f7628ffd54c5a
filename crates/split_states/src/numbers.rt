//! Numbers of rows.

ghost use Rattle.std.specs.Prelude.{◌≡◌, ◌<◌, length, take, slice_index, IsTrue};
ghost use Rattle.split_states.specs.Rows.{rising};
ghost use Rattle.split_states.specs.Answers.{Repeats};

use doc_value::List;

/// A list of numbers of rows.
pub type Numbers = List<u64>;

/// Whether each number is above the one before it.
pub fn rise(numbers: &[u64]) -> bool
    ensures { result ≡ rising numbers.now }
{
    let mut least: u128 = 0;
    for number in numbers {
        if u128::from(*number) < least {
            return false;
        }
        least = u128::from(*number) + 1;
    }
    true
}

/// Whether a number is among these, by halves where they rise.
pub fn is_among(numbers: &[u64], in_order: bool, number: u64) -> bool
    requires { IsTrue in_order → IsTrue (rising numbers.now) }
    ensures { result ≡ Repeats numbers.now number }
{
    if in_order {
        numbers.binary_search(&number).is_ok()
    } else {
        numbers.contains(&number)
    }
}

/// Whether the number at a place is among those before it, which it isn't where they rise.
pub fn is_repeated(numbers: &[u64], in_order: bool, place: usize) -> bool
    requires within { place < length numbers.now }
    requires order { IsTrue in_order → IsTrue (rising numbers.now) }
    ensures { result ≡ Repeats (take place numbers.now) (slice_index numbers.now place) }
{
    if in_order {
        return false;
    }
    numbers[..place].contains(&numbers[place])
}
