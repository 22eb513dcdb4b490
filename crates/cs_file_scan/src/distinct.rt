//! Numbers of texts, to find texts that are equal.
ghost use Rattle.std.specs.Prelude.{◌≡◌, ◌≢◌, [], AllPairs, IsTrue, drop, get_or};
ghost use Rattle.std.specs.List.Sorted.{IsStrictlyIncreasing};
ghost use Rattle.cs_file_scan.specs.Distinct as distinct;

use cs_wire::word_of;

/// The multiplier of each step: 2 to the 64 divided by the golden ratio.
const FACTOR: u64 = 0x9E37_79B9_7F4A_7C15;

/// Returns the number of a text, for [`NumberChains`](crate::NumberChains). Texts with different numbers differ. Two
/// texts have the same number only by a rare chance, or where someone searched for them. The numbers of one-integer
/// keys rise with the integer, from -2 to the 62 up to 2 to the 62.
#[tactic(auto, using(std::proofs::lemmas::List::Sums::fold_more), unfolding(crate::specs::Distinct::number_of))]
pub fn number_of(text: &[u8]) -> u64
    ensures { result ≡ distinct.number_of text.now }
{
    let mut number = with_more(u64::from(first_byte(text)), word_of(text));
    'bytes: for byte in behind_word(text) {
        number = with_more(number, u64::from(*byte));
    }
    number
}

/// Returns the first byte of a text, or 0 if it is empty.
fn first_byte(text: &[u8]) -> u8
    ensures { result ≡ get_or text.now 0 0 }
{
    if text.is_empty() { 0 } else { text[0] }
}

/// Returns a number with the next part of a text.
fn with_more(number: u64, more: u64) -> u64
    ensures { result ≡ distinct.with_more number more }
{
    number.wrapping_mul(FACTOR).wrapping_add(more)
}

/// Returns the bytes of a text after its first nine.
fn behind_word(text: &[u8]) -> &[u8]
    ensures { result.now ≡ drop 9 text.now }
{
    if 9 < text.len() { &text[9..] } else { &[] }
}

/// Returns whether no two of the numbers are the same. Removes them all. It allocates nothing. It takes time
/// proportional to their count times its logarithm, or to their count if they already rise.
pub(crate) fn take_distinct(numbers: &mut Vec<u64>) -> bool
    ensures distinct { IsTrue result → AllPairs (λ m n. m ≢ n) numbers.old.items }
    ensures emptied { numbers.new.items ≡ [] }
{
    numbers.sort_unstable();
    let rising = is_rising(numbers);
    numbers.clear();
    rising
}

/// Returns whether each number is below the next.
fn is_rising(numbers: &[u64]) -> bool
    ensures { IsTrue result → IsStrictlyIncreasing numbers.now }
{
    'numbers: for i in 1..numbers.len() {
        if numbers[i] <= numbers[i - 1] {
            return false;
        }
    }
    true
}
