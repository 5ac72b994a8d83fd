//! Words that are numbers.

ghost use Rattle.std.specs.Prelude.{◌≡◌, ℕ, ◌^◌, ◌<◌, ◌≤◌, ℤ, Some, IfSome, FitsSigned, decimal};
ghost use Rattle.std.specs.Fmt.{signed_decimal};
ghost use Rattle.std.specs.Int.{w32};
ghost use Rattle.run_arguments.specs.Numbers.{number_of_word, int_of_word};

use itoa::Buffer;

/// The number of 32 bits whose decimal text a word is.
fn parse_number(word: &str) -> Option<u32>
    ensures text { IfSome result (λ n. word.now ≡ decimal n) }
    ensures every { (n : ℕ) → n < 2 ^ 32 → word.now ≡ decimal n → result ≡ Some n }
{
    let Ok(number) = word.parse::<u32>() else {
        return None;
    };
    if Buffer::new().format(number) == word {
        return Some(number);
    }
    None
}

/// The number that a word is in decimal, without leading zeros or a sign, where it is at most `most`. Takes time in
/// proportion to the word, and no memory.
#[tactic(auto, using(crate::proofs::NumberLemmas::number_some), unfolding(crate::specs::Numbers::number_of_word))]
pub fn read_number(word: &str, most: u32) -> Option<u32>
    ensures number { result ≡ number_of_word most word.now }
    ensures text { IfSome result (λ n. word.now ≡ decimal n) }
    ensures no_more { IfSome result (λ n. n ≤ most) }
    ensures every { (n : ℕ) → n ≤ most → word.now ≡ decimal n → result ≡ Some n }
{
    let number = parse_number(word)?;
    if number <= most {
        return Some(number);
    }
    None
}

/// The int32 whose decimal text a word is.
#[tactic(auto, unfolding(crate::specs::Numbers::int_of_word))]
pub(crate) fn read_int(word: &str) -> Option<i32>
    ensures { result ≡ int_of_word word.now }
{
    let Ok(int) = word.parse::<i32>() else {
        return None;
    };
    if Buffer::new().format(int) == word {
        return Some(int);
    }
    None
}
