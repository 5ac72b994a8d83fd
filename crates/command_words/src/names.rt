//! Words that may name a file or a method.

ghost use Rattle.std.specs.Prelude.{◌≡◌};
ghost use Rattle.command_words.specs.Words.{is_name_word};

/// Returns whether a word may name a file or a method: it is not empty and does not begin with `-`.
pub fn is_name_word(word: &str) -> bool
    ensures { result ≡ is_name_word word.now }
{
    match word.as_bytes() {
        [] => false,
        [first, ..] => *first != b'-',
    }
}
