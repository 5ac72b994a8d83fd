//! Expressions whose constants may leave 64 bits.

ghost use Rattle.std.specs.Prelude.{◌≡◌, true, false};
ghost use Rattle.number_spans.specs.Sizes.{IsWide};
ghost use Rattle.merged_numbers.specs.Known.{term, term_of};

use symbolic_values::Key;

/// The number of a symbol, and a constant added to it.
#[derive(Clone, Copy)]
pub(crate) struct Term {
    pub(crate) sym: u32,
    pub(crate) k: i128,
}

impl Term {
    /// A symbol and a constant.
    pub(crate) fn of(sym: u32, k: i64) -> Term
        ensures value { result ≡ term sym k }
        ensures near { IsWide result.k }
    {
        Term {
            sym,
            k: i128::from(k),
        }
    }

    /// What a key stands for on the first side, at its first use.
    pub(crate) fn first_of(key: &Key) -> Term
        ensures value { result ≡ term_of true key.now }
        ensures near { IsWide result.k }
    {
        Term::of(key.s, key.first)
    }

    /// What it stands for on the second side.
    pub(crate) fn second_of(key: &Key) -> Term
        ensures value { result ≡ term_of false key.now }
        ensures near { IsWide result.k }
    {
        Term {
            sym: key.t,
            k: i128::from(key.first) + i128::from(key.shift),
        }
    }
}
