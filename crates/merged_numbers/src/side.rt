//! One of the states.

ghost use Rattle.std.specs.Prelude.{◌≡◌, slice_get, IfSome};
ghost use Rattle.number_spans.specs.Sizes.{IsWide};
ghost use Rattle.merged_numbers.specs.Known as rule;
ghost use Rattle.merged_numbers.specs.Known.{known};
ghost use Rattle.merged_numbers.specs.Meaning.{AreMeasured, IsMeasured};

use crate::measures::{int32_of, minus};
use crate::term::Term;
use number_spans::Span;
use pentagon_domain::Bounds;

/// What a state knows of numbers.
#[derive(Clone, Copy)]
pub struct Side<'a> {
    /// The numbers that each symbol may be, by all that is known of it, that of symbol s at place s. Symbol 0 is the
    /// number 0.
    pub spans: &'a [Span],
    /// How symbols lie to each other.
    pub bounds: &'a Bounds,
}

impl Side<'_> {
    /// The numbers that a symbol may be, if it is there.
    pub(crate) fn span_of(&self, symbol: u32) -> Option<Span>
        requires { AreMeasured self.now.spans.now }
        ensures value { result ≡ slice_get self.now.spans.now symbol }
        ensures measured { IfSome result IsMeasured }
    {
        self.spans.get(symbol as usize).copied()
    }

    /// The int32 that a term may be.
    #[tactic(auto, unfolding(crate::specs::Known::int32s))]
    pub(crate) fn int32s(&self, x: Term) -> Span
        requires measured { AreMeasured self.now.spans.now }
        requires near { IsWide x.k }
        ensures { result ≡ rule.int32s (known self.now) x }
    {
        match self.span_of(x.sym) {
            None => Span::full(),
            Some(span) => int32_of(span, x.k),
        }
    }

    /// From the greatest number of the first symbol to the least of the second, where both are there.
    #[tactic(auto, unfolding(crate::specs::Known::between))]
    pub(crate) fn between(&self, s: u32, t: u32) -> Option<i128>
        requires { AreMeasured self.now.spans.now }
        ensures { result ≡ rule.between (known self.now) s t }
    {
        let from = self.span_of(s)?;
        let to = self.span_of(t)?;
        Some(minus(to.lo, from.hi))
    }
}
