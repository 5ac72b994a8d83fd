//! What a state knows of its frame and of numbers, as the crates below take it.

ghost use Rattle.std.specs.Prelude.{◌≡◌};
ghost use Rattle.merged_numbers.specs.Known.{known};

use frame_names::Frame;
use merged_numbers::Side;
use number_spans::Span;
use state_facts::Known;

/// The variables and references of a state.
pub(crate) fn frame_of(state: &Known) -> Frame
    ensures variables { result.vars.now ≡ state.now.variables }
    ensures references { result.references.now ≡ state.now.references }
{
    Frame {
        vars: state.variables.as_slice(),
        references: state.references.as_slice(),
    }
}

/// What a state knows of numbers, given the numbers that each symbol may be.
pub(crate) fn side_of<'a>(state: &'a Known, spans: &'a [Span]) -> Side<'a>
    ensures { known result ≡ record { spans = spans.now; bounds = state.now.facts.bounds } }
{
    Side {
        spans,
        bounds: &state.numbers.bounds,
    }
}
