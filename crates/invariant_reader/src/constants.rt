//! Constants have 64 bits, since their types say so: each is read once.

ghost use Rattle.std.specs.Prelude.{◌≡◌, ◌^◌, ◌<◌, FitsSigned, IfOk, length, map, true};
ghost use Rattle.std.specs.Int.{w64};
ghost use Rattle.std.specs.List.{AllByRecursion};
ghost use Rattle.abs_state.specs.StateParts.{known_of};
ghost use Rattle.array_segments.specs.Segments.{lists_of};
ghost use Rattle.invariant_reader.specs.Reading.{HasParts};
ghost use Rattle.invariant_text.specs.Shape.{AreShortSegments, HasShortNumbers, IsPrintableState, IsShort, IsShortDef};

use abs_state::{AbsState, Parts};
use array_contents::{Contents, Segs};
use domain_api::{Expr, NoMemory};
use interval_domain::Range;
use pentagon_domain::BoundRow;
use std::alloc::Global;
use symbolic_values::Def;

/// Reads expressions.
fn see_exprs(exprs: &[Expr])
    ensures { AllByRecursion IsShort exprs.now }
{
    for e in exprs {
        let _k = e.k;
    }
}

/// Reads the expressions at bounds.
fn see_ends(bounds: &[Vec<Expr>])
    ensures { AllByRecursion (AllByRecursion IsShort) (map (λ bound. bound.items) bounds.now) }
{
    for bound in bounds {
        see_exprs(bound.as_slice());
    }
}

/// Reads the bounds of segments.
fn see_segments(segments: &[Segs<Range>])
    ensures { AllByRecursion AreShortSegments (map lists_of segments.now) }
{
    for segs in segments {
        see_ends(segs.bounds.as_slice());
    }
}

/// Reads what is known of items.
fn see_contents(contents: &Contents)
    ensures { AllByRecursion AreShortSegments contents.now }
{
    see_segments(contents.segments.as_slice());
}

/// Reads two expressions.
fn see_two(_a: Expr, _b: Expr)
    ensures first { IsShort _a }
    ensures second { IsShort _b }
{}

/// Reads a definition.
fn see_def(def: Def)
    ensures { IsShortDef def }
{
    match def {
        Def::Eq(a, b) => see_two(a, b),
        Def::Lt(a, b) => see_two(a, b),
        Def::LtUn(a, b) => see_two(a, b),
        Def::NullTest(_, _) => {}
        Def::Sub(a, b) => see_two(a, b),
    }
}

/// Reads definitions.
fn see_definitions(definitions: &[(u32, Def)])
    ensures { AllByRecursion (λ d. IsShortDef d.1) definitions.now }
{
    for definition in definitions {
        see_def(definition.1);
    }
}

/// Reads bounds of symbols.
fn see_bounds(rows: &[BoundRow])
    ensures { AllByRecursion (λ row. FitsSigned w64 row.k) rows.now }
{
    for row in rows {
        let _k = row.k;
    }
}

/// Symbols and references are counted by 64 bits.
fn see_counts(parts: &Parts)
    ensures symbols { length parts.now.ranges < 2 ^ 64 }
    ensures references { length parts.now.references < 2 ^ 64 }
{
    let _symbols = parts.ranges.len();
    let _references = parts.references.len();
}

/// Reads the numbers of a state.
pub(crate) fn see_numbers(parts: &Parts)
    ensures { HasShortNumbers (known_of parts.now) }
{
    see_counts(parts);
    see_bounds(&parts.bounds);
    see_definitions(&parts.definitions);
    see_contents(&parts.contents);
}

/// Reads a state.
fn see_state(alloc: Global, state: &AbsState) -> Result<(), NoMemory>
    ensures printable { IfOk result (λ _. IsPrintableState state.now) }
    ensures ordered { IfOk result (λ _. HasParts state.now) }
{
    let parts = state.parts(alloc)?;
    see_numbers(&parts);
    Ok(())
}

/// Reads states: their text tells them apart, and is read as them. Nothing else is done.
///
/// Cost: that of the parts of each state.
///
/// # Errors
///
/// Want of memory.
pub fn see_printable(alloc: Global, states: &[AbsState]) -> Result<(), NoMemory>
    ensures printable { IfOk result (λ _. AllByRecursion IsPrintableState states.now) }
    ensures ordered { IfOk result (λ _. AllByRecursion HasParts states.now) }
{
    for state in states {
        see_state(alloc, state)?;
    }
    Ok(())
}
