//! Constants have 64 bits, since their types say so: each is read once.

ghost use Rattle.std.specs.Prelude.{FitsSigned, map};
ghost use Rattle.std.specs.Int.{w64};
ghost use Rattle.std.specs.List.{AllByRecursion};
ghost use Rattle.array_segments.specs.Segments.{lists_of};
ghost use Rattle.invariant_codec.specs.Spellable.{AreShortBounds, HasShortConstants, IsShort, IsShortDef};

use abs_state::Parts;
use array_contents::{Contents, Segs};
use domain_api::Expr;
use interval_domain::Range;
use pentagon_domain::BoundRow;
use symbolic_values::Def;

/// Reads expressions.
fn read_exprs(exprs: &[Expr])
    ensures { AllByRecursion IsShort exprs.now }
{
    for e in exprs {
        let _k = e.k;
    }
}

/// Reads the expressions at bounds.
fn read_bounds(bounds: &[Vec<Expr>])
    ensures { AllByRecursion (AllByRecursion IsShort) (map (λ bound. bound.items) bounds.now) }
{
    for bound in bounds {
        read_exprs(bound.as_slice());
    }
}

/// Reads the bounds of segments.
fn read_segments(segments: &[Segs<Range>])
    ensures { AllByRecursion AreShortBounds (map lists_of segments.now) }
{
    for segs in segments {
        read_bounds(segs.bounds.as_slice());
    }
}

/// Reads what is known of items.
fn read_contents(contents: &Contents)
    ensures { AllByRecursion AreShortBounds contents.now }
{
    read_segments(contents.segments.as_slice());
}

/// Reads two expressions.
fn read_two(_a: Expr, _b: Expr)
    ensures first { IsShort _a }
    ensures second { IsShort _b }
{}

/// Reads a definition.
fn read_def(def: Def)
    ensures { IsShortDef def }
{
    match def {
        Def::Eq(a, b) => read_two(a, b),
        Def::Lt(a, b) => read_two(a, b),
        Def::LtUn(a, b) => read_two(a, b),
        Def::NullTest(_, _) => {}
        Def::Sub(a, b) => read_two(a, b),
    }
}

/// Reads definitions.
fn read_definitions(definitions: &[(u32, Def)])
    ensures { AllByRecursion (λ d. IsShortDef d.1) definitions.now }
{
    for definition in definitions {
        read_def(definition.1);
    }
}

/// Reads bounds of symbols.
fn read_rows(rows: &[BoundRow])
    ensures { AllByRecursion (λ row. FitsSigned w64 row.k) rows.now }
{
    for row in rows {
        let _k = row.k;
    }
}

/// Reads the constants of a state.
pub(crate) fn read_constants(parts: &Parts)
    ensures { HasShortConstants parts.now }
{
    read_rows(&parts.bounds);
    read_definitions(&parts.definitions);
    read_contents(&parts.contents);
}
