//! States, read of their lines.

ghost use Rattle.std.specs.Prelude.{◌≡◌, option_map, IfOk, IfSome};
ghost use Rattle.invariant_reader.specs.Reading.{HasParts};
ghost use Rattle.invariant_reader.specs.StateReaders.{ReadsParts, ReadsState, StandsFor, reached_parts};
ghost use Rattle.invariant_text.specs.Shape.{IsPrintableState};

use crate::arrays::KnownArrays;
use crate::constants::see_numbers;
use crate::sections::{
    read_apart, read_bounds, read_definitions, read_references, read_symbols, read_variables,
};
use abs_state::{AbsState, Parts};
use domain_api::NoMemory;
use frame_names::Var;
use interval_domain::Range;
use pentagon_domain::BoundRow;
use std::alloc::Global;
use symbolic_values::Def;

/// The parts of a state in which something is reached.
fn joined(
    variables: Vec<Var>,
    ranges: Vec<Range>,
    arrays: KnownArrays,
    bounds: Vec<BoundRow>,
    definitions: Vec<(u32, Def)>,
    apart: Vec<(u32, u32)>,
) -> Parts
    ensures { result ≡ reached_parts variables.items ranges.items arrays bounds.items definitions.items apart.items }
{
    Parts {
        reached: true,
        variables,
        ranges,
        definitions,
        bounds,
        references: arrays.references,
        apart,
        contents: arrays.contents,
    }
}

/// The parts of a state in which something is reached, and what is behind its lines.
fn read_parts(alloc: Global, text: &[u8]) -> Result<Option<(Parts, &[u8])>, NoMemory>
    ensures { IfOk result (λ read. ReadsParts text.now (option_map (λ it. (it.0, it.1.now)) read)) }
{
    let Some(read) = read_variables(alloc, text)? else {
        return Ok(None);
    };
    let (variables, left) = read;
    let Some(read) = read_symbols(alloc, left)? else {
        return Ok(None);
    };
    let (ranges, left) = read;
    let Some(read) = read_references(alloc, left)? else {
        return Ok(None);
    };
    let (arrays, left) = read;
    let Some(read) = read_bounds(alloc, left)? else {
        return Ok(None);
    };
    let (bounds, left) = read;
    let Some(read) = read_definitions(alloc, left)? else {
        return Ok(None);
    };
    let (definitions, left) = read;
    let Some(read) = read_apart(alloc, left)? else {
        return Ok(None);
    };
    let (apart, left) = read;
    let parts = joined(variables, ranges, arrays, bounds, definitions, apart);
    Ok(Some((parts, left)))
}

/// The state of these parts, if there is one.
fn state_of(alloc: Global, parts: &Parts) -> Result<Option<AbsState>, NoMemory>
    ensures printable { IfOk result (λ read. IfSome read IsPrintableState) }
    ensures ordered { IfOk result (λ read. IfSome read HasParts) }
    ensures reads { IfOk result (λ read. StandsFor parts.now read) }
{
    see_numbers(parts);
    AbsState::of_parts(alloc, parts)
}

/// The state in which something is reached whose lines the text begins with, and what is behind them.
pub(crate) fn read_state(alloc: Global, text: &[u8]) -> Result<Option<(AbsState, &[u8])>, NoMemory>
    ensures printable { IfOk result (λ read. IfSome read (λ it. IsPrintableState it.0)) }
    ensures ordered { IfOk result (λ read. IfSome read (λ it. HasParts it.0)) }
    ensures reads { IfOk result (λ read. ReadsState text.now (option_map (λ it. (it.0, it.1.now)) read)) }
{
    let Some(read) = read_parts(alloc, text)? else {
        return Ok(None);
    };
    let (parts, left) = read;
    let Some(state) = state_of(alloc, &parts)? else {
        return Ok(None);
    };
    Ok(Some((state, left)))
}
