//! The lines of a state of one kind, up to the first line of another kind.

ghost use Rattle.std.specs.Prelude.{option_map, IfOk};
ghost use Rattle.cil_model.specs.declared.unit.Unit.{Unit as MethodUnit};
ghost use Rattle.invariant_reader.specs.ArrayReaders.{AreKnownLines, EndsArrays, array_lines};
ghost use Rattle.invariant_reader.specs.CodeNumbers.{IsCodeDefinition, IsCodePair, IsCodeRow, IsCodeVar};
ghost use Rattle.invariant_reader.specs.ReadsBack.{ReadsBack, ReadsSection};
ghost use Rattle.invariant_text.proofs.Sections.{IsNarrowAt};
ghost use Rattle.invariant_text.specs.ReferenceLines.{apart_line};
ghost use Rattle.invariant_text.specs.SymbolLines.{bound_line, definition_line, symbol_line};
ghost use Rattle.invariant_text.specs.VariableLines.{variable_line};

use crate::arrays::{KnownArrays, read_array_line};
use crate::bounds::read_bound_line;
use crate::definitions::read_definition_line;
use crate::kinds::{APART, BOUND, DEFINITION, REFERENCE, SYMBOL, VARIABLE, begins_line};
use crate::pairs::read_apart_line;
use crate::symbols::read_symbol_line;
use crate::variables::read_variable_line;
use domain_api::NoMemory;
use frame_names::Var;
use interval_domain::Range;
use pentagon_domain::BoundRow;
use std::alloc::Global;
use symbolic_values::Def;

/// What variables have, and what is behind their lines.
pub(crate) fn read_variables(
    alloc: Global,
    text: &[u8],
) -> Result<Option<(Vec<Var>, &[u8])>, NoMemory>
    ensures { IfOk result (λ read. (unit : MethodUnit) → ReadsSection (variable_line unit)
        (λ n v. IsCodeVar v) 1 0 text.now (option_map (λ it. (it.0.items, it.1.now)) read)) }
{
    let mut variables = Vec::new(alloc);
    let mut rest = text;
    while begins_line(rest, VARIABLE) {
        let Some((variable, left)) = read_variable_line(rest) else {
            return Ok(None);
        };
        // Never: a line is not empty.
        if left.len() >= rest.len() {
            return Ok(None);
        }
        variables.push(variable)?;
        rest = left;
    }
    Ok(Some((variables, rest)))
}

/// The ranges of symbols, and what is behind their lines.
pub(crate) fn read_symbols(
    alloc: Global,
    text: &[u8],
) -> Result<Option<(Vec<Range>, &[u8])>, NoMemory>
    ensures { IfOk result (λ read. ReadsSection symbol_line IsNarrowAt 2 1 text.now
        (option_map (λ it. (it.0.items, it.1.now)) read)) }
{
    let mut ranges = Vec::new(alloc);
    let mut rest = text;
    while begins_line(rest, SYMBOL) {
        let Some(read) = read_symbol_line(rest) else {
            return Ok(None);
        };
        let (range, left) = read;
        // Never: a line is not empty.
        if left.len() >= rest.len() {
            return Ok(None);
        }
        ranges.push(range)?;
        rest = left;
    }
    Ok(Some((ranges, rest)))
}

/// What is known of references, with the segments of each, and what is behind their lines.
pub(crate) fn read_references(
    alloc: Global,
    text: &[u8],
) -> Result<Option<(KnownArrays, &[u8])>, NoMemory>
    ensures { IfOk result (λ read. ReadsBack array_lines AreKnownLines EndsArrays text.now
        (option_map (λ it. (it.0, it.1.now)) read)) }
{
    let mut arrays = KnownArrays::new(alloc);
    let mut rest = text;
    while begins_line(rest, REFERENCE) {
        let Some(read) = read_array_line(alloc, rest)? else {
            return Ok(None);
        };
        let (array, left) = read;
        // Never: a line is not empty.
        if left.len() >= rest.len() {
            return Ok(None);
        }
        arrays.add(array)?;
        rest = left;
    }
    Ok(Some((arrays, rest)))
}

/// Bounds, and what is behind their lines.
pub(crate) fn read_bounds(
    alloc: Global,
    text: &[u8],
) -> Result<Option<(Vec<BoundRow>, &[u8])>, NoMemory>
    ensures { IfOk result (λ read. ReadsSection (λ n row. bound_line row) (λ n row. IsCodeRow row) 4 0 text.now
        (option_map (λ it. (it.0.items, it.1.now)) read)) }
{
    let mut rows = Vec::new(alloc);
    let mut rest = text;
    while begins_line(rest, BOUND) {
        let Some((row, left)) = read_bound_line(rest) else {
            return Ok(None);
        };
        // Never: a line is not empty.
        if left.len() >= rest.len() {
            return Ok(None);
        }
        rows.push(row)?;
        rest = left;
    }
    Ok(Some((rows, rest)))
}

/// Definitions, and what is behind their lines.
pub(crate) fn read_definitions(
    alloc: Global,
    text: &[u8],
) -> Result<Option<(Vec<(u32, Def)>, &[u8])>, NoMemory>
    ensures { IfOk result (λ read. ReadsSection (λ n d. definition_line d)
        (λ n d. IsCodeDefinition d) 5 0 text.now (option_map (λ it. (it.0.items, it.1.now)) read)) }
{
    let mut definitions = Vec::new(alloc);
    let mut rest = text;
    while begins_line(rest, DEFINITION) {
        let Some((definition, left)) = read_definition_line(rest) else {
            return Ok(None);
        };
        // Never: a line is not empty.
        if left.len() >= rest.len() {
            return Ok(None);
        }
        definitions.push(definition)?;
        rest = left;
    }
    Ok(Some((definitions, rest)))
}

/// Which references are apart, and what is behind their lines.
pub(crate) fn read_apart(
    alloc: Global,
    text: &[u8],
) -> Result<Option<(Vec<(u32, u32)>, &[u8])>, NoMemory>
    ensures { IfOk result (λ read. ReadsSection (λ n p. apart_line p) (λ n p. IsCodePair p) 6 0 text.now
        (option_map (λ it. (it.0.items, it.1.now)) read)) }
{
    let mut pairs = Vec::new(alloc);
    let mut rest = text;
    while begins_line(rest, APART) {
        let Some((pair, left)) = read_apart_line(rest) else {
            return Ok(None);
        };
        // Never: a line is not empty.
        if left.len() >= rest.len() {
            return Ok(None);
        }
        pairs.push(pair)?;
        rest = left;
    }
    Ok(Some((pairs, rest)))
}
