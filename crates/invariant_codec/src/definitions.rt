//! Definitions of symbols.

ghost use Rattle.std.specs.Prelude.{◌≡◌, ◌≢◌, ◌+◌, ◌-◌, ◌≤◌, length};
ghost use Rattle.cc_base.specs.Tests.{first_of, Judges, JudgesOrNoMemory};
ghost use Rattle.invariant_codec.specs.Formats.{comes_after, in_order};
ghost use Rattle.invariant_codec.specs.Parses.{IsRead};
ghost use Rattle.invariant_codec.specs.Symbols.{def, def_of_two, def_with_two, definition, definition_precedes};
ghost use Rattle.invariant_codec.specs.Symbols.{definitions, next_definition, null_test};

use crate::expressions::{read_expr, read_name, read_proper_name};
use crate::fault::{InvFault, InvRefusal};
use crate::numbers::{read_flag, read_u16, read_within};
use domain_api::Expr;
use std::alloc::Global;
use symbolic_values::Def;

/// The test at this offset whether a reference is null, of so many. It takes three bytes.
#[tactic(auto, using(cc_base::proofs::TestLemmas::appended), unfolding(crate::specs::Symbols::null_test))]
fn read_null_test(bytes: &[u8], at: u32, references: usize) -> Result<Def, InvFault>
    requires short { length bytes.now ≤ 2147483647 }
    ensures { Judges result (first_of ((null_test references).read bytes.now at).tests)
        (λ d. IsRead bytes.now ((null_test references).read bytes.now at) d (at + 3)) }
{
    let reference = read_name(bytes, at, references)?;
    let is_null = read_flag(bytes, at + 2)?;
    Ok(Def::NullTest(reference, is_null))
}

/// The definition of a tag other than 4, by two expressions.
fn def_of_two(tag: u8, a: Expr, b: Expr) -> Def
    ensures { result ≡ def_of_two tag a b }
{
    match tag {
        1 => Def::Eq(a, b),
        2 => Def::Lt(a, b),
        3 => Def::LtUn(a, b),
        _ => Def::Sub(a, b),
    }
}

/// The definition at this offset by two expressions, of so many symbols. It takes twenty bytes.
#[tactic(auto, using(cc_base::proofs::TestLemmas::appended), unfolding(crate::specs::Symbols::def_with_two))]
fn read_def_with_two(bytes: &[u8], at: u32, symbols: usize, tag: u8) -> Result<Def, InvFault>
    requires short { length bytes.now ≤ 2147483647 }
    ensures { Judges result (first_of ((def_with_two symbols tag).read bytes.now at).tests)
        (λ d. IsRead bytes.now ((def_with_two symbols tag).read bytes.now at) d (at + 20)) }
{
    let a = read_expr(bytes, at, symbols)?;
    let b = read_expr(bytes, at + 10, symbols)?;
    Ok(def_of_two(tag, a, b))
}

/// What a symbol is, after its tag, and the offset after it.
#[tactic(auto, using(cc_base::proofs::TestLemmas::appended), unfolding(crate::specs::Symbols::def))]
fn read_def(
    bytes: &[u8],
    at: u32,
    symbols: usize,
    references: usize,
) -> Result<(Def, u32), InvFault>
    requires short { length bytes.now ≤ 2147483647 }
    ensures { Judges result (first_of ((def symbols references).read bytes.now at).tests)
        (λ read. IsRead bytes.now ((def symbols references).read bytes.now at) read.0 read.1) }
{
    let tag = read_within(bytes, at, 1, 5)?;
    if tag == 4 {
        let def = read_null_test(bytes, at + 1, references)?;
        return Ok((def, at + 4));
    }
    let def = read_def_with_two(bytes, at + 1, symbols, tag)?;
    Ok((def, at + 21))
}

/// The definition of a symbol at this offset, and the offset after it.
#[tactic(auto, using(cc_base::proofs::TestLemmas::appended), unfolding(crate::specs::Symbols::definition))]
fn read_definition(
    bytes: &[u8],
    at: u32,
    symbols: usize,
    references: usize,
) -> Result<((u32, Def), u32), InvFault>
    requires short { length bytes.now ≤ 2147483647 }
    ensures { Judges result (first_of ((definition symbols references).read bytes.now at).tests)
        (λ read. IsRead bytes.now ((definition symbols references).read bytes.now at) read.0 read.1) }
{
    let symbol = read_proper_name(bytes, at, symbols)?;
    let (def, next) = read_def(bytes, at + 2, symbols, references)?;
    Ok(((symbol, def), next))
}

/// Returns whether the definition of a symbol comes after another one, if there is one.
fn comes_after(last: Option<(u32, Def)>, definition: (u32, Def)) -> bool
    ensures { result ≡ comes_after definition_precedes last definition }
{
    match last {
        Some(last) => last.0 < definition.0,
        None => true,
    }
}

/// The definition at this offset, which comes after this one, if there is one, and the offset after it.
#[tactic(auto, using(cc_base::proofs::TestLemmas::appended, cc_base::proofs::TestLemmas::first_tests))]
fn read_next(
    bytes: &[u8],
    at: u32,
    symbols: usize,
    references: usize,
    last: Option<(u32, Def)>,
) -> Result<((u32, Def), u32), InvFault>
    requires short { length bytes.now ≤ 2147483647 }
    ensures { Judges result (first_of ((next_definition symbols references last).read bytes.now at).tests)
        (λ read. IsRead bytes.now ((next_definition symbols references last).read bytes.now at) read.0 read.1) }
{
    let (definition, next) = read_definition(bytes, at, symbols, references)?;
    if !comes_after(last, definition) {
        return Err(InvFault::Form(at));
    }
    Ok((definition, next))
}

/// So many definitions from this offset on, in order, and the offset after them.
#[tactic(auto, using(crate::proofs::Counted::none_read, crate::proofs::Counted::all_read))]
fn read_each(
    alloc: Global,
    bytes: &[u8],
    start: u32,
    count: u16,
    symbols: usize,
    references: usize,
) -> Result<(Vec<(u32, Def)>, u32), InvRefusal>
    requires short { length bytes.now ≤ 2147483647 }
    requires inside { start ≤ length bytes.now }
    ensures { JudgesOrNoMemory result (first_of ((in_order definition_precedes (definition symbols references) count).read bytes.now start).tests)
        (λ read. IsRead bytes.now ((in_order definition_precedes (definition symbols references) count).read bytes.now start) read.0.items read.1) }
{
    let mut definitions = Vec::new(alloc);
    let mut last = None;
    let mut at = start;
    for _definition in 0..count {
        let (definition, next) = read_next(bytes, at, symbols, references, last)?;
        definitions.push(definition)?;
        last = Some(definition);
        at = next;
    }
    Ok((definitions, at))
}

/// Definitions, after their count, and the offset after them.
#[tactic(auto, using(cc_base::proofs::TestLemmas::appended, cc_base::proofs::TestLemmas::carried), unfolding(crate::specs::Symbols::definitions))]
pub(crate) fn read_definitions(
    alloc: Global,
    bytes: &[u8],
    at: u32,
    symbols: usize,
    references: usize,
) -> Result<(Vec<(u32, Def)>, u32), InvRefusal>
    requires short { length bytes.now ≤ 2147483647 }
    ensures { JudgesOrNoMemory result (first_of ((definitions symbols references).read bytes.now at).tests)
        (λ read. IsRead bytes.now ((definitions symbols references).read bytes.now at) read.0.items read.1) }
{
    let count = read_u16(bytes, at)?;
    read_each(alloc, bytes, at + 2, count, symbols, references)
}
