//! Variables.

ghost use Rattle.std.specs.Prelude.{◌≡◌, ◌+◌, ◌-◌, ◌≤◌, length};
ghost use Rattle.cc_base.specs.Tests.{first_of, Judges, JudgesOrNoMemory};
ghost use Rattle.invariant_codec.specs.Formats.{each};
ghost use Rattle.invariant_codec.specs.Parses.{IsRead};
ghost use Rattle.invariant_codec.specs.Symbols.{address, var, var_of, variables};

use crate::expressions::{read_name, read_near_expr};
use crate::fault::{InvFault, InvRefusal};
use crate::numbers::{read_u16, read_within};
use frame_names::Var;
use std::alloc::Global;

/// The address at this offset: its reference, of so many, and its index, of so many symbols. It takes twelve bytes.
#[tactic(auto, using(cc_base::proofs::TestLemmas::appended), unfolding(crate::specs::Symbols::address))]
fn read_address(bytes: &[u8], at: u32, symbols: usize, references: usize) -> Result<Var, InvFault>
    requires short { length bytes.now ≤ 2147483647 }
    ensures { Judges result (first_of ((address symbols references).read bytes.now at).tests)
        (λ v. IsRead bytes.now ((address symbols references).read bytes.now at) v (at + 12)) }
{
    let reference = read_name(bytes, at, references)?;
    let index = read_near_expr(bytes, at + 2, symbols)?;
    Ok(Var::Address(reference, index))
}

/// What a variable has, after its tag, and the offset after it.
#[tactic(auto, using(cc_base::proofs::TestLemmas::appended, cc_base::proofs::TestLemmas::first_tests), unfolding(crate::specs::Symbols::var))]
fn read_var(
    bytes: &[u8],
    at: u32,
    symbols: usize,
    references: usize,
) -> Result<(Var, u32), InvFault>
    requires short { length bytes.now ≤ 2147483647 }
    ensures { Judges result (first_of ((var symbols references).read bytes.now at).tests)
        (λ read. IsRead bytes.now ((var symbols references).read bytes.now at) read.0 read.1) }
{
    let tag = read_within(bytes, at, 1, 4)?;
    if tag == 1 {
        let e = read_near_expr(bytes, at + 1, symbols)?;
        return Ok((Var::Number(e), at + 11));
    }
    if tag == 2 {
        let reference = read_name(bytes, at + 1, references)?;
        return Ok((Var::Reference(reference), at + 3));
    }
    if tag == 3 {
        return Ok((Var::Text, at + 1));
    }
    let address = read_address(bytes, at + 1, symbols, references)?;
    Ok((address, at + 13))
}

/// So many variables from this offset on, and the offset after them.
#[tactic(auto, using(crate::proofs::Counted::none_read, crate::proofs::Counted::all_read))]
fn read_each(
    alloc: Global,
    bytes: &[u8],
    start: u32,
    count: u16,
    symbols: usize,
    references: usize,
) -> Result<(Vec<Var>, u32), InvRefusal>
    requires short { length bytes.now ≤ 2147483647 }
    requires inside { start ≤ length bytes.now }
    ensures { JudgesOrNoMemory result (first_of ((each (var symbols references) count).read bytes.now start).tests)
        (λ read. IsRead bytes.now ((each (var symbols references) count).read bytes.now start) read.0.items read.1) }
{
    let mut variables = Vec::new(alloc);
    let mut at = start;
    for _variable in 0..count {
        let (variable, next) = read_var(bytes, at, symbols, references)?;
        variables.push(variable)?;
        at = next;
    }
    Ok((variables, at))
}

/// Variables, after their count, and the offset after them.
#[tactic(auto, using(cc_base::proofs::TestLemmas::appended, cc_base::proofs::TestLemmas::carried), unfolding(crate::specs::Symbols::variables))]
pub(crate) fn read_variables(
    alloc: Global,
    bytes: &[u8],
    at: u32,
    symbols: usize,
    references: usize,
) -> Result<(Vec<Var>, u32), InvRefusal>
    requires short { length bytes.now ≤ 2147483647 }
    ensures { JudgesOrNoMemory result (first_of ((variables symbols references).read bytes.now at).tests)
        (λ read. IsRead bytes.now ((variables symbols references).read bytes.now at) read.0.items read.1) }
{
    let count = read_u16(bytes, at)?;
    read_each(alloc, bytes, at + 2, count, symbols, references)
}
