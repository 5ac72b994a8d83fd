//! The tests of a method's code that need nothing of its callees but their names.

ghost use Rattle.std.specs.Prelude.{◌≡◌, ⊤, length, nat_le, option_map};
ghost use Rattle.std.specs.List.{list_all};
ghost use Rattle.cc_base.specs.Tests.{first_of, must, Judges, JudgesOrNoMemory};
ghost use Rattle.cil_model.specs.Blocks.{start_of_body};
ghost use Rattle.cil_model.specs.Limits as limits;
ghost use Rattle.cil_model.specs.ShortCode.{AreOfShortCode};
ghost use Rattle.cil_model.specs.declared.shape.Shape.{Shape};
ghost use Rattle.clause_faults.specs.Faults.{first_clause_fault};
ghost use Rattle.method_code.specs.Reading.{AreContractsOf};
ghost use Rattle.unit_builder.specs.Reasons.{blocks_in, code_tests, has_short_name, token_test, token_tests, unit_shape};
ghost use Rattle.unit_builder.specs.Scopes.{info_in};
ghost use Rattle.unit_builder.specs.Sources.{files_of, scope_at};
ghost use Rattle.unit_builder.specs.declared.reason.Reason.TheVariants as reasons;

use crate::names::{is_short_name, unit_name};
use crate::reason::{Reason, UnitRefusal};
use crate::sources::Sources;
use asm_image::MethodRow;
use cil_model::{Instr, MAX_BLOCKS, MAX_INSTRUCTIONS};
use clause_faults::ClauseFault;
use contract_extract::Contracts;
use flow_graph::block_starts;
use method_unit::names_something;
use std::alloc::Global;

/// Tests that there are not too many instructions.
pub(crate) fn check_count(instrs: &[Instr]) -> Result<(), Reason>
    ensures { Judges result (must (nat_le (length instrs.now) limits.MAX_INSTRUCTIONS) reasons.TooLarge) (λ _. ⊤) }
{
    if instrs.len() > MAX_INSTRUCTIONS {
        return Err(Reason::TooLarge);
    }
    Ok(())
}

/// Returns whether the name of the method of a key fits a unit.
#[tactic(auto, using(crate::proofs::CalleeFacts::short_some, crate::proofs::CalleeFacts::short_none))]
fn has_short_name(sources: &Sources<'_>, key: u64) -> bool
    ensures { result ≡ has_short_name (info_in (files_of sources.now)) key }
{
    match sources.method(key) {
        Some(method) => is_short_name(unit_name(method)),
        None => true,
    }
}

/// Returns whether the names of the methods of keys fit a unit.
fn have_short_names(sources: &Sources<'_>, callees: &[u64]) -> bool
    ensures { result ≡ list_all (has_short_name (info_in (files_of sources.now))) callees.now }
{
    callees.iter().all(|key| has_short_name(sources, *key))
}

/// Tests that the names of callees fit a unit.
pub(crate) fn check_callee_names(sources: &Sources<'_>, callees: &[u64]) -> Result<(), Reason>
    ensures { Judges result (must (list_all (has_short_name (info_in (files_of sources.now))) callees.now) reasons.TooLarge) (λ _. ⊤) }
{
    if have_short_names(sources, callees) {
        Ok(())
    } else {
        Err(Reason::TooLarge)
    }
}

/// The contracts that were read of instructions of this shape, or what is wrong with their clauses.
fn contracts_of<'a>(
    method: &MethodRow,
    instrs: &[Instr],
    contracts: &'a Result<Contracts, ClauseFault>,
) -> Result<&'a Contracts, Reason>
    ensures { (shape : Shape) → Judges contracts.now (first_clause_fault instrs.now shape) (AreContractsOf method.now instrs.now)
        → Judges result (option_map reasons.Clauses (first_clause_fault instrs.now shape)) (λ found. AreContractsOf method.now instrs.now found.now) }
{
    match contracts {
        Ok(contracts) => Ok(contracts),
        Err(fault) => Err(Reason::Clauses(*fault)),
    }
}

/// Tests that there are not too many blocks in the body that starts here.
pub(crate) fn check_blocks(
    alloc: Global,
    instrs: &[Instr],
    body_start: u32,
) -> Result<(), UnitRefusal>
    requires lie { AreOfShortCode instrs.now }
    requires start { body_start ≡ start_of_body instrs.now }
    ensures { JudgesOrNoMemory result (must (nat_le (blocks_in instrs.now) limits.MAX_BLOCKS) reasons.TooLarge) (λ _. ⊤) }
{
    let starts = block_starts(alloc, instrs, body_start)?;
    if starts.len() > MAX_BLOCKS {
        return Err(Reason::TooLarge.into());
    }
    Ok(())
}

/// Tests the number of one instruction.
fn check_number(instr: &Instr, callees: usize) -> Result<(), Reason>
    ensures { Judges result (token_test callees instr.now) (λ _. ⊤) }
{
    if names_something(callees, &instr.op) {
        Ok(())
    } else {
        Err(Reason::Token(instr.at))
    }
}

/// Tests that the numbers in the code of a unit with so many callees name something.
#[tactic(auto, unfolding(cc_base::specs::Tests::first_of, crate::specs::Reasons::token_tests))]
pub(crate) fn check_numbers(instrs: &[Instr], callees: usize) -> Result<(), Reason>
    ensures { Judges result (first_of (token_tests callees instrs.now)) (λ _. ⊤) }
{
    for instr in instrs {
        check_number(instr, callees)?;
    }
    Ok(())
}

/// Tests the code of a method, up to what depends on its callees, and returns its contracts. `read` is what was read
/// of them.
#[tactic(auto, using(cc_base::proofs::TestLemmas::carried, cc_base::proofs::TestLemmas::first_tests), unfolding(crate::specs::Reasons::code_tests))]
pub(crate) fn check_code<'a>(
    alloc: Global,
    sources: &Sources<'_>,
    file: u32,
    method: &MethodRow,
    instrs: &[Instr],
    callees: &[u64],
    contracts: &'a Result<Contracts, ClauseFault>,
) -> Result<&'a Contracts, UnitRefusal>
    requires lie { AreOfShortCode instrs.now }
    requires contracts { Judges contracts.now (first_clause_fault instrs.now (unit_shape (scope_at sources.now file) method.now)) (AreContractsOf method.now instrs.now) }
    ensures { JudgesOrNoMemory result (first_of (code_tests (scope_at sources.now file) (unit_shape (scope_at sources.now file) method.now) callees.now instrs.now)) (λ contracts. AreContractsOf method.now instrs.now contracts.now) }
{
    check_count(instrs)?;
    check_callee_names(sources, callees)?;
    let contracts = contracts_of(method, instrs, contracts)?;
    check_blocks(alloc, instrs, contracts.body_start)?;
    check_numbers(instrs, callees.len())?;
    Ok(contracts)
}
