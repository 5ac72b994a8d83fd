//! The clauses of a method, and the start of its body.

ghost use Rattle.std.specs.Prelude.{IfOk};
ghost use Rattle.std.specs.List.{AllByRecursion};
ghost use Rattle.cc_base.specs.Tests.{JudgesOrNoMemory};
ghost use Rattle.cil_model.specs.Code.{MeetsStarts};
ghost use Rattle.cil_model.specs.Bodies.{HasBody};
ghost use Rattle.cil_model.specs.FitKinds.{AreDecoded};
ghost use Rattle.cil_model.specs.Passes.{KindsOf, Stacks};
ghost use Rattle.cil_model.specs.ShortCode.{AreOfShortCode};
ghost use Rattle.cil_model.specs.TreeKinds.{IsNumberClause};
ghost use Rattle.cil_model.specs.WellFormed.{ClausesWithinLimits};
ghost use Rattle.clause_faults.specs.Faults.{first_clause_fault};
ghost use Rattle.contract_extract.specs.Extracting.{AreContracts};

use crate::block::read_clauses;
use crate::body_code::first_body_fault;
use cil_model::{Clause, Instr, List, Shape};
use clause_faults::ClauseRefusal;
use std::alloc::Global;

/// What the contract block of a method says.
#[derive(Drop)]
pub struct Contracts {
    /// The clauses, in the order of the calls that close them.
    pub clauses: List<Clause>,
    /// Where the body starts, after the block: an IL offset.
    pub body_start: u32,
}

/// The clauses of a method of this shape, from the calls that close them (ECMA-335 III.3.19), and the start of its
/// body; or the first fault of its code that they have, the one of the lowest rank at the lowest IL offset.
///
/// The instructions are those of code of at most 2147483647 bytes.
pub fn extract(alloc: Global, instrs: &[Instr], shape: &Shape) -> Result<Contracts, ClauseRefusal>
    requires lie { AreOfShortCode instrs.now }
    requires targets { AllByRecursion (MeetsStarts instrs.now) instrs.now }
    // The first fault is named. Else the trees are those of the code.
    ensures judged { JudgesOrNoMemory result (first_clause_fault instrs.now shape.now)
        (λ contracts. AreContracts instrs.now contracts.clauses contracts.body_start) }
    ensures limits { IfOk result (λ contracts. ClausesWithinLimits contracts.clauses) }
    // Where the code has kinds, so has each tree: that of a number.
    ensures numbers { (stacks : Stacks) → AreDecoded instrs.now → KindsOf shape.now instrs.now stacks
        → IfOk result (λ contracts. AllByRecursion (IsNumberClause shape.now.args shape.now.result) contracts.clauses) }
    // Where the code has kinds, the body begins with an empty stack, and can be run from there.
    ensures body { (stacks : Stacks) → AreDecoded instrs.now → KindsOf shape.now instrs.now stacks
        → IfOk result (λ contracts. HasBody instrs.now stacks contracts.body_start) }
{
    let block = read_clauses(alloc, instrs, shape)?;
    if let Some(fault) = first_body_fault(block.start, &instrs[block.first..]) {
        return Err(fault.into());
    }
    Ok(Contracts {
        clauses: List::from_vec(block.clauses),
        body_start: block.start,
    })
}
