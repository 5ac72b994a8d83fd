//! The contract block of a method, read clause by clause.

ghost use Rattle.std.specs.Prelude.{◌≡◌, ◌+◌, ◌≤◌, ◌<◌, None, length, IfOk, IsSome, option_map};
ghost use Rattle.std.specs.List.{AllByRecursion};
ghost use Rattle.cil_model.specs.ClauseTrees.{closing, tree_of};
ghost use Rattle.cil_model.specs.Code.{MeetsStarts};
ghost use Rattle.cil_model.specs.ShortCode.{AreOfShortCode};
ghost use Rattle.clause_faults.specs.ClauseLies.{clause_faults};
ghost use Rattle.clause_faults.specs.Faults.{first_clause_fault, first_fault};
ghost use Rattle.contract_extract.specs.Extracting.{ArePassed, BlockLeft, Goes, IsClosing, LeftBehind, ReadWithin, closed_kind, olds_of};

use crate::read_clause::{ReadClause, read_clause};
use cil_model::{
    Clause, ClauseKind, Instr, MAX_CLAUSES, MAX_OLD_VALUES, Op, Shape, UnitCall, unit_call,
};
use clause_faults::{ClauseFault, ClauseRefusal, check_clause, closes};
use std::alloc::{AllocError, Global};

/// The kind of the clause that an operation closes.
fn closed_kind(op: &Op) -> Option<ClauseKind>
    ensures { result ≡ closed_kind (closing op.now) }
{
    match op {
        Op::Call(number) => match unit_call(*number) {
            Some(UnitCall::Requires(_)) => Some(ClauseKind::Requires),
            Some(UnitCall::Ensures(_)) => Some(ClauseKind::Ensures),
            _ => None,
        },
        _ => None,
    }
}

/// The clauses that were read, and where the code of the next one begins.
#[derive(Drop)]
pub(crate) struct Block {
    pub(crate) clauses: Vec<Clause>,
    /// The number of old values that the clauses have together.
    old_values: usize,
    /// The index of the first instruction after them.
    pub(crate) first: usize,
    /// The IL offset after them.
    pub(crate) start: u32,
}

impl Block {
    /// The next clause, where it keeps the limits with those that were read.
    #[tactic(auto, using(crate::proofs::TreeLemmas::ClauseLimits::limits))]
    fn read_within(
        &self,
        alloc: Global,
        instrs: &[Instr],
        kind: ClauseKind,
    ) -> Result<Option<ReadClause>, AllocError>
        requires lie { AreOfShortCode instrs.now }
        requires has_tree { IsSome (tree_of instrs.now self.now.start) }
        requires counted { self.now.old_values ≡ olds_of self.now.clauses.items }
        requires few { self.now.old_values ≤ MAX_OLD_VALUES }
        ensures { IfOk result (λ read. ReadWithin instrs.now self.now.start self.now.clauses.items kind (option_map (λ clause. (clause.tree, clause.old_values)) read)) }
    {
        let Some(read) = read_clause(alloc, instrs, self.start)? else {
            return Ok(None);
        };
        if self.clauses.len() >= MAX_CLAUSES || read.old_values > MAX_OLD_VALUES - self.old_values {
            return Ok(None);
        }
        Ok(Some(read))
    }
}

impl Block {
    /// Adds the clause that the call of this index closes, if it closes one. Its code has no fault.
    fn add_clause(
        &mut self,
        alloc: Global,
        instrs: &[Instr],
        shape: &Shape,
        last: usize,
    ) -> Result<(), ClauseRefusal>
        requires lie { AreOfShortCode instrs.now }
        requires targets { AllByRecursion (MeetsStarts instrs.now) instrs.now }
        requires left { BlockLeft instrs.now shape.now self.old.clauses.items self.old.old_values self.old.first self.old.start }
        requires closing { IsClosing instrs.now self.old.first last }
        requires within { last < length instrs.now }
        requires clean { first_fault (clause_faults instrs.now shape.now self.old.first last) ≡ None }
        ensures { Goes result (first_clause_fault instrs.now shape.now)
            (λ _. LeftBehind instrs.now shape.now self.new.clauses.items self.new.old_values last) }
    {
        let call = &instrs[last];
        let Some(kind) = closed_kind(&call.op) else {
            return Ok(());
        };
        let Some(read) = self.read_within(alloc, instrs, kind)? else {
            return Err(ClauseFault::TooLong(call.at).into());
        };
        self.clauses.push(Clause {
            kind,
            tree: read.tree,
        })?;
        self.old_values += read.old_values;
        Ok(())
    }

    /// Goes on after the closing call of this index, with the clause that it closes.
    fn close(
        &mut self,
        alloc: Global,
        instrs: &[Instr],
        shape: &Shape,
        last: usize,
    ) -> Result<(), ClauseRefusal>
        requires lie { AreOfShortCode instrs.now }
        requires targets { AllByRecursion (MeetsStarts instrs.now) instrs.now }
        requires left { BlockLeft instrs.now shape.now self.old.clauses.items self.old.old_values self.old.first self.old.start }
        requires closing { IsClosing instrs.now self.old.first last }
        requires within { last < length instrs.now }
        ensures { Goes result (first_clause_fault instrs.now shape.now)
            (λ _. BlockLeft instrs.now shape.now self.new.clauses.items self.new.old_values self.new.first self.new.start × (self.new.first ≡ last + 1)) }
    {
        check_clause(alloc, instrs, shape, self.first, last)?;
        self.add_clause(alloc, instrs, shape, last)?;
        let call = &instrs[last];
        self.first = last + 1;
        self.start = call.at + call.size;
        Ok(())
    }

    /// Goes on after the instruction of this index, with the clause that it closes, if it closes one.
    fn pass(
        &mut self,
        alloc: Global,
        instrs: &[Instr],
        shape: &Shape,
        index: usize,
    ) -> Result<(), ClauseRefusal>
        requires lie { AreOfShortCode instrs.now }
        requires targets { AllByRecursion (MeetsStarts instrs.now) instrs.now }
        requires within { index < length instrs.now }
        requires passed { ArePassed instrs.now shape.now self.old.clauses.items self.old.old_values self.old.first self.old.start index }
        ensures { Goes result (first_clause_fault instrs.now shape.now)
            (λ _. ArePassed instrs.now shape.now self.new.clauses.items self.new.old_values self.new.first self.new.start (index + 1)) }
    {
        if !closes(&instrs[index].op) {
            return Ok(());
        }
        self.close(alloc, instrs, shape, index)
    }
}

/// Reads the clauses that the calls of a method's code close, up to its last instruction.
pub(crate) fn read_clauses(
    alloc: Global,
    instrs: &[Instr],
    shape: &Shape,
) -> Result<Block, ClauseRefusal>
    requires lie { AreOfShortCode instrs.now }
    requires targets { AllByRecursion (MeetsStarts instrs.now) instrs.now }
    ensures { Goes result (first_clause_fault instrs.now shape.now)
        (λ block. ArePassed instrs.now shape.now block.clauses.items block.old_values block.first block.start (length instrs.now)) }
{
    let mut block = Block {
        clauses: Vec::new(alloc),
        old_values: 0,
        first: 0,
        start: 0,
    };
    for index in 0..instrs.len() {
        block.pass(alloc, instrs, shape, index)?;
    }
    Ok(block)
}
