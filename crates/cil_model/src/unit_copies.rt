//! Copies of instructions, callees and units.

ghost use Rattle.std.specs.Prelude.{◌≡◌, IfOk};

use crate::copies::copy_clauses;
use crate::instruction::{Instr, Op};
use crate::list::List;
use crate::unit::{CalleeInfo, Unit};
use cc_base::NoMemory;
use std::alloc::Global;

impl Op {
    /// A copy. A switch has memory of its own.
    pub fn copy(&self, alloc: Global) -> Result<Op, NoMemory>
        ensures { IfOk result (λ copy. copy ≡ self.now) }
    {
        Ok(match self {
            Op::Nop => Op::Nop,
            Op::LoadArg(n) => Op::LoadArg(*n),
            Op::StoreArg(n) => Op::StoreArg(*n),
            Op::LoadLocal(n) => Op::LoadLocal(*n),
            Op::StoreLocal(n) => Op::StoreLocal(*n),
            Op::Null => Op::Null,
            Op::Const(n) => Op::Const(*n),
            Op::Dup => Op::Dup,
            Op::Pop => Op::Pop,
            Op::Call(number) => Op::Call(*number),
            Op::Return => Op::Return,
            Op::Branch(test, target) => Op::Branch(*test, *target),
            Op::Switch(targets) => Op::Switch(targets.copy(alloc)?),
            Op::Bin(operator) => Op::Bin(*operator),
            Op::Neg => Op::Neg,
            Op::Not => Op::Not,
            Op::ConvI4 => Op::ConvI4,
            Op::Text(token) => Op::Text(*token),
            Op::NewArray(number) => Op::NewArray(*number),
            Op::Length => Op::Length,
            Op::LoadElem(place) => Op::LoadElem(*place),
            Op::StoreElem(place) => Op::StoreElem(*place),
            Op::LoadAddr(number) => Op::LoadAddr(*number),
            Op::LoadInd(place) => Op::LoadInd(*place),
            Op::StoreInd(place) => Op::StoreInd(*place),
        })
    }
}

impl Instr {
    /// A copy. A switch has memory of its own.
    pub fn copy(&self, alloc: Global) -> Result<Instr, NoMemory>
        ensures { IfOk result (λ copy. copy ≡ self.now) }
    {
        Ok(Instr {
            at: self.at,
            size: self.size,
            op: self.op.copy(alloc)?,
        })
    }
}

impl CalleeInfo {
    /// A copy in memory of its own.
    pub fn copy(&self, alloc: Global) -> Result<CalleeInfo, NoMemory>
        ensures { IfOk result (λ copy. copy ≡ self.now) }
    {
        Ok(CalleeInfo {
            name: self.name.copy(alloc)?,
            result: self.result,
            args: self.args.copy(alloc)?,
            clauses: List::from_vec(copy_clauses(alloc, self.clauses.as_slice())?),
        })
    }
}

/// Copies of instructions, in order.
fn copy_instrs(alloc: Global, instrs: &[Instr]) -> Result<Vec<Instr>, NoMemory>
    ensures { IfOk result (λ copies. copies.items ≡ instrs.now) }
{
    let mut copies = Vec::with_capacity(alloc, instrs.len())?;
    for instr in instrs {
        copies.push(instr.copy(alloc)?)?;
    }
    Ok(copies)
}

/// Copies of callees, in order.
fn copy_callees(alloc: Global, callees: &[CalleeInfo]) -> Result<Vec<CalleeInfo>, NoMemory>
    ensures { IfOk result (λ copies. copies.items ≡ callees.now) }
{
    let mut copies = Vec::with_capacity(alloc, callees.len())?;
    for callee in callees {
        copies.push(callee.copy(alloc)?)?;
    }
    Ok(copies)
}

impl Unit {
    /// A copy in memory of its own.
    ///
    /// Cost: linear in the bytes of the unit.
    pub fn copy(&self, alloc: Global) -> Result<Unit, NoMemory>
        ensures { IfOk result (λ copy. copy ≡ self.now) }
    {
        Ok(Unit {
            name: self.name.copy(alloc)?,
            result: self.result,
            args: self.args.copy(alloc)?,
            locals: self.locals.copy(alloc)?,
            max_stack: self.max_stack,
            callees: List::from_vec(copy_callees(alloc, self.callees.as_slice())?),
            code: self.code.copy(alloc)?,
            clauses: List::from_vec(copy_clauses(alloc, self.clauses.as_slice())?),
            body_start: self.body_start,
            instrs: List::from_vec(copy_instrs(alloc, self.instrs.as_slice())?),
        })
    }
}
