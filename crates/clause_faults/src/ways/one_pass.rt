//! A clause's code, passed once from its start to its closing call.

ghost use Rattle.std.specs.Prelude.{◌≡◌, ◌+◌, ◌^◌, ◌<◌, ◌&&◌, not, length, slice_get, IfOk, OnOk, Some};
ghost use Rattle.cil_model.specs.Blocks.{closes};
ghost use Rattle.cil_model.specs.Offsets.{RiseFrom};
ghost use Rattle.clause_faults.specs.ClauseLies.{LieInOrder, LiesFrom};
ghost use Rattle.clause_faults.specs.PassedInstr.{AreGatheredAt, AreSent, AreSentTo, IsPassed, arrived_fault, closing_fault, lacking_fault, old_call_fault, old_op_fault, taking_fault};
ghost use Rattle.clause_faults.specs.PureCode.{is_pure};
ghost use Rattle.clause_faults.specs.SharedStacks.{arrivals_at, least, old_fault};
ghost use Rattle.clause_faults.specs.Ways.{old_faults, ways_behind};
ghost use Rattle.clause_faults.specs.Faults.{first_fault};

use crate::clause_fault::ClauseFault;
use crate::first_fault::{either, fault_if};
use crate::heights::{any_differs, any_lacks};
use crate::own_faults::{closes, own_fault};
use crate::pure_code::is_pure;
use crate::ways::arrivals::{Arrival, Arrivals, arrivals_at};
use crate::ways::behind::behind;
use crate::ways::gather::gathered;
use crate::ways::hints::Hints;
use crate::ways::made_values::misfits;
use cil_model::{Instr, Op, Place, Shape, Test, UnitCall, index_of, operand_count, unit_call};
use std::alloc::{AllocError, Global};

/// Brings arrivals to what stands at an IL offset, where that lies after the instruction of this index.
fn send(
    code: &[Instr],
    stacks: &mut [Arrivals],
    index: usize,
    later: u32,
    out: &[Arrival],
) -> Result<(), AllocError>
    requires rise { RiseFrom 0 code.now }
    requires same_length { length stacks.old ≡ length code.now }
    ensures { OnOk result (AreSentTo code.now index later out.now stacks.old stacks.new) }
{
    if let Some(to) = index_of(code, later)
        && to > index
    {
        stacks[to].extend(out)?;
    }
    Ok(())
}

/// Brings arrivals to where ways go on after the instruction of this index.
fn send_on(
    code: &[Instr],
    stacks: &mut [Arrivals],
    index: usize,
    instr: &Instr,
    out: &[Arrival],
) -> Result<(), AllocError>
    requires rise { RiseFrom 0 code.now }
    requires same_length { length stacks.old ≡ length code.now }
    requires fits { instr.now.at + instr.now.size < 2 ^ 32 }
    ensures { OnOk result (AreSent code.now index (ways_behind instr.now.op (instr.now.at + instr.now.size)) out.now stacks.old stacks.new) }
{
    let next = instr.at + instr.size;
    match instr.op {
        Op::Branch(Test::Always, target) => send(code, stacks, index, target, out),
        Op::Branch(_, target) => {
            send(code, stacks, index, target, out)?;
            send(code, stacks, index, next, out)
        }
        _ => send(code, stacks, index, next, out),
    }
}

/// Gathers the arrivals at the instruction of this index.
fn gather_at(
    alloc: Global,
    places: &mut [usize],
    stacks: &mut [Arrivals],
    index: usize,
) -> Result<(), AllocError>
    requires { index < length stacks.old }
    ensures { OnOk result (AreGatheredAt index stacks.old stacks.new) }
{
    if stacks[index].len() > 1 {
        stacks[index] = gathered(alloc, places, stacks[index].as_slice())?;
    }
    Ok(())
}

/// The first fault of an `OldValue` of the place over the top.
fn old_fault(at: u32, place: Place, top: Arrival) -> Option<ClauseFault>
    ensures { result ≡ old_fault at place top }
{
    match top {
        Arrival::Empty => None,
        Arrival::Over(value, _) => either(
            value.call.map(ClauseFault::OldForm),
            fault_if(misfits(place, value.kind), ClauseFault::OldForm(at)),
        ),
    }
}

/// The first fault of an `OldValue` of the place over the tops.
fn first_old_fault(at: u32, place: Place, tops: &[Arrival]) -> Option<ClauseFault>
    ensures { result ≡ least (old_fault at place) tops.now }
{
    let mut first = None;
    for top in tops {
        first = either(first, old_fault(at, place, *top));
    }
    first
}

/// The first fault of an operation over the tops, where it is an `OldValue`.
fn old_op_fault(at: u32, op: &Op, tops: &[Arrival]) -> Option<ClauseFault>
    ensures { result ≡ old_op_fault at op.now tops.now }
{
    match op {
        Op::Call(number) => match unit_call(*number) {
            Some(UnitCall::OldValue(place)) => first_old_fault(at, place, tops),
            _ => None,
        },
        _ => None,
    }
}

/// The first fault at an instruction that lacks operands, where some stack of these has too few.
fn lacking_fault(
    instr: &Instr,
    shape: &Shape,
    stacks: &[Arrivals],
    tops: &[Arrival],
) -> Option<ClauseFault>
    ensures { result ≡ lacking_fault shape.now instr.now stacks.now tops.now }
{
    let count = operand_count(shape, &instr.op);
    fault_if(
        any_lacks(stacks, count, tops),
        ClauseFault::StackLeft(instr.at),
    )
}

/// The first fault at an instruction that takes operands, to which these stacks come.
fn taking_fault(
    instr: &Instr,
    shape: &Shape,
    stacks: &[Arrivals],
    tops: &[Arrival],
) -> Option<ClauseFault>
    ensures { result ≡ taking_fault shape.now instr.now stacks.now tops.now }
{
    either(
        lacking_fault(instr, shape, stacks, tops),
        old_op_fault(instr.at, &instr.op, tops),
    )
}

/// The first fault at an instruction that closes the clause, to which these stacks come.
fn closing_fault(
    instr: &Instr,
    shape: &Shape,
    stacks: &[Arrivals],
    tops: &[Arrival],
) -> Option<ClauseFault>
    ensures { result ≡ closing_fault shape.now instr.now stacks.now tops.now }
{
    let count = operand_count(shape, &instr.op);
    fault_if(
        any_differs(stacks, count, tops),
        ClauseFault::StackLeft(instr.at),
    )
}

/// The first fault on the ways at the instruction of this index, to which these stacks come.
fn arrived_fault(
    instrs: &[Instr],
    index: usize,
    instr: &Instr,
    shape: &Shape,
    stacks: &[Arrivals],
    tops: &[Arrival],
) -> Option<ClauseFault>
    requires lie { LieInOrder instrs.now }
    requires there { slice_get instrs.now index ≡ Some instr.now }
    ensures { result ≡ arrived_fault instrs.now shape.now instr.now stacks.now tops.now }
{
    if closes(&instr.op) {
        return closing_fault(instr, shape, stacks, tops);
    }
    if !is_pure(instrs, index, instr) {
        return None;
    }
    taking_fault(instr, shape, stacks, tops)
}

/// Returns whether ways go on after the instruction of this index, where they have its operands.
fn goes_on(instrs: &[Instr], index: usize, instr: &Instr) -> bool
    requires lie { LieInOrder instrs.now }
    requires there { slice_get instrs.now index ≡ Some instr.now }
    ensures { result ≡ (not (closes instr.now.op) && is_pure instrs.now instr.now) }
{
    !closes(&instr.op) && is_pure(instrs, index, instr)
}

/// The code of a clause, among the instructions of its method.
#[derive(Clone, Copy)]
pub(crate) struct ClauseCode<'a> {
    /// The instructions of the method.
    pub instrs: &'a [Instr],
    pub shape: &'a Shape,
    /// The index of the first instruction of the code.
    pub first: usize,
    pub code: &'a [Instr],
    /// The IL offset at which the code begins.
    pub start: u32,
    pub closing: &'a Instr,
}

/// Passes the instruction of this index in the code, and answers its first fault.
pub(crate) fn pass_instr(
    alloc: Global,
    hints: &mut Hints,
    clause: &ClauseCode,
    stacks: &mut [Arrivals],
    index: usize,
    instr: &Instr,
) -> Result<Option<ClauseFault>, AllocError>
    requires lies { LiesFrom clause.now.instrs.now clause.now.first clause.now.code.now }
    requires same_length { length stacks.old ≡ length clause.now.code.now }
    requires within { index < length clause.now.code.now }
    requires there { slice_get clause.now.instrs.now (clause.now.first + index) ≡ Some instr.now }
    ensures { IfOk result (IsPassed clause.now.instrs.now clause.now.shape.now clause.now.start clause.now.closing.now
        clause.now.code.now index instr.now stacks.old stacks.new) }
{
    let at = clause.first + index;
    gather_at(alloc, &mut hints.places, stacks, index)?;
    let own = own_fault(
        clause.instrs,
        at,
        instr,
        clause.shape,
        clause.start,
        clause.closing,
    );
    let tops = arrivals_at(stacks, index);
    let arrived = arrived_fault(clause.instrs, at, instr, clause.shape, stacks, tops);
    let goes_on = goes_on(clause.instrs, at, instr);
    let out = behind(alloc, hints, clause.shape, instr, stacks, index, goes_on)?;
    send_on(clause.code, stacks, index, instr, out.as_slice())?;
    Ok(either(own, arrived))
}
