//! What arrivals become after an instruction that takes operands.

ghost use Rattle.std.specs.Prelude.{◌≡◌, [], ◌++◌, IfOk, OnOk, if◌then◌else◌};
ghost use Rattle.std.specs.List.{flat_map};
ghost use Rattle.clause_faults.specs.PassedInstr.{IsRestOfGathered, StandFor, behind_arrivals, behind_call, is_comparing, other_arrivals, pushed};
ghost use Rattle.clause_faults.specs.SharedStacks.{arrivals_at, rest_of, with_one, with_second, with_two};

use crate::ways::arrivals::{Arrival, Arrivals, Seen, arrivals_at};
use crate::ways::gather::gathered;
use crate::ways::hints::Hints;
use crate::ways::homes::home;
use crate::ways::made_values::made_seen;
use cil_model::{Instr, Op, Place, Shape, Test, UnitCall, unit_call};
use std::alloc::{AllocError, Global};

/// Appends what an instruction of one operand makes of the tops.
fn push_with_one(
    out: &mut Arrivals,
    args: &[Place],
    instr: &Instr,
    tops: &[Arrival],
) -> Result<(), AllocError>
    ensures { OnOk result (out.new ≡ out.old ++ flat_map (with_one args.now instr.now) tops.now) }
{
    for top in tops {
        if let Arrival::Over(a, below) = *top {
            out.push(Arrival::Over(made_seen(args, instr, &[a]), below))?;
        }
    }
    Ok(())
}

/// Appends what an instruction of two operands makes of this top and each of the operands below it.
fn push_with_second(
    out: &mut Arrivals,
    args: &[Place],
    instr: &Instr,
    top: Seen,
    seconds: &[Arrival],
) -> Result<(), AllocError>
    ensures { OnOk result (out.new ≡ out.old ++ flat_map (with_second args.now instr.now top) seconds.now) }
{
    for second in seconds {
        if let Arrival::Over(a, below) = *second {
            out.push(Arrival::Over(made_seen(args, instr, &[top, a]), below))?;
        }
    }
    Ok(())
}

/// Appends what an instruction of two operands makes of the tops and of what lies below them.
fn push_with_two(
    out: &mut Arrivals,
    args: &[Place],
    instr: &Instr,
    stacks: &[Arrivals],
    tops: &[Arrival],
) -> Result<(), AllocError>
    ensures { OnOk result (out.new ≡ out.old ++ flat_map (with_two args.now instr.now stacks.now) tops.now) }
{
    for top in tops {
        if let Arrival::Over(b, below) = *top {
            push_with_second(out, args, instr, b, arrivals_at(stacks, below))?;
        }
    }
    Ok(())
}

/// Appends what lies below the tops.
fn push_rests(out: &mut Arrivals, stacks: &[Arrivals], tops: &[Arrival]) -> Result<(), AllocError>
    ensures { OnOk result (out.new ≡ out.old ++ flat_map (rest_of stacks.now) tops.now) }
{
    for top in tops {
        if let Arrival::Over(_, below) = *top {
            out.extend(arrivals_at(stacks, below))?;
        }
    }
    Ok(())
}

/// Returns what the stacks below come to where an instruction takes one operand.
fn behind_one(
    alloc: Global,
    args: &[Place],
    instr: &Instr,
    tops: &[Arrival],
) -> Result<Arrivals, AllocError>
    ensures { IfOk result (λ out. out ≡ flat_map (with_one args.now instr.now) tops.now) }
{
    let mut out = Arrivals::new(alloc);
    push_with_one(&mut out, args, instr, tops)?;
    Ok(out)
}

/// The same of two operands.
fn behind_two(
    alloc: Global,
    args: &[Place],
    instr: &Instr,
    stacks: &[Arrivals],
    tops: &[Arrival],
) -> Result<Arrivals, AllocError>
    ensures { IfOk result (λ out. out ≡ flat_map (with_two args.now instr.now stacks.now) tops.now) }
{
    let mut out = Arrivals::new(alloc);
    push_with_two(&mut out, args, instr, stacks, tops)?;
    Ok(out)
}

/// Returns what lies below the tops.
fn rests(alloc: Global, stacks: &[Arrivals], tops: &[Arrival]) -> Result<Arrivals, AllocError>
    ensures { IfOk result (λ out. out ≡ flat_map (rest_of stacks.now) tops.now) }
{
    let mut out = Arrivals::new(alloc);
    push_rests(&mut out, stacks, tops)?;
    Ok(out)
}

/// The same arrivals again.
fn kept(alloc: Global, tops: &[Arrival]) -> Result<Arrivals, AllocError>
    ensures { IfOk result (λ out. out ≡ tops.now) }
{
    let mut out = Arrivals::new(alloc);
    out.extend(tops)?;
    Ok(out)
}

/// A new value, made by the instruction of this index, on the stacks that come to it.
fn pushed(
    alloc: Global,
    args: &[Place],
    instr: &Instr,
    index: usize,
    tops: &[Arrival],
) -> Result<Arrivals, AllocError>
    ensures { IfOk result (λ out. out ≡ pushed args.now instr.now index tops.now) }
{
    let mut out = Arrivals::new(alloc);
    if !tops.is_empty() {
        out.push(Arrival::Over(made_seen(args, instr, &[]), index))?;
    }
    Ok(out)
}

/// Returns what lies below two operands. The second ones are gathered, so that what lies below them is taken once for
/// each
/// instruction.
fn rests_of_two(
    alloc: Global,
    places: &mut [usize],
    stacks: &[Arrivals],
    tops: &[Arrival],
) -> Result<Arrivals, AllocError>
    ensures { IfOk result (IsRestOfGathered stacks.now tops.now) }
{
    let seconds = rests(alloc, stacks, tops)?;
    let seconds = gathered(alloc, places, seconds.as_slice())?;
    rests(alloc, stacks, seconds.as_slice())
}

/// Returns what comes after a call.
fn behind_call(
    alloc: Global,
    args: &[Place],
    instr: &Instr,
    call: Option<UnitCall>,
    index: usize,
    tops: &[Arrival],
) -> Result<Arrivals, AllocError>
    ensures { IfOk result (λ out. out ≡ behind_call args.now instr.now call index tops.now) }
{
    match call {
        Some(UnitCall::OldValue(_)) => behind_one(alloc, args, instr, tops),
        _ => pushed(alloc, args, instr, index, tops),
    }
}

/// Returns what comes after an instruction that a clause may have, and that is no comparing branch.
fn behind_other(
    alloc: Global,
    args: &[Place],
    instr: &Instr,
    stacks: &[Arrivals],
    index: usize,
    tops: &[Arrival],
) -> Result<Arrivals, AllocError>
    ensures { IfOk result (λ out. out ≡ other_arrivals args.now instr.now instr.now.op stacks.now index tops.now) }
{
    match &instr.op {
        Op::Nop | Op::Branch(Test::Always, _) => kept(alloc, tops),
        Op::Branch(_, _) => rests(alloc, stacks, tops),
        Op::Bin(_) | Op::LoadElem(_) => behind_two(alloc, args, instr, stacks, tops),
        Op::Neg | Op::Not | Op::ConvI4 | Op::Length => behind_one(alloc, args, instr, tops),
        Op::Call(number) => behind_call(alloc, args, instr, unit_call(*number), index, tops),
        _ => pushed(alloc, args, instr, index, tops),
    }
}

/// Returns whether the operation is a comparing branch.
fn is_comparing(op: &Op) -> bool
    ensures { result ≡ is_comparing op.now }
{
    matches!(op, Op::Branch(Test::Cmp(_), _))
}

/// Returns what comes after the instruction of this index, which a clause may have.
fn behind_pure(
    alloc: Global,
    hints: &mut Hints,
    shape: &Shape,
    instr: &Instr,
    stacks: &[Arrivals],
    index: usize,
) -> Result<Arrivals, AllocError>
    ensures { IfOk result (StandFor stacks.now index
        (behind_arrivals shape.now.args instr.now instr.now.op stacks.now index (arrivals_at stacks.now index))) }
{
    let args = shape.args.as_slice();
    let tops = arrivals_at(stacks, index);
    if is_comparing(&instr.op) {
        return rests_of_two(alloc, &mut hints.places, stacks, tops);
    }
    // A new value is put over the instruction that stands for this one.
    let home = home(&mut hints.homes, stacks, index);
    behind_other(alloc, args, instr, stacks, home, tops)
}

/// The same, gathered, so that a branch that many take does not bring the same arrivals again and again.
fn behind_gathered(
    alloc: Global,
    hints: &mut Hints,
    shape: &Shape,
    instr: &Instr,
    stacks: &[Arrivals],
    index: usize,
) -> Result<Arrivals, AllocError>
    ensures { IfOk result (StandFor stacks.now index
        (behind_arrivals shape.now.args instr.now instr.now.op stacks.now index (arrivals_at stacks.now index))) }
{
    let out = behind_pure(alloc, hints, shape, instr, stacks, index)?;
    gathered(alloc, &mut hints.places, out.as_slice())
}

/// Returns what comes after the instruction of this index: nothing where ways end.
pub(crate) fn behind(
    alloc: Global,
    hints: &mut Hints,
    shape: &Shape,
    instr: &Instr,
    stacks: &[Arrivals],
    index: usize,
    goes_on: bool,
) -> Result<Arrivals, AllocError>
    ensures { IfOk result (StandFor stacks.now index
        (if goes_on then behind_arrivals shape.now.args instr.now instr.now.op stacks.now index (arrivals_at stacks.now index) else [])) }
{
    if !goes_on {
        return Ok(Arrivals::new(alloc));
    }
    behind_gathered(alloc, hints, shape, instr, stacks, index)
}
