//! Values on the stacks of a clause's code that its tree does not have. The call that closes a clause drops the value
//! where a message should stand, and with it all that was made for that value alone.

ghost use Rattle.std.specs.Prelude.{◌≡◌, ◌+◌, ◌-◌, OnOk, IfOk};
ghost use Rattle.contract_extract.specs.Dropping.{IsBelow, IsWithin, cut, makes, takes};

use crate::trees::tree_stack::TreeStack;
use cil_model::{Op, Test, UnitCall, unit_call};
use std::alloc::AllocError;

/// So many values of a stack are dropped, below so many others at its top.
#[derive(Clone, Copy)]
pub(crate) struct Dropped {
    pub(crate) above: usize,
    pub(crate) count: usize,
}

/// Nothing is dropped.
pub(crate) const NOTHING: Dropped = Dropped { above: 0, count: 0 };

/// Returns how many values an operation takes that a clause may have, if the stack has them. A closing call counts as
/// none.
pub(crate) fn takes(op: &Op) -> usize
    ensures { result ≡ takes op.now }
{
    match op {
        Op::Bin(_) | Op::LoadElem(_) | Op::Branch(Test::Cmp(_), _) => 2,
        Op::Neg | Op::Not | Op::ConvI4 | Op::Length => 1,
        Op::Branch(Test::True | Test::False, _) => 1,
        Op::Call(number) => match unit_call(*number) {
            Some(UnitCall::OldValue(_)) => 1,
            _ => 0,
        },
        _ => 0,
    }
}

/// Returns how many values it makes.
pub(crate) fn makes(op: &Op) -> usize
    ensures { result ≡ makes op.now }
{
    match op {
        Op::Nop | Op::Branch(_, _) => 0,
        _ => 1,
    }
}

/// The same values, below so many more.
pub(crate) fn below(dropped: Dropped, more: usize) -> Dropped
    ensures { IsBelow more dropped result }
{
    match dropped.above.checked_add(more) {
        Some(above) => Dropped {
            above,
            count: dropped.count,
        },
        None => NOTHING,
    }
}

/// Returns what both drop.
pub(crate) fn both(a: Dropped, b: Dropped) -> Dropped
    ensures first { IsWithin result a }
    ensures second { IsWithin result b }
{
    let above = a.above.max(b.above);
    let end = a
        .above
        .saturating_add(a.count)
        .min(b.above.saturating_add(b.count));
    Dropped {
        above,
        count: end.saturating_sub(above),
    }
}

/// Takes the dropped values from a stack from which so many of them are already taken.
pub(crate) fn drop_values(
    stack: &mut TreeStack,
    dropped: Dropped,
    already: usize,
) -> Result<(), AllocError>
    ensures { OnOk result (stack.new.items ≡ cut dropped.above (dropped.count - already) stack.old.items) }
{
    if dropped.count <= already || stack.len() <= dropped.above {
        return Ok(());
    }
    let mut lower = stack.split_off(dropped.above)?;
    let count = (dropped.count - already).min(lower.len());
    let mut rest = lower.split_off(count)?;
    stack.append(&mut rest)
}
