//! The values that instructions of a clause's code make of their operands.

ghost use Rattle.std.specs.Prelude.{◌≡◌, map, slice_get};
ghost use Rattle.std.specs.Option.{option_and_then};
ghost use Rattle.cil_model.specs.Kinds.{kind_of};
ghost use Rattle.cil_model.specs.UnitCalls.{unit_call};
ghost use Rattle.clause_faults.specs.SharedStacks.{lower, lowest_call, made_seen};
ghost use Rattle.clause_faults.specs.Ways.{asked, asked_by, called_kind, made_kind, misfits};

use crate::ways::arrivals::Seen;
use cil_model::{
    Instr, Kind, Op, Place, UnitCall, element_kind, kind_of, length_kind, operator_kind, takes,
    unary_kind, unit_call,
};

/// The place of a `Result` or of an `OldValue`.
fn asked(call: Option<UnitCall>) -> Option<Place>
    ensures { result ≡ asked call }
{
    match call {
        Some(UnitCall::Result(place) | UnitCall::OldValue(place)) => Some(place),
        _ => None,
    }
}

/// The place for which an operation asks, as a call of `Result` or `OldValue`.
pub fn asked_by(op: &Op) -> Option<Place>
    ensures { result ≡ asked_by op.now }
{
    match op {
        Op::Call(number) => asked(unit_call(*number)),
        _ => None,
    }
}

/// The lower of two IL offsets, where there are any.
pub(crate) fn lower(a: Option<u32>, b: Option<u32>) -> Option<u32>
    ensures { result ≡ lower a b }
{
    match (a, b) {
        (None, b) => b,
        (Some(a), None) => Some(a),
        (Some(a), Some(b)) => Some(a.min(b)),
    }
}

/// The lowest call in these values, if there is one.
fn lowest_call(values: &[Seen]) -> Option<u32>
    ensures { result ≡ lowest_call values.now }
{
    match values {
        [] => None,
        [value, rest @ ..] => lower(value.call, lowest_call(rest)),
    }
}

/// The kind of what a call makes of operands, the top first.
fn called_kind(call: Option<UnitCall>, operands: &[Seen]) -> Option<Kind>
    ensures { result ≡ called_kind call (map (λ value. value.kind) operands.now) }
{
    match (call, operands) {
        (Some(UnitCall::Result(place)), _) => kind_of(place),
        (Some(UnitCall::OldValue(_)), [a, ..]) => a.kind,
        _ => None,
    }
}

/// The kind of an argument.
fn argument_kind(args: &[Place], number: u16) -> Option<Kind>
    ensures { result ≡ option_and_then kind_of (slice_get args.now number) }
{
    match args.get(number as usize) {
        Some(place) => kind_of(*place),
        None => None,
    }
}

/// The kind of what an operation makes of operands, the top first.
fn made_kind(args: &[Place], op: &Op, operands: &[Seen]) -> Option<Kind>
    ensures { result ≡ made_kind args.now op.now (map (λ value. value.kind) operands.now) }
{
    match (op, operands) {
        (Op::LoadArg(number), _) => argument_kind(args, *number),
        (Op::Null, _) => Some(Kind::NullRef),
        (Op::Const(_), _) => Some(Kind::Int),
        (Op::Text(_), _) => Some(Kind::Text),
        (Op::Bin(operator), [b, a, ..]) => operator_kind(*operator, a.kind, b.kind),
        (Op::Neg | Op::Not, [a, ..]) => unary_kind(a.kind),
        (Op::ConvI4, [a, ..]) => a.kind,
        (Op::Length, [a, ..]) => length_kind(a.kind),
        (Op::LoadElem(place), [index, array, ..]) => element_kind(*place, array.kind, index.kind),
        (Op::Call(number), _) => called_kind(unit_call(*number), operands),
        _ => None,
    }
}

/// The value that an instruction makes of these, the top first.
pub(crate) fn made_seen(args: &[Place], instr: &Instr, operands: &[Seen]) -> Seen
    ensures { result ≡ made_seen args.now instr.now operands.now }
{
    let inside = lowest_call(operands);
    let call = match asked_by(&instr.op) {
        Some(_) => lower(Some(instr.at), inside),
        None => inside,
    };
    Seen {
        kind: made_kind(args, &instr.op, operands),
        call,
    }
}

/// Returns whether there is a kind that the place does not take.
pub(crate) fn misfits(place: Place, kind: Option<Kind>) -> bool
    ensures { result ≡ misfits place kind }
{
    match kind {
        Some(kind) => !takes(place, kind),
        None => false,
    }
}
