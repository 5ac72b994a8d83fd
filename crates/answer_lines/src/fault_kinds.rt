//! What is wrong at faults, by their kinds, as text.

ghost use Rattle.std.specs.Prelude.{◌≡◌, ◌++◌, OnOk, codes, decimal};
ghost use Rattle.std.specs.Option.{option_copied};
ghost use Rattle.answer_lines.specs.FaultKinds.{callee_text, kind_text};

use crate::signatures::append_signature;
use cc_base::put_number;
use cil_model::{CalleeInfo, FaultKind};
use std::alloc::{AllocError, Global};

/// Appends the method that is called, if there is one.
fn put_callee(
    alloc: Global,
    line: &mut Vec<u8>,
    callee: Option<&CalleeInfo>,
) -> Result<(), AllocError>
    ensures { OnOk result (line.new.items ≡ line.old.items ++ callee_text (option_copied callee.entry)) }
{
    match callee {
        Some(info) => append_signature(alloc, line, info.name.as_slice(), info.args.as_slice()),
        None => Ok(()),
    }
}

/// Appends that a Requires of the method that is called is false.
fn put_requires(
    alloc: Global,
    line: &mut Vec<u8>,
    number: u8,
    callee: Option<&CalleeInfo>,
) -> Result<(), AllocError>
    ensures { OnOk result (line.new.items ≡ line.old.items ++ (codes "requires " ++ decimal number ++ codes " of " ++ callee_text (option_copied callee.entry))) }
{
    line.extend_from_slice(b"requires ")?;
    put_number(alloc, line, i64::from(number))?;
    line.extend_from_slice(b" of ")?;
    put_callee(alloc, line, callee)
}

/// Appends that an Ensures is false.
fn put_ensures(alloc: Global, line: &mut Vec<u8>, number: u8) -> Result<(), AllocError>
    ensures { OnOk result (line.new.items ≡ line.old.items ++ (codes "ensures " ++ decimal number)) }
{
    line.extend_from_slice(b"ensures ")?;
    put_number(alloc, line, i64::from(number))
}

/// Appends what is wrong at a fault of this kind, where this method is called. An error may leave a part of it.
pub fn append_kind(
    alloc: Global,
    line: &mut Vec<u8>,
    callee: Option<&CalleeInfo>,
    kind: FaultKind,
) -> Result<(), AllocError>
    ensures { OnOk result (line.new.items ≡ line.old.items ++ kind_text (option_copied callee.entry) kind) }
{
    match kind {
        FaultKind::Requires(k) => put_requires(alloc, line, k, callee),
        FaultKind::Ensures(k) => put_ensures(alloc, line, k),
        FaultKind::Assert => line.extend_from_slice(b"assert"),
        FaultKind::NullUse => line.extend_from_slice(b"null"),
        FaultKind::Lower => line.extend_from_slice(b"lower bound"),
        FaultKind::Upper => line.extend_from_slice(b"upper bound"),
        FaultKind::DivZero => line.extend_from_slice(b"divide by zero"),
        FaultKind::DivOverflow => line.extend_from_slice(b"divide overflow"),
        FaultKind::Overflow => line.extend_from_slice(b"overflow"),
        FaultKind::Shift => line.extend_from_slice(b"shift"),
        FaultKind::ArraySize => line.extend_from_slice(b"array size"),
    }
}
