//! The words of each reason why a method is not analysed.

ghost use Rattle.std.specs.Prelude.{◌≡◌, ◌++◌, OnOk, codes};
ghost use Rattle.assembly_answers.specs.ReasonText.{clause_reason, code_reason, kind_reason, opcode_text, placed, reason_text};

use cc_base::put_hex;
use cil_model::TypeFault;
use clause_faults::ClauseFault;
use il_decoder::{IlFault, put_label};
use std::alloc::{AllocError, Global};
use unit_builder::Reason;

/// Appends what happens at an IL offset. Here as below an error may leave a part of the text.
fn append_placed(alloc: Global, text: &mut Vec<u8>, what: &[u8], at: u32) -> Result<(), AllocError>
    ensures { OnOk result (text.new.items ≡ text.old.items ++ placed what.now at) }
{
    text.extend_from_slice(what)?;
    text.extend_from_slice(b" at ")?;
    put_label(alloc, text, at)
}

/// Appends an opcode of one byte or of two.
fn append_opcode(alloc: Global, text: &mut Vec<u8>, at: u32, opcode: u16) -> Result<(), AllocError>
    ensures { OnOk result (text.new.items ≡ text.old.items ++ placed (codes "N9 " ++ opcode_text opcode) at) }
{
    let digits = if opcode < 0x100 { 2 } else { 4 };
    text.extend_from_slice(b"N9 opcode ")?;
    put_hex(alloc, text, u32::from(opcode), digits)?;
    append_placed(alloc, text, b"", at)
}

/// Appends why a method has no instructions.
fn append_code_reason(alloc: Global, text: &mut Vec<u8>, fault: IlFault) -> Result<(), AllocError>
    ensures { OnOk result (text.new.items ≡ text.old.items ++ code_reason fault) }
{
    match fault {
        IlFault::Header(_) => text.extend_from_slice(b"N9 header"),
        IlFault::Short(at) => append_placed(alloc, text, b"N9 short", at),
        IlFault::Opcode(at, opcode) => append_opcode(alloc, text, at, opcode),
        IlFault::Target(at) => append_placed(alloc, text, b"N9 target", at),
    }
}

/// Appends why a method's clauses cannot be read.
fn append_clause_reason(
    alloc: Global,
    text: &mut Vec<u8>,
    fault: ClauseFault,
) -> Result<(), AllocError>
    ensures { OnOk result (text.new.items ≡ text.old.items ++ clause_reason fault) }
{
    match fault {
        ClauseFault::NotPure(at) => append_placed(alloc, text, b"N10 not pure", at),
        ClauseFault::Backward(at) => append_placed(alloc, text, b"N10 backward", at),
        ClauseFault::StackLeft(at) => append_placed(alloc, text, b"N10 stack left", at),
        ClauseFault::IntoBlock(at) => append_placed(alloc, text, b"N10 into block", at),
        ClauseFault::OldForm(at) => append_placed(alloc, text, b"N10 old form", at),
        ClauseFault::TooLong(at) => append_placed(alloc, text, b"N10 too long", at),
    }
}

/// Appends why a method's code has no kinds.
fn append_kind_reason(alloc: Global, text: &mut Vec<u8>, fault: TypeFault) -> Result<(), AllocError>
    ensures { OnOk result (text.new.items ≡ text.old.items ++ kind_reason fault) }
{
    match fault {
        TypeFault::Underflow(at) => append_placed(alloc, text, b"N12 underflow", at),
        TypeFault::Conflict(at) => append_placed(alloc, text, b"N12 conflict", at),
        TypeFault::WrongKind(at) => append_placed(alloc, text, b"N12 wrong kind", at),
        TypeFault::FallsOff(at) => append_placed(alloc, text, b"N12 falls off", at),
        TypeFault::Deep(at) => append_placed(alloc, text, b"N12 deep", at),
    }
}

/// Appends why a method is not analysed.
pub fn append_reason(alloc: Global, text: &mut Vec<u8>, reason: Reason) -> Result<(), AllocError>
    ensures { OnOk result (text.new.items ≡ text.old.items ++ reason_text reason) }
{
    match reason {
        Reason::Instance => text.extend_from_slice(b"N1 instance"),
        Reason::Generic => text.extend_from_slice(b"N2 generic"),
        Reason::NoBody => text.extend_from_slice(b"N3 no IL body"),
        Reason::SignatureType => text.extend_from_slice(b"N4 signature type"),
        Reason::LocalType => text.extend_from_slice(b"N5 local type"),
        Reason::LocalsNotZero => text.extend_from_slice(b"N6 locals not initialised"),
        Reason::Section => text.extend_from_slice(b"N7 exception section"),
        Reason::TooLarge => text.extend_from_slice(b"N8 too large"),
        Reason::Code(fault) => append_code_reason(alloc, text, fault),
        Reason::Clauses(fault) => append_clause_reason(alloc, text, fault),
        Reason::Token(at) => append_placed(alloc, text, b"N11 token", at),
        Reason::Kinds(fault) => append_kind_reason(alloc, text, fault),
    }
}
