//! The answer to `il FILE METHOD`.
//!
//! `il` reports no fault of code, has no limit on its length, and reads the table of names though it looks up one: a
//! second way to find a method would have to be proved too.

#![tactic(auto, using(cc_base::proofs::SinkLemmas::sinks, cc_base::proofs::CountLemmas::counts, answer_lines::proofs::LineLemmas::puts_none))]

ghost use Rattle.std.specs.Prelude.{◌≡◌, ◌++◌, IfOk, OnOk};
ghost use Rattle.std.specs.Option.{option_and_then, option_map};
ghost use Rattle.asm_image.specs.Bodies.{method_of};
ghost use Rattle.asm_image.specs.Faults.{FirstBroken};
ghost use Rattle.asm_image.specs.Find.{find_of};
ghost use Rattle.cc_base.specs.Slices.{IsShort};
ghost use Rattle.assembly_answers.specs.Answers.{found_answer, il_answer, instrs_answer};
ghost use Rattle.assembly_answers.specs.IlText.{code_instrs, il_line, il_text, method_instrs};
ghost use Rattle.answer_lines.specs.Outcome.{Gives};
ghost use Rattle.answer_lines.specs.Writing.{Writes, change_of};

use crate::fault_text::assembly_fault_text;
use answer_lines::{Interrupt, answer_misfit, answer_refused, put_line};
use asm_image::{AsmRefusal, Assembly, Found, MethodRow};
use cc_base::{Sink, Token};
use cil_model::Instr;
use il_decoder::{IlRefusal, body_at, decode, il_text, put_label};
use std::alloc::{AllocError, Global};

/// Appends the line of an instruction. An error may leave a part of it.
fn append_line(alloc: Global, line: &mut Vec<u8>, instr: &Instr) -> Result<(), AllocError>
    ensures { OnOk result (line.new.items ≡ line.old.items ++ il_line instr.now) }
{
    put_label(alloc, line, instr.at)?;
    line.extend_from_slice(b" ")?;
    il_text(alloc, instr, line)?;
    line.extend_from_slice(b"\n")
}

/// Puts the line of an instruction. It is made in place of what a buffer holds.
fn put_instr<O: Sink>(
    alloc: Global,
    line: &mut Vec<u8>,
    instr: &Instr,
    out: &mut O,
) -> Result<(), Interrupt>
    ensures { Writes result (change_of O.written O.puts O.faults out.old out.new) (il_line instr.now) }
{
    line.clear();
    append_line(alloc, line, instr)?;
    put_line(alloc, out, line)
}

/// Puts the line of each instruction.
#[tactic(auto, unfolding(crate::specs::IlText::il_text))]
fn put_instrs<O: Sink>(alloc: Global, instrs: &[Instr], out: &mut O) -> Result<(), Interrupt>
    ensures { Writes result (change_of O.written O.puts O.faults out.old out.new) (il_text instrs.now) }
{
    let mut line = Vec::new(alloc);
    for instr in instrs {
        put_instr(alloc, &mut line, instr, out)?;
    }
    Ok(())
}

/// The instructions of a method, none where it has no body of IL or one that does not read.
#[tactic(auto, unfolding(crate::specs::IlText::method_instrs))]
fn method_instrs(
    alloc: Global,
    assembly: &Assembly<'_>,
    method: &MethodRow,
) -> Result<Option<Vec<Instr>>, AllocError>
    ensures { IfOk result (λ found. option_map (λ instrs. instrs.items) found ≡ method_instrs assembly.now method.now) }
{
    if !method.has_il_body() {
        return Ok(None);
    }
    match body_at(assembly.image(), method.rva) {
        Ok(body) => code_instrs(alloc, body.code),
        Err(_) => Ok(None),
    }
}

/// The instructions of code, none where it does not read.
fn code_instrs(alloc: Global, code: &[u8]) -> Result<Option<Vec<Instr>>, AllocError>
    requires { IsShort code.now }
    ensures { IfOk result (λ found. option_map (λ instrs. instrs.items) found ≡ code_instrs code.now) }
{
    match decode(alloc, code) {
        Ok(instrs) => Ok(Some(instrs)),
        Err(IlRefusal::Bad(_)) => Ok(None),
        Err(IlRefusal::NoMemory) => Err(AllocError),
    }
}

/// The instructions of the method that a token names, none where it has none that read.
fn token_instrs(
    alloc: Global,
    assembly: &Assembly<'_>,
    token: Token,
) -> Result<Option<Vec<Instr>>, AllocError>
    ensures { IfOk result (λ found. option_map (λ instrs. instrs.items) found
        ≡ option_and_then (method_instrs assembly.now) (method_of assembly.now token)) }
{
    match assembly.method(token) {
        Some(method) => method_instrs(alloc, assembly, method),
        None => Ok(None),
    }
}

/// Answers for the instructions of a method, or that it has none that read.
fn answer_instrs<O: Sink, E: Sink>(
    alloc: Global,
    instrs: Option<Vec<Instr>>,
    out: &mut O,
    err: &mut E,
) -> Result<u8, Interrupt>
    ensures { Gives (instrs_answer (option_map (λ instrs. instrs.items) instrs)) result
        (change_of O.written O.puts O.faults out.old out.new) (change_of E.written E.puts E.faults err.old err.new) }
{
    match instrs {
        None => answer_misfit(alloc, b"not analysed", err),
        Some(instrs) => {
            put_instrs(alloc, &instrs, out)?;
            Ok(0)
        }
    }
}

/// Answers for what the name of a method means in an assembly.
fn answer_found<O: Sink, E: Sink>(
    alloc: Global,
    assembly: &Assembly<'_>,
    found: Option<Found>,
    out: &mut O,
    err: &mut E,
) -> Result<u8, Interrupt>
    ensures { Gives (found_answer assembly.now found) result
        (change_of O.written O.puts O.faults out.old out.new) (change_of E.written E.puts E.faults err.old err.new) }
{
    match found {
        None => answer_misfit(alloc, b"no method", err),
        Some(Found::Several) => answer_misfit(alloc, b"several methods", err),
        Some(Found::One(token)) => {
            let instrs = token_instrs(alloc, assembly, token)?;
            answer_instrs(alloc, instrs, out, err)
        }
    }
}

/// Answers `il FILE METHOD` for the bytes of the file.
///
/// Cost: linear in the length of the file and of what is printed, but for the test of branch targets, which
/// takes n log n in the length of the method's code.
pub fn answer_il<O: Sink, E: Sink>(
    alloc: Global,
    name: &[u8],
    method: &[u8],
    bytes: &[u8],
    out: &mut O,
    err: &mut E,
) -> Result<u8, Interrupt>
    ensures { Gives (il_answer name.now method.now bytes.now (FirstBroken bytes.now)) result
        (change_of O.written O.puts O.faults out.old out.new) (change_of E.written E.puts E.faults err.old err.new) }
{
    match Assembly::read(alloc, bytes) {
        Err(AsmRefusal::NoMemory) => Err(Interrupt::NoMemory),
        Err(AsmRefusal::Bad(fault)) => {
            answer_refused(alloc, name, assembly_fault_text(fault.cause), fault.at, err)
        }
        Ok(assembly) => answer_found(alloc, &assembly, assembly.find(method), out, err),
    }
}
