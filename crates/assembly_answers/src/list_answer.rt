//! The answer to `list FILE`.

#![tactic(auto, using(cc_base::proofs::SinkLemmas::sinks, cc_base::proofs::CountLemmas::counts, answer_lines::proofs::LineLemmas::puts_none))]

ghost use Rattle.std.specs.Prelude.{◌≡◌, ◌++◌, OnOk};
ghost use Rattle.std.specs.List.{flat_map};
ghost use Rattle.asm_image.specs.Faults.{FirstBroken};
ghost use Rattle.asm_image.specs.Rows.{first_name};
ghost use Rattle.assembly_answers.specs.Answers.{list_answer};
ghost use Rattle.assembly_answers.specs.ListText.{AreNamedPlainly, line_of, list_text, method_line};
ghost use Rattle.answer_lines.specs.LineCounts.{line_count};
ghost use Rattle.answer_lines.specs.Outcome.{Gives};
ghost use Rattle.answer_lines.specs.Writing.{Writes, change_of};

use crate::fault_text::assembly_fault_text;
use answer_lines::{Interrupt, answer_refused, put_line};
use asm_image::{AssemblyFile, MethodWalk};
use cc_base::{Sink, Token, put_hex};
use std::alloc::{AllocError, Global};

/// Appends the line of the current method of a walk, which has this token. An error may leave a part of it.
fn append_line(
    alloc: Global,
    line: &mut Vec<u8>,
    token: Token,
    walk: &mut MethodWalk<'_, '_>,
) -> Result<(), AllocError>
    ensures ok { OnOk result (line.new.items ≡ line.old.items ++ line_of token (first_name walk.old)) }
    ensures kept { walk.new ≡ walk.old }
{
    put_hex(alloc, line, token.0, 8)?;
    line.extend_from_slice(b" ")?;
    walk.append_name(alloc, line)?;
    line.extend_from_slice(b"\n")
}

/// Puts the line of the current method of a walk, which has this token. The line is made in place of what a
/// buffer holds.
fn put_method<O: Sink>(
    alloc: Global,
    line: &mut Vec<u8>,
    token: Token,
    walk: &mut MethodWalk<'_, '_>,
    out: &mut O,
) -> Result<(), Interrupt>
    requires { line_count (first_name walk.old) ≡ 0 }
    ensures written { Writes result (change_of O.written O.puts O.faults out.old out.new) (line_of token (first_name walk.old)) }
    ensures kept { walk.new ≡ walk.old }
{
    line.clear();
    append_line(alloc, line, token, walk)?;
    put_line(alloc, out, line)
}

/// Puts the line of each method of a walk.
#[tactic(auto, using(cc_base::proofs::SinkLemmas::sinks, cc_base::proofs::CountLemmas::counts, answer_lines::proofs::LineLemmas::puts_none, crate::proofs::Listing::listing))]
fn put_methods<O: Sink>(
    alloc: Global,
    mut walk: MethodWalk<'_, '_>,
    out: &mut O,
) -> Result<(), Interrupt>
    requires { AreNamedPlainly walk }
    ensures { Writes result (change_of O.written O.puts O.faults out.old out.new) (flat_map method_line walk.entry) }
{
    let mut line = Vec::new(alloc);
    while let Some(token) = walk.token() {
        put_method(alloc, &mut line, token, &mut walk, out)?;
        walk.advance();
    }
    Ok(())
}

/// Puts the line of each method of an assembly.
#[tactic(auto, unfolding(crate::specs::ListText::list_text))]
fn put_list<O: Sink>(alloc: Global, file: &AssemblyFile<'_>, out: &mut O) -> Result<(), Interrupt>
    ensures { Writes result (change_of O.written O.puts O.faults out.old out.new) (list_text file.now) }
{
    put_methods(alloc, file.methods(alloc), out)
}

/// Answers `list FILE` for the bytes of the file.
///
/// Cost: linear in the length of the file and of what is printed. The memory is that of the longest line.
pub fn answer_list<O: Sink, E: Sink>(
    alloc: Global,
    name: &[u8],
    bytes: &[u8],
    out: &mut O,
    err: &mut E,
) -> Result<u8, Interrupt>
    ensures { Gives (list_answer name.now bytes.now (FirstBroken bytes.now)) result
        (change_of O.written O.puts O.faults out.old out.new) (change_of E.written E.puts E.faults err.old err.new) }
{
    match AssemblyFile::read(bytes) {
        Err(fault) => answer_refused(alloc, name, assembly_fault_text(fault.cause), fault.at, err),
        Ok(file) => {
            put_list(alloc, &file, out)?;
            Ok(0)
        }
    }
}
