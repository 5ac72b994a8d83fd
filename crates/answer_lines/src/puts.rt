//! Lines, put to a sink.
//!
//! That each line is one put is said by counts: as many puts as line feeds. So texts stay lists of bytes in every
//! definition. Where they are cut, the cases see.

#![tactic(auto, using(cc_base::proofs::SinkLemmas::sinks, cc_base::proofs::CountLemmas::counts, crate::proofs::LineLemmas::lines))]

ghost use Rattle.std.specs.Prelude.{◌≡◌, IfOk};
ghost use Rattle.answer_lines.specs.Answers.{cache_line, misfit_line, missing_line, refused_line, unread_line};
ghost use Rattle.answer_lines.specs.LineCounts.{AreLines, line_count};
ghost use Rattle.answer_lines.specs.Writing.{Writes, change_of, joined};

use crate::errors::{cache_line, misfit_line, missing_line, refused_line, unread_line};
use crate::interrupt::Interrupt;
use cc_base::Sink;
use std::alloc::Global;

/// Puts one line.
pub fn put_line<S: Sink>(alloc: Global, sink: &mut S, line: &[u8]) -> Result<(), Interrupt>
    requires { line_count line.now ≡ 1 }
    ensures { Writes result (change_of S.written S.puts S.faults sink.old sink.new) line.now }
{
    sink.put(alloc, line)?;
    Ok(())
}

/// Puts lines, each at once.
pub fn put_lines<S: Sink>(alloc: Global, sink: &mut S, lines: &[Vec<u8>]) -> Result<(), Interrupt>
    requires { AreLines lines.now }
    ensures { Writes result (change_of S.written S.puts S.faults sink.old sink.new) (joined lines.now) }
{
    for line in lines {
        put_line(alloc, sink, line)?;
    }
    Ok(())
}

/// Puts the line of a cache of this name that is refused, with the words of its fault.
pub fn put_cache_line<E: Sink>(
    alloc: Global,
    name: &[u8],
    fault: &[u8],
    err: &mut E,
) -> Result<(), Interrupt>
    requires { line_count fault.now ≡ 0 }
    ensures { Writes result (change_of E.written E.puts E.faults err.old err.new) (cache_line name.now fault.now) }
{
    let line = cache_line(alloc, name, fault)?;
    put_line(alloc, err, &line)
}

/// Answers by one line on the sink of errors, and a status.
pub fn answer_error<E: Sink>(
    alloc: Global,
    status: u8,
    line: &[u8],
    err: &mut E,
) -> Result<u8, Interrupt>
    requires { line_count line.now ≡ 1 }
    ensures status { IfOk result (λ given. given ≡ status) }
    ensures written { Writes result (change_of E.written E.puts E.faults err.old err.new) line.now }
{
    put_line(alloc, err, line)?;
    Ok(status)
}

/// Answers that a file of this name is missing.
pub fn answer_missing<E: Sink>(alloc: Global, name: &[u8], err: &mut E) -> Result<u8, Interrupt>
    ensures status { IfOk result (λ given. given ≡ 3) }
    ensures written { Writes result (change_of E.written E.puts E.faults err.old err.new) (missing_line name.now) }
{
    let line = missing_line(alloc, name)?;
    answer_error(alloc, 3, &line, err)
}

/// Answers that a device refused to give the file of this name.
pub fn answer_unread<E: Sink>(alloc: Global, name: &[u8], err: &mut E) -> Result<u8, Interrupt>
    ensures status { IfOk result (λ given. given ≡ 4) }
    ensures written { Writes result (change_of E.written E.puts E.faults err.old err.new) (unread_line name.now) }
{
    let line = unread_line(alloc, name)?;
    answer_error(alloc, 4, &line, err)
}

/// Answers that the words name no method that can be shown, for this reason.
pub fn answer_misfit<E: Sink>(alloc: Global, reason: &[u8], err: &mut E) -> Result<u8, Interrupt>
    requires { line_count reason.now ≡ 0 }
    ensures status { IfOk result (λ given. given ≡ 11) }
    ensures written { Writes result (change_of E.written E.puts E.faults err.old err.new) (misfit_line reason.now) }
{
    let line = misfit_line(alloc, reason)?;
    answer_error(alloc, 11, &line, err)
}

/// Answers that a file is refused, with the words of its fault and the offset.
pub fn answer_refused<E: Sink>(
    alloc: Global,
    name: &[u8],
    fault: &[u8],
    at: u32,
    err: &mut E,
) -> Result<u8, Interrupt>
    requires { line_count fault.now ≡ 0 }
    ensures status { IfOk result (λ given. given ≡ 5) }
    ensures written { Writes result (change_of E.written E.puts E.faults err.old err.new) (refused_line name.now fault.now at) }
{
    let line = refused_line(alloc, name, fault, at)?;
    answer_error(alloc, 5, &line, err)
}
