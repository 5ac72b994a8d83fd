//! The answer to `refute FILE METHOD`.

#![tactic(auto, using(cc_base::proofs::SinkLemmas::sinks, cc_base::proofs::CountLemmas::counts, answer_lines::proofs::LineLemmas::puts_none))]

ghost use Rattle.std.specs.Prelude.{◌≡◌, ◌<◌, ◌++◌, IfOk, length};
ghost use Rattle.asm_image.specs.Faults.{FirstBroken};
ghost use Rattle.assembly_answers.specs.Answers.{refute_file_answer, search_told};
ghost use Rattle.assembly_answers.specs.RefuteText.{not_refuted_line, refuted_line};
ghost use Rattle.answer_lines.specs.LineCounts.{line_count};
ghost use Rattle.answer_lines.specs.Outcome.{Gives};
ghost use Rattle.answer_lines.specs.Writing.{Writes, change_of};
ghost use Rattle.cil_eval.specs.RunWorlds.{CanBeRun};
ghost use Rattle.witness_search.specs.Searches.{searched};

use crate::method_world::{answer_no_world, named_world};
use answer_lines::{Interrupt, put_line};
use cc_base::{Sink, put_number};
use cil_model::{Arg, World};
use method_run::fault_line;
use run_arguments::append_argument;
use std::alloc::{AllocError, Global};
use witness_search::{Search, SearchRefusal, search};

/// The line of arguments with which a run ends in a fault.
fn refuted_line(alloc: Global, args: &[Arg]) -> Result<Vec<u8>, AllocError>
    ensures { IfOk result (λ line. line.items ≡ refuted_line args.now) }
{
    let mut line = Vec::from_slice(alloc, b"refuted:")?;
    for arg in args {
        line.push(b' ')?;
        append_argument(alloc, &mut line, arg)?;
    }
    line.push(b'\n')?;
    Ok(line)
}

/// The line of a search that found no fault: how many argument lists were tried, and with how many of them a run
/// started.
fn not_refuted_line(alloc: Global, tried: u32, started: u32) -> Result<Vec<u8>, AllocError>
    ensures { IfOk result (λ line. line.items ≡ not_refuted_line tried started) }
{
    let mut line = Vec::from_slice(alloc, b"not refuted: ")?;
    put_number(alloc, &mut line, i64::from(tried))?;
    line.extend_from_slice(b" tried, ")?;
    put_number(alloc, &mut line, i64::from(started))?;
    line.extend_from_slice(b" started\n")?;
    Ok(line)
}

/// Puts two lines.
fn put_both<S: Sink>(
    alloc: Global,
    sink: &mut S,
    first: &[u8],
    second: &[u8],
) -> Result<(), Interrupt>
    requires first { line_count first.now ≡ 1 }
    requires second { line_count second.now ≡ 1 }
    ensures { Writes result (change_of S.written S.puts S.faults sink.old sink.new) (first.now ++ second.now) }
{
    put_line(alloc, sink, first)?;
    put_line(alloc, sink, second)
}

/// Answers with what a search of a world found.
#[tactic(auto, using(cc_base::proofs::SinkLemmas::sinks, cc_base::proofs::CountLemmas::counts, answer_lines::proofs::LineLemmas::puts_none, crate::proofs::CountedRuns::refuted_is_line, crate::proofs::CountedRuns::fault_is_line))]
fn answer_search<O: Sink>(
    alloc: Global,
    world: &World,
    found: Search,
    out: &mut O,
) -> Result<u8, Interrupt>
    requires { CanBeRun world.now }
    ensures status { IfOk result (λ status. status ≡ (search_told world.now found).status) }
    ensures written { Writes result (change_of O.written O.puts O.faults out.old out.new) (search_told world.now found).out }
{
    match found {
        Search::Found {
            args,
            kind,
            unit,
            at,
        } => {
            let line = refuted_line(alloc, args.as_slice())?;
            let fault = fault_line(alloc, world, kind, unit, at)?;
            put_both(alloc, out, &line, &fault)?;
            Ok(8)
        }
        Search::NotFound { tried, started } => {
            let line = not_refuted_line(alloc, tried, started)?;
            put_line(alloc, out, &line)?;
            Ok(0)
        }
    }
}

/// Searches a world for arguments with which a run of its first method ends in a fault, and answers with what was
/// found.
fn answer_world<O: Sink>(
    alloc: Global,
    world: &World,
    runs: u32,
    out: &mut O,
) -> Result<u8, Interrupt>
    requires world { CanBeRun world.now }
    requires method { 0 < length world.now.units }
    ensures status { IfOk result (λ status. status ≡ (search_told world.now (searched world.now 0 runs)).status) }
    ensures written { Writes result (change_of O.written O.puts O.faults out.old out.new) (search_told world.now (searched world.now 0 runs)).out }
{
    match search(alloc, world, 0, runs) {
        Ok(found) => answer_search(alloc, world, found, out),
        Err(SearchRefusal::NoMemory) => Err(Interrupt::NoMemory),
    }
}

/// Answers `refute FILE METHOD` for the bytes of the file, in so many runs at most.
///
/// Cost: the assembly's tables are read, the code of the methods that the entry reaches, and up to 10,000 steps of each
/// run.
pub fn answer_refute<O: Sink, E: Sink>(
    alloc: Global,
    name: &[u8],
    method: &[u8],
    runs: u32,
    bytes: &[u8],
    out: &mut O,
    err: &mut E,
) -> Result<u8, Interrupt>
    ensures { Gives (refute_file_answer name.now method.now runs bytes.now (FirstBroken bytes.now)) result
        (change_of O.written O.puts O.faults out.old out.new) (change_of E.written E.puts E.faults err.old err.new) }
{
    match named_world(alloc, method, bytes)? {
        Ok(world) => answer_world(alloc, &world, runs, out),
        Err(none) => answer_no_world(alloc, name, none, err),
    }
}
