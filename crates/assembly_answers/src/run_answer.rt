//! The answer to `run FILE METHOD ARG..`.

#![tactic(auto, using(cc_base::proofs::SinkLemmas::sinks, cc_base::proofs::CountLemmas::counts, answer_lines::proofs::LineLemmas::puts_none))]

ghost use Rattle.std.specs.Prelude.{All, IsTrue, string_bytes};
ghost use Rattle.asm_image.specs.Faults.{FirstBroken};
ghost use Rattle.assembly_answers.specs.Answers.{TellsLine, run_file_answer, run_told};
ghost use Rattle.answer_lines.specs.Outcome.{Gives};
ghost use Rattle.command_words.specs.Words.{words_bytes};
ghost use Rattle.answer_lines.specs.Writing.{change_of};
ghost use Rattle.cil_eval.specs.RunWorlds.{CanBeRun};
ghost use Rattle.method_run.specs.RunAnswers.{run_answer};
ghost use Rattle.run_arguments.specs.Arguments.{is_argument};

use crate::method_world::{answer_no_world, named_world};
use answer_lines::{Interrupt, answer_misfit, put_line};
use cc_base::Sink;
use cil_model::World;
use method_run::{RunAnswer, run_method};
use std::alloc::Global;

/// The words of a run after the method's name.
#[derive(Clone, Copy)]
pub struct RunGiven<'a> {
    /// The words of the arguments.
    pub args: &'a [String],
    /// The number of steps that the run may take.
    pub steps: u32,
}

/// Gives the answer of a run.
fn answer_told<O: Sink, E: Sink>(
    alloc: Global,
    answer: RunAnswer,
    out: &mut O,
    err: &mut E,
) -> Result<u8, Interrupt>
    requires { TellsLine answer }
    ensures { Gives (run_told answer) result
        (change_of O.written O.puts O.faults out.old out.new) (change_of E.written E.puts E.faults err.old err.new) }
{
    match answer {
        RunAnswer::Misfit(reason) => answer_misfit(alloc, reason.as_slice(), err),
        RunAnswer::Line { status, text } => {
            put_line(alloc, out, text.as_slice())?;
            Ok(status)
        }
    }
}

/// Answers for a run in a world, of its first method.
#[tactic(auto, using(cc_base::proofs::SinkLemmas::sinks, cc_base::proofs::CountLemmas::counts, answer_lines::proofs::LineLemmas::puts_none))]
fn answer_world<O: Sink, E: Sink>(
    alloc: Global,
    world: &World,
    given: RunGiven<'_>,
    out: &mut O,
    err: &mut E,
) -> Result<u8, Interrupt>
    requires world { CanBeRun world.now }
    requires args { All (λ word. IsTrue (is_argument (string_bytes word))) given.args.now }
    ensures { Gives (run_told (run_answer world.now (words_bytes given.entry.args.now) given.entry.steps)) result
        (change_of O.written O.puts O.faults out.old out.new) (change_of E.written E.puts E.faults err.old err.new) }
{
    let answer = run_method(alloc, world, given.args, given.steps)?;
    answer_told(alloc, answer, out, err)
}

/// Answers `run FILE METHOD ARG..` for the bytes of the file.
///
/// Cost: the assembly's tables are read, the code of the methods that the entry reaches, and one step of the run after
/// another.
pub fn answer_run<O: Sink, E: Sink>(
    alloc: Global,
    name: &[u8],
    method: &[u8],
    given: RunGiven<'_>,
    bytes: &[u8],
    out: &mut O,
    err: &mut E,
) -> Result<u8, Interrupt>
    requires args { All (λ word. IsTrue (is_argument (string_bytes word))) given.args.now }
    ensures { Gives (run_file_answer name.now method.now (words_bytes given.entry.args.now) given.entry.steps bytes.now (FirstBroken bytes.now)) result
        (change_of O.written O.puts O.faults out.old out.new) (change_of E.written E.puts E.faults err.old err.new) }
{
    match named_world(alloc, method, bytes)? {
        Ok(world) => answer_world(alloc, &world, given, out, err),
        Err(none) => answer_no_world(alloc, name, none, err),
    }
}
