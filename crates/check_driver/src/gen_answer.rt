//! The answer to `gen SEED COUNT`.

#![tactic(auto, using(cc_base::proofs::SinkLemmas::sinks, cc_base::proofs::CountLemmas::counts, answer_lines::proofs::LineLemmas::puts_none))]

ghost use Rattle.std.specs.Prelude.{◌≡◌, ◌≤◌, IfOk, false, if◌then◌else◌};
ghost use Rattle.assembly_reports.specs.JudgedUnits.{units_asked};
ghost use Rattle.assembly_reports.specs.CheckText.{all_methods_proved, summary_text};
ghost use Rattle.answer_lines.specs.LineCounts.{line_count};
ghost use Rattle.answer_lines.specs.Writing.{Writes, change_of};
ghost use Rattle.unit_verdicts.specs.Asked.{Asks};
ghost use Rattle.unit_verdicts.specs.Picks.{limit_pick};
ghost use Rattle.written_assemblies.specs.GeneratedFiles.{generated_file};

use answer_lines::{Interrupt, put_line, summary_line};
use asm_image::Assembly;
use assembly_reports::{count, find_alone, status_of};
use cc_base::Sink;
use std::alloc::{AllocError, Global};
use widening_engine::Finder;
use written_assemblies::{generated_file, read_accepted};

/// What is told of an assembly without its methods: the last line of its report, and the status of a call that makes
/// the report.
#[derive(Drop)]
struct Summary {
    line: Vec<u8>,
    status: u8,
}

/// Makes the summary of an assembly. The finder is asked as for its report.
fn summarise<D: Finder>(
    alloc: Global,
    assembly: &Assembly<'_>,
    finder: &mut D,
) -> Result<Summary, AllocError>
    ensures status { IfOk result (λ summary. summary.status ≡ (if all_methods_proved false limit_pick assembly.now then 0 else 1)) }
    ensures line { IfOk result (λ summary. summary.line.items ≡ summary_text limit_pick assembly.now) }
    ensures one { IfOk result (λ summary. line_count summary.line.items ≡ 1) }
    ensures asked { Asks (units_asked assembly.now) result (D.asked finder.old) (D.asked finder.new) }
{
    let found = find_alone(alloc, assembly, false, finder)?;
    Ok(Summary {
        line: summary_line(alloc, count(&found))?,
        status: status_of(&found),
    })
}

/// Answers for an assembly that was generated.
fn answer_generated<O: Sink, D: Finder>(
    alloc: Global,
    assembly: &Assembly<'_>,
    out: &mut O,
    finder: &mut D,
) -> Result<u8, Interrupt>
    ensures status { IfOk result (λ status. status ≡ (if all_methods_proved false limit_pick assembly.now then 0 else 1)) }
    ensures written { Writes result (change_of O.written O.puts O.faults out.old out.new) (summary_text limit_pick assembly.now) }
    ensures asked { Asks (units_asked assembly.now) result (D.asked finder.old) (D.asked finder.new) }
{
    let summary = summarise(alloc, assembly, finder)?;
    put_line(alloc, out, &summary.line)?;
    Ok(summary.status)
}

/// Answers `gen SEED COUNT`: generates an assembly of so many methods from the seed, writes it to memory, reads it
/// back, and puts the summary of its report.
///
/// Cost: linear in the count. The file is held until the answer is given.
pub fn answer_gen<O: Sink, D: Finder>(
    alloc: Global,
    seed: u32,
    count: u32,
    out: &mut O,
    finder: &mut D,
) -> Result<u8, Interrupt>
    requires few { count ≤ 10000 }
    ensures status { IfOk result (λ status. status ≡ (if all_methods_proved false limit_pick (generated_file seed count) then 0 else 1)) }
    ensures written { Writes result (change_of O.written O.puts O.faults out.old out.new) (summary_text limit_pick (generated_file seed count)) }
    ensures asked { Asks (units_asked (generated_file seed count)) result (D.asked finder.old) (D.asked finder.new) }
{
    let file = generated_file(alloc, seed, count)?;
    let assembly = read_accepted(alloc, &file)?;
    answer_generated(alloc, &assembly, out, finder)
}
