//! Reports, as lists of lines.

ghost use Rattle.std.specs.Prelude.{◌≡◌, ◌++◌, ◌<◌, ◌≤◌, length, All, IfOk, OnOk, option_copied};
ghost use Rattle.std.specs.List.{AllByRecursion, flat_map};
ghost use Rattle.assembly_reports.specs.ReportText.{callee_of, unit_counts, unit_report, unit_verdicts, verdict_line};
ghost use Rattle.answer_lines.specs.Counting.{AreBelow};
ghost use Rattle.answer_lines.specs.LineCounts.{AreLines};
ghost use Rattle.answer_lines.specs.Writing.{joined};
ghost use Rattle.cil_model.specs.WellFormed.{IsCallee, IsWellFormed};
ghost use Rattle.invariant_checker.specs.Counts.{all_proved};

use crate::labels::Labels;
use answer_lines::{Counts, append_kind, obligation_line, summary_line, unit_line};
use cil_model::{CalleeInfo, Obligation, Unit};
use invariant_checker::{Verdict, all_proved, proved_count};
use std::alloc::{AllocError, Global};

/// The one of these callees that a number names.
fn callee_of(callees: &[CalleeInfo], number: Option<u16>) -> Option<&CalleeInfo>
    ensures { option_copied result ≡ callee_of callees.now number }
{
    match number {
        Some(number) => callees.get(usize::from(number)),
        None => None,
    }
}

/// The line of an obligation of a unit of which this is told.
fn verdict_line(alloc: Global, labels: &Labels, verdict: Verdict) -> Result<Vec<u8>, AllocError>
    requires { verdict.obligation.at < 65536 }
    ensures { IfOk result (λ line. line.items ≡ verdict_line labels.now verdict) }
{
    let Obligation { at, kind, callee } = verdict.obligation;
    let mut text = Vec::new(alloc);
    append_kind(
        alloc,
        &mut text,
        callee_of(labels.callees.as_slice(), callee),
        kind,
    )?;
    if labels.is_added(kind) {
        text.extend_from_slice(b" (inferred)")?;
    }
    obligation_line(alloc, at, &text, verdict.proved)
}

/// Appends the lines of obligations of a unit of which this is told.
pub fn append_verdict_lines(
    alloc: Global,
    lines: &mut Vec<Vec<u8>>,
    labels: &Labels,
    found: &[Verdict],
) -> Result<(), AllocError>
    requires near { All (λ verdict. verdict.obligation.at < 65536) found.now }
    requires callees { AllByRecursion IsCallee labels.now.callees }
    requires lines { AreLines lines.old.items }
    ensures text { OnOk result (joined lines.new.items ≡ joined lines.old.items ++ flat_map (verdict_line labels.now) found.now) }
    ensures lines { OnOk result (AreLines lines.new.items) }
{
    for verdict in found {
        lines.push(verdict_line(alloc, labels, *verdict)?)?;
    }
    Ok(())
}

/// The counts of the report of a unit on which these are the verdicts.
fn unit_counts(found: &[Verdict], proved: bool) -> Counts
    requires proved { proved ≡ all_proved found.now }
    requires few { length found.now ≤ 65536 }
    ensures counts { result ≡ unit_counts found.now }
    ensures small { AreBelow 65537 result }
{
    Counts {
        methods: 1,
        proved: u64::from(proved),
        unproved: u64::from(!proved),
        skipped: 0,
        obligations: found.len() as u64,
        proved_obligations: proved_count(found) as u64,
    }
}

/// The lines of a unit's report.
#[tactic(auto, unfolding(crate::specs::ReportText::unit_report))]
pub fn unit_lines(alloc: Global, unit: Unit, found: &[Verdict]) -> Result<Vec<Vec<u8>>, AllocError>
    requires verdicts { found.now ≡ unit_verdicts unit }
    requires few { length found.now ≤ 65536 }
    requires near { All (λ verdict. verdict.obligation.at < 65536) found.now }
    requires formed { IsWellFormed unit }
    ensures text { IfOk result (λ lines. joined lines.items ≡ unit_report unit) }
    ensures lines { IfOk result (λ lines. AreLines lines.items) }
{
    let proved = all_proved(found);
    let mut lines = Vec::new(alloc);
    lines.push(unit_line(alloc, &unit, proved)?)?;
    let labels = Labels::of(alloc, unit)?;
    append_verdict_lines(alloc, &mut lines, &labels, found)?;
    lines.push(summary_line(alloc, unit_counts(found, proved))?)?;
    Ok(lines)
}
