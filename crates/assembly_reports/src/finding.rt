//! What is found of the methods of an assembly.
//!
//! A finding keeps the verdicts on a unit and the text of an invariant, and not the invariant: the states of all
//! methods would take more room than the file. A unit is given up, but for its callees, as soon as it is judged.

ghost use Rattle.std.specs.Prelude.{◌≡◌, ◌++◌, IfOk, OnOk};
ghost use Rattle.assembly_answers.specs.ReasonText.{reason_text};
ghost use Rattle.assembly_reports.specs.JudgedUnits.{asked_for, outcome_key, with_judged};
ghost use Rattle.assembly_reports.specs.CheckText.{NotAnalysed, counts_of, is_proved, outcome_finding, outcome_shown, verdict_lines, verdict_text};
ghost use Rattle.answer_lines.specs.Counting.{AreBelow};
ghost use Rattle.answer_lines.specs.LineCounts.{AreLines};
ghost use Rattle.answer_lines.specs.Writing.{joined};
ghost use Rattle.method_unit.specs.Units.{IsUnit};
ghost use Rattle.unit_builder.specs.Outcomes.{IfAnalysed};
ghost use Rattle.assembly_reports.specs.Findings.{IsWithin, finding_in, shown_in, verdicts_in};
ghost use Rattle.unit_verdicts.specs.Asked.{Asks};
ghost use Rattle.unit_verdicts.specs.Picks.{pick_from};
ghost use Rattle.unit_verdicts.specs.VerdictCache.{manner_of};

use crate::labels::Labels;
use crate::unit_report::append_verdict_lines;
use answer_lines::{Counts, append_lines, proved_text};
use assembly_answers::append_reason;
use invariant_checker::{Verdict, all_proved, proved_count};
use std::alloc::{AllocError, Global};
use unit_builder::{Outcome, Reason};
use unit_verdicts::{JudgedUnit, UnitVerdicts, VerdictCache};
use widening_engine::Finder;

/// Appends that a method is not analysed for this reason. An error may leave a part of the text.
fn append_skipped(alloc: Global, text: &mut Vec<u8>, reason: Reason) -> Result<(), AllocError>
    ensures { OnOk result (text.new.items ≡ text.old.items ++ verdict_text (NotAnalysed (reason_text reason))) }
{
    text.extend_from_slice(b"not analysed: ")?;
    append_reason(alloc, text, reason)?;
    Ok(())
}

/// What is found of a unit.
#[derive(Drop)]
pub struct FoundUnit {
    /// What the report tells of it beside the verdicts.
    pub labels: Labels,
    /// The verdicts on it.
    pub found: UnitVerdicts,
}

/// What is found of a method.
#[derive(Drop)]
pub enum Finding {
    /// It is analysed, and its unit was judged.
    Judged(FoundUnit),
    /// It is not analysed for this reason.
    Skipped(Reason),
}

impl Finding {
    /// Returns what is found of a method of which this comes. Where its unit is judged, the verdicts on it are in the
    /// cache from then on.
    #[tactic(auto, using(crate::proofs::FoundWithin::within))]
    pub fn of<D: Finder>(
        alloc: Global,
        outcome: Outcome,
        cache: &mut VerdictCache,
        finder: &mut D,
    ) -> Result<Finding, AllocError>
        requires { IfAnalysed outcome IsUnit }
        ensures value { IfOk result (λ found. finding_in found ≡ outcome_finding (pick_from cache.old.held) outcome) }
        ensures shown { IfOk result (λ found. shown_in found ≡ outcome_shown (manner_of cache.old) outcome) }
        ensures within { IfOk result IsWithin }
        ensures cache { OnOk result (cache.new ≡ with_judged cache.old (outcome_key outcome)) }
        ensures asked { Asks (asked_for cache.old (outcome_key outcome)) result (D.asked finder.old) (D.asked finder.new) }
    {
        match outcome {
            Outcome::Skipped(reason) => Ok(Finding::Skipped(reason)),
            Outcome::Analysed(unit) => {
                let JudgedUnit { unit, found } = cache.judge(alloc, unit, finder)?;
                let labels = Labels::of(alloc, unit)?;
                Ok(Finding::Judged(FoundUnit { labels, found }))
            }
        }
    }

    /// The verdicts. A method that is not analysed has none.
    pub fn verdicts(&self) -> &[Verdict]
        ensures { result.now ≡ verdicts_in (finding_in self.now) }
    {
        match self {
            Finding::Judged(unit) => &unit.found.verdicts,
            Finding::Skipped(_) => &[],
        }
    }

    /// Appends the lines of the Ensures that were added to the method's unit, and then of its obligations.
    pub fn append_verdicts(&self, alloc: Global, lines: &mut Vec<Vec<u8>>) -> Result<(), AllocError>
        requires within { IsWithin self.now }
        requires lines { AreLines lines.old.items }
        ensures text { OnOk result (joined lines.new.items ≡ joined lines.old.items ++ verdict_lines (finding_in self.now)) }
        ensures lines { OnOk result (AreLines lines.new.items) }
    {
        match self {
            Finding::Judged(unit) => {
                append_lines(alloc, lines, unit.labels.inferred.as_slice())?;
                append_verdict_lines(alloc, lines, &unit.labels, &unit.found.verdicts)
            }
            Finding::Skipped(_) => Ok(()),
        }
    }

    /// The text of its unit's invariant, where that is shown. A method that is not analysed has none.
    pub fn shown(&self) -> &[u8]
        ensures { result.now ≡ shown_in self.now }
    {
        match self {
            Finding::Judged(unit) => &unit.found.shown,
            Finding::Skipped(_) => &[],
        }
    }

    /// Returns whether the method is proved.
    pub fn is_proved(&self) -> bool
        ensures { result ≡ is_proved (finding_in self.now) }
    {
        match self {
            Finding::Judged(unit) => all_proved(&unit.found.verdicts),
            Finding::Skipped(_) => false,
        }
    }

    /// Returns what the method adds to the counts of a report.
    pub fn counts(&self) -> Counts
        requires { IsWithin self.now }
        ensures counts { result ≡ counts_of (finding_in self.now) }
        ensures small { AreBelow 65537 result }
    {
        let found = self.verdicts();
        let is_skipped = !matches!(self, Finding::Judged(_));
        let is_proved = self.is_proved();
        Counts {
            methods: 1,
            proved: u64::from(is_proved),
            unproved: u64::from(!is_skipped && !is_proved),
            skipped: u64::from(is_skipped),
            obligations: found.len() as u64,
            proved_obligations: proved_count(found) as u64,
        }
    }

    /// Appends what the method's line says of it.
    pub fn append_text(&self, alloc: Global, line: &mut Vec<u8>) -> Result<(), AllocError>
        ensures { OnOk result (line.new.items ≡ line.old.items ++ verdict_text (finding_in self.now)) }
    {
        match self {
            Finding::Judged(unit) => {
                line.extend_from_slice(proved_text(all_proved(&unit.found.verdicts)))
            }
            Finding::Skipped(reason) => append_skipped(alloc, line, *reason),
        }
    }
}
