//! What a report tells of a unit beside its verdicts.

ghost use Rattle.std.specs.Prelude.{◌≡◌, ◌+◌, ◌++◌, ◌≤◌, [], codes, count_by, if◌then◌else◌, length, map, IfOk, OnOk};
ghost use Rattle.assembly_reports.specs.Labels as rule;
ghost use Rattle.assembly_reports.specs.Labels.{ensures_told, inferred_lines, is_ensures, labels_of};
ghost use Rattle.cil_model.specs.WellFormed.{IsWellFormed};

use cc_base::put_number;
use cil_model::{CalleeInfo, Clause, ClauseKind, FaultKind, List, Unit};
use ensures_infer::append_inferred;
use std::alloc::{AllocError, Global};
use unit_form::{added_clauses, told_count};

/// What a report tells of a unit beside its verdicts: what the lines of its obligations name, and the lines of the
/// Ensures that were added to it.
#[derive(Drop)]
pub struct Labels {
    /// The methods that it calls, without their clauses.
    pub callees: List<CalleeInfo>,
    /// How many Ensures its code tells. Those behind them were added.
    pub told: usize,
    /// The lines of those that were added.
    pub inferred: List<u8>,
}

/// Returns whether a clause is an Ensures.
fn is_ensures(clause: &Clause) -> bool
    ensures { result ≡ is_ensures clause.now.kind }
{
    match clause.kind {
        ClauseKind::Requires => false,
        ClauseKind::Ensures => true,
    }
}

/// How many of these clauses are Ensures.
fn ensures_among(clauses: &[Clause]) -> usize
    ensures value { result ≡ count_by (λ clause. is_ensures clause.kind) clauses.now }
    ensures few { result ≤ length clauses.now }
{
    clauses.iter().filter(|clause| is_ensures(clause)).count()
}

/// How many Ensures the code of a unit tells.
fn ensures_told(unit: &Unit) -> usize
    ensures value { result ≡ ensures_told unit.now }
    ensures few { result ≤ length unit.now.clauses }
{
    let clauses = unit.clauses.as_slice();
    let told = told_count(unit).min(clauses.len());
    ensures_among(&clauses[..told])
}

/// Appends the line of an Ensures that was added, which has this number among the Ensures.
fn append_line(
    alloc: Global,
    lines: &mut Vec<u8>,
    number: usize,
    clause: &Clause,
) -> Result<(), AllocError>
    requires { number ≤ 64 }
    ensures { OnOk result (lines.new.items ≡ lines.old.items ++ rule.inferred_line number clause.now) }
{
    lines.extend_from_slice(b"  inferred ensures ")?;
    put_number(alloc, lines, number as i64)?;
    lines.extend_from_slice(b": ")?;
    append_inferred(alloc, lines, clause)?;
    lines.extend_from_slice(b"\n")
}

/// The lines of Ensures that were added, of which the first has this number.
fn lines_of(alloc: Global, first: usize, clauses: &[Clause]) -> Result<Vec<u8>, AllocError>
    requires { first + length clauses.now ≤ 64 }
    ensures { IfOk result (λ lines. lines.items ≡ inferred_lines first clauses.now) }
{
    let mut lines = Vec::new(alloc);
    for i in 0..clauses.len() {
        append_line(alloc, &mut lines, first + i, &clauses[i])?;
    }
    Ok(lines)
}

/// These callees, without their clauses.
fn without_clauses(alloc: Global, callees: List<CalleeInfo>) -> Result<List<CalleeInfo>, AllocError>
    ensures { IfOk result (λ bare. bare ≡ map rule.without_clauses callees) }
{
    let mut bare = Vec::with_capacity(alloc, callees.as_slice().len())?;
    for callee in callees.into_vec() {
        bare.push(CalleeInfo {
            name: callee.name,
            result: callee.result,
            args: callee.args,
            clauses: List::from_vec(Vec::new(alloc)),
        })?;
    }
    Ok(List::from_vec(bare))
}

impl Labels {
    /// What a report tells of this unit. The rest of it is given up.
    #[tactic(auto, unfolding(crate::specs::Labels::labels_of))]
    pub fn of(alloc: Global, unit: Unit) -> Result<Labels, AllocError>
        requires { IsWellFormed unit }
        ensures { IfOk result (λ labels. labels ≡ labels_of unit) }
    {
        let told = ensures_told(&unit);
        let lines = lines_of(alloc, told + 1, added_clauses(&unit))?;
        Ok(Labels {
            callees: without_clauses(alloc, unit.callees)?,
            told,
            inferred: List::from_vec(lines),
        })
    }

    /// Returns whether the clause of an obligation was added.
    pub fn is_added(&self, kind: FaultKind) -> bool
        ensures { rule.added_mark self.now.told kind ≡ (if result then codes " (inferred)" else []) }
    {
        match kind {
            FaultKind::Ensures(k) => self.told < usize::from(k),
            FaultKind::Requires(_)
            | FaultKind::Assert
            | FaultKind::NullUse
            | FaultKind::Lower
            | FaultKind::Upper
            | FaultKind::DivZero
            | FaultKind::DivOverflow
            | FaultKind::Overflow
            | FaultKind::Shift
            | FaultKind::ArraySize => false,
        }
    }
}
