//! What is inferred of the methods of an assembly, and its report with that.
//!
//! What is inferred comes from the states by which units are judged, those of the cache or else a finder's, and the
//! clauses `inferred` and `checked_inferred` of `run_words` name that pick. With some pick they would not say that the
//! Ensures of which they speak are those that the report prints.
//!
//! `--infer` is a word of `check`, not a command: its reports are `report_text` over other entries, whose units have
//! clauses that were added. What is printed of these follows from the unit, so the report of a unit file marks them
//! too.

ghost use Rattle.std.specs.Prelude.{◌≡◌, ◌-◌, ◌<◌, ◌^◌, [], All, IfOk, None, OnOk, Some, get_or, if◌then◌else◌, length, map, slice_get, true};
ghost use Rattle.answer_lines.specs.LineCounts.{AreLines};
ghost use Rattle.answer_lines.specs.Writing.{joined};
ghost use Rattle.asm_image.specs.Faults.{FirstBroken};
ghost use Rattle.asm_image.specs.Rows.{methods_of};
ghost use Rattle.asm_image.specs.declared.method_row.MethodRow.{MethodRow};
ghost use Rattle.cc_base.specs.Tokens.{row_of};
ghost use Rattle.assembly_reports.specs.JudgedUnits.{asked_for, judged_keys, outcome_key, report_keys, with_judged};
ghost use Rattle.assembly_reports.specs.CheckText.{all_shown, findings, outcome_finding, outcome_shown, report_text, are_proved};
ghost use Rattle.assembly_reports.specs.Reportable.{AreRunnable, IsReportable, CanRun, entries_at};
ghost use Rattle.assembly_reports.specs.Findings.{IsWithin, finding_in, shown_in};
ghost use Rattle.assembly_reports.specs.InferredUnits.{all_candidates, inferred_entries, inferred_outcome, outcome_candidates};
ghost use Rattle.method_unit.specs.Units.{IsUnit};
ghost use Rattle.unit_builder.specs.FileSets.{Alone, files_in};
ghost use Rattle.unit_builder.specs.Outcomes.{IfAnalysed, entries_of, outcome_in};
ghost use Rattle.unit_builder.specs.Scopes.{scope_in};
ghost use Rattle.unit_verdicts.specs.Asked.{Asks};
ghost use Rattle.unit_verdicts.specs.Picks.{Pick, pick_from};
ghost use Rattle.unit_verdicts.specs.VerdictCache.{manner_of};

use crate::check_report::{ReportLines, file_lines, status_of};
use crate::finding::Finding;
use asm_image::Assembly;
use cil_model::{Clause, List, copy_clauses};
use ensures_infer::{candidates, strengthen};
use stack_typer::TypedUnit;
use std::alloc::{AllocError, Global};
use unit_builder::{FileUnits, Outcome};
use unit_verdicts::VerdictCache;
use widening_engine::Finder;

/// What is inferred of a method of which this comes. From then on its unit as it is written is among those that were
/// judged.
fn infer<D: Finder>(
    alloc: Global,
    outcome: Outcome,
    cache: &mut VerdictCache,
    finder: &mut D,
) -> Result<List<Clause>, AllocError>
    requires unit { IfAnalysed outcome IsUnit }
    requires keeps { cache.old.keeps ≡ true }
    ensures value { IfOk result (λ clauses. clauses ≡ outcome_candidates (pick_from cache.old.held) outcome) }
    ensures cache { OnOk result (cache.new ≡ with_judged cache.old (outcome_key outcome)) }
    ensures asked { Asks (asked_for cache.old (outcome_key outcome)) result (D.asked finder.old) (D.asked finder.new) }
{
    match outcome {
        Outcome::Skipped(_) => Ok(List::from_vec(Vec::new(alloc))),
        Outcome::Analysed(unit) => {
            let picked = cache.pick(alloc, unit, finder)?;
            let found = candidates(alloc, &picked.code, &picked.invariant)?;
            Ok(List::from_vec(found))
        }
    }
}

/// What is inferred of the method of this index in a file.
fn infer_at<D: Finder>(
    alloc: Global,
    units: &mut FileUnits<'_>,
    file: u32,
    index: usize,
    cache: &mut VerdictCache,
    finder: &mut D,
) -> Result<List<Clause>, AllocError>
    requires file { file < (files_in units.old).count }
    requires there { index < length (methods_of ((files_in units.old).bytes file)) }
    requires keeps { cache.old.keeps ≡ true }
    ensures same { units.new ≡ units.old }
    ensures value { (method : MethodRow) → slice_get (methods_of ((files_in units.old).bytes file)) index ≡ Some method
        → IfOk result (λ clauses. clauses ≡ outcome_candidates (pick_from cache.old.held) (outcome_in (scope_in (files_in units.old) file) method)) }
    ensures runnable { (method : MethodRow) → slice_get (methods_of ((files_in units.old).bytes file)) index ≡ Some method
        → IfOk result (λ _. IfAnalysed (outcome_in (scope_in (files_in units.old) file) method) IsUnit) }
    ensures cache { (method : MethodRow) → slice_get (methods_of ((files_in units.old).bytes file)) index ≡ Some method
        → OnOk result (cache.new ≡ with_judged cache.old (outcome_key (outcome_in (scope_in (files_in units.old) file) method))) }
    ensures asked { (method : MethodRow) → slice_get (methods_of ((files_in units.old).bytes file)) index ≡ Some method
        → Asks (asked_for cache.old (outcome_key (outcome_in (scope_in (files_in units.old) file) method))) result (D.asked finder.old) (D.asked finder.new) }
{
    let outcome = units.outcome(alloc, file, index)?;
    infer(alloc, outcome, cache, finder)
}

/// What is inferred of each method of a file, in order.
fn infer_each<D: Finder>(
    alloc: Global,
    units: &mut FileUnits<'_>,
    file: u32,
    cache: &mut VerdictCache,
    finder: &mut D,
) -> Result<Vec<List<Clause>>, AllocError>
    requires file { file < (files_in units.old).count }
    requires keeps { cache.old.keeps ≡ true }
    ensures same { units.new ≡ units.old }
    ensures value { IfOk result (λ inferred. inferred.items ≡ all_candidates (pick_from cache.old.held) (entries_at units.old file)) }
    ensures runnable { IfOk result (λ _. CanRun (entries_at units.old file)) }
    ensures cache { OnOk result (cache.new ≡ with_judged cache.old (judged_keys (entries_at units.old file))) }
    ensures asked { Asks (asked_for cache.old (judged_keys (entries_at units.old file))) result (D.asked finder.old) (D.asked finder.new) }
{
    let methods = units.methods(file);
    let mut inferred = Vec::new(alloc);
    for index in 0..methods.len() {
        inferred.push(infer_at(alloc, units, file, index, cache, finder)?)?;
    }
    Ok(inferred)
}

/// What is inferred of the method of a key, where these are the lists of the methods of an assembly alone.
fn list_of(inferred: &[List<Clause>], key: u64) -> &[Clause]
    ensures { result.now ≡ get_or inferred.now (row_of key - 1) [] }
{
    let row = (key & 0x00ff_ffff) as usize;
    match inferred.get(row.saturating_sub(1)) {
        Some(list) => list.as_slice(),
        None => &[],
    }
}

/// Copies of the lists of the methods of these keys.
fn lists_of(
    alloc: Global,
    inferred: &[List<Clause>],
    keys: &[u64],
) -> Result<Vec<List<Clause>>, AllocError>
    ensures { IfOk result (λ lists. lists.items ≡ map (λ key. get_or inferred.now (row_of key - 1) []) keys.now) }
{
    let mut lists = Vec::with_capacity(alloc, keys.len())?;
    for key in keys {
        let list = copy_clauses(alloc, list_of(inferred, *key))?;
        lists.push(List::from_vec(list))?;
    }
    Ok(lists)
}

/// What comes of the method of an index in an assembly alone with what is inferred of it and of those that it calls,
/// where these are the lists of all methods.
fn inferred_outcome(
    alloc: Global,
    assembly: &Assembly<'_>,
    units: &mut FileUnits<'_>,
    index: usize,
    inferred: &[List<Clause>],
) -> Result<Outcome, AllocError>
    requires alone { units.old ≡ Alone assembly.now }
    requires there { index < length (methods_of assembly.now) }
    requires each { length inferred.now ≡ length (methods_of assembly.now) }
    requires accepted { FirstBroken assembly.now ≡ None }
    ensures same { units.new ≡ units.old }
    ensures value { (pick : Pick) (method : MethodRow) → inferred.now ≡ all_candidates pick (entries_of assembly.now)
        → slice_get (methods_of assembly.now) index ≡ Some method → IfOk result (λ outcome. outcome ≡ inferred_outcome pick assembly.now method) }
{
    match units.outcome(alloc, 0, index)? {
        Outcome::Skipped(reason) => Ok(Outcome::Skipped(reason)),
        Outcome::Analysed(unit) => {
            let keys = units.callees(alloc, 0, index)?;
            let lists = lists_of(alloc, inferred, &keys)?;
            let (unit, kinds) = unit.into_parts();
            let new = strengthen(alloc, &unit, inferred[index].as_slice(), &lists)?;
            Ok(Outcome::Analysed(TypedUnit::of(new, kinds)))
        }
    }
}

/// What is found of that method.
fn find_inferred<D: Finder>(
    alloc: Global,
    assembly: &Assembly<'_>,
    units: &mut FileUnits<'_>,
    index: usize,
    inferred: &[List<Clause>],
    cache: &mut VerdictCache,
    finder: &mut D,
) -> Result<Finding, AllocError>
    requires alone { units.old ≡ Alone assembly.now }
    requires there { index < length (methods_of assembly.now) }
    requires inferred { inferred.now ≡ all_candidates (pick_from cache.old.held) (entries_of assembly.now) }
    requires accepted { FirstBroken assembly.now ≡ None }
    requires runnable { AreRunnable assembly.now }
    ensures same { units.new ≡ units.old }
    ensures value { (method : MethodRow) → slice_get (methods_of assembly.now) index ≡ Some method
        → IfOk result (λ found. finding_in found ≡ outcome_finding (pick_from cache.old.held) (inferred_outcome (pick_from cache.old.held) assembly.now method)) }
    ensures shown { (method : MethodRow) → slice_get (methods_of assembly.now) index ≡ Some method
        → IfOk result (λ found. shown_in found ≡ outcome_shown (manner_of cache.old) (inferred_outcome (pick_from cache.old.held) assembly.now method)) }
    ensures within { IfOk result IsWithin }
    ensures cache { (method : MethodRow) → slice_get (methods_of assembly.now) index ≡ Some method
        → OnOk result (cache.new ≡ with_judged cache.old (outcome_key (inferred_outcome (pick_from cache.old.held) assembly.now method))) }
    ensures asked { (method : MethodRow) → slice_get (methods_of assembly.now) index ≡ Some method
        → Asks (asked_for cache.old (outcome_key (inferred_outcome (pick_from cache.old.held) assembly.now method))) result
        (D.asked finder.old) (D.asked finder.new) }
{
    let outcome = inferred_outcome(alloc, assembly, units, index, inferred)?;
    Finding::of(alloc, outcome, cache, finder)
}

/// What is found of each method of an assembly alone, with what is inferred of it and of those that it calls.
fn find_each_inferred<D: Finder>(
    alloc: Global,
    assembly: &Assembly<'_>,
    units: &mut FileUnits<'_>,
    inferred: &[List<Clause>],
    cache: &mut VerdictCache,
    finder: &mut D,
) -> Result<Vec<Finding>, AllocError>
    requires alone { units.old ≡ Alone assembly.now }
    requires inferred { inferred.now ≡ all_candidates (pick_from cache.old.held) (entries_of assembly.now) }
    requires runnable { AreRunnable assembly.now }
    ensures value { IfOk result (λ found. map finding_in found.items ≡ findings (pick_from cache.old.held) (inferred_entries (pick_from cache.old.held) assembly.now)) }
    ensures shown { IfOk result (λ found. map shown_in found.items ≡ all_shown (manner_of cache.old) (inferred_entries (pick_from cache.old.held) assembly.now)) }
    ensures within { IfOk result (λ found. All IsWithin found.items) }
    ensures few { IfOk result (λ found. length found.items < 2 ^ 32) }
    ensures cache { OnOk result (cache.new ≡ with_judged cache.old (judged_keys (inferred_entries (pick_from cache.old.held) assembly.now))) }
    ensures asked { Asks (asked_for cache.old (judged_keys (inferred_entries (pick_from cache.old.held) assembly.now))) result
        (D.asked finder.old) (D.asked finder.new) }
{
    let methods = assembly.methods();
    let mut found = Vec::new(alloc);
    for index in 0..methods.len() {
        let one = find_inferred(alloc, assembly, units, index, inferred, cache, finder)?;
        found.push(one)?;
    }
    Ok(found)
}

/// Makes the report of an assembly alone, whose file has this name, with what is inferred of its methods. Each unit is
/// judged as it is written, and then each with what is inferred.
///
/// Cost: the code of each method is read twice, and what is inferred of all is kept until the answer is given.
pub fn report_inferred<D: Finder>(
    alloc: Global,
    name: &[u8],
    assembly: &Assembly<'_>,
    cache: &mut VerdictCache,
    finder: &mut D,
) -> Result<ReportLines, AllocError>
    requires keeps { cache.old.keeps ≡ true }
    ensures status { IfOk result (λ report. report.status ≡ (if are_proved (pick_from cache.old.held) (inferred_entries (pick_from cache.old.held) assembly.now) then 0 else 1)) }
    ensures text { IfOk result (λ report. joined report.lines.items ≡ report_text name.now (manner_of cache.old) (inferred_entries (pick_from cache.old.held) assembly.now)) }
    ensures lines { IfOk result (λ report. AreLines report.lines.items) }
    ensures reportable { IfOk result (λ _. IsReportable assembly.now) }
    ensures cache { OnOk result (cache.new ≡ with_judged cache.old (report_keys true (pick_from cache.old.held) assembly.now)) }
    ensures asked { Asks (asked_for cache.old (report_keys true (pick_from cache.old.held) assembly.now)) result
        (D.asked finder.old) (D.asked finder.new) }
{
    let mut units = FileUnits::alone(alloc, assembly)?;
    let inferred = infer_each(alloc, &mut units, 0, cache, finder)?;
    let found = find_each_inferred(alloc, assembly, &mut units, &inferred, cache, finder)?;
    let lines = file_lines(alloc, name, assembly.methods(), &found)?;
    Ok(ReportLines {
        lines,
        status: status_of(&found),
    })
}
