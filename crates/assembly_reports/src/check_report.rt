//! What is found of assemblies, and the reports of it.
//!
//! A report is printed when all of it is made: a call that lacks memory before prints nothing of it. Each line is one
//! put, and none waits in a buffer, which could be refused after its put was answered.

ghost use Rattle.std.specs.Prelude.{◌≡◌, ◌++◌, ◌<◌, ◌^◌, All, IfOk, None, OnOk, Some, false, if◌then◌else◌, length, map, slice_get, true, zip};
ghost use Rattle.std.specs.List.{flat_map, list_all};
ghost use Rattle.asm_image.specs.Faults.{FirstBroken};
ghost use Rattle.asm_image.specs.Rows.{methods_of};
ghost use Rattle.asm_image.specs.declared.method_row.MethodRow.{MethodRow};
ghost use Rattle.assembly_reports.specs.JudgedUnits.{asked_for, judged_keys, outcome_key, report_keys, units_asked, with_judged};
ghost use Rattle.assembly_reports.specs.CheckText.{all_methods_proved, all_shown, assembly_line, check_text, findings, found_counts, is_proved, method_line, outcome_finding, outcome_shown, report_text, verdict_text, are_proved};
ghost use Rattle.assembly_reports.specs.Reportable.{AreRunnable, IsReportable, CanRun, entries_at};
ghost use Rattle.answer_lines.specs.Counting.{AreBelow};
ghost use Rattle.assembly_reports.specs.Findings.{IsWithin, finding_in, found_lines, shown_in};
ghost use Rattle.assembly_reports.specs.InferredUnits.{entry_by};
ghost use Rattle.assembly_answers.specs.ListText.{AreNamedPlainly};
ghost use Rattle.answer_lines.specs.LineCounts.{AreLines, line_count};
ghost use Rattle.answer_lines.specs.Writing.{joined};
ghost use Rattle.method_unit.specs.Units.{IsUnit};
ghost use Rattle.unit_builder.specs.Outcomes.{IfAnalysed, entries_of, outcome_in};
ghost use Rattle.unit_builder.specs.declared.entry.Outcome.{Outcome};
ghost use Rattle.unit_builder.specs.FileSets.{files_in};
ghost use Rattle.unit_builder.specs.Scopes.{scope_in};
ghost use Rattle.unit_verdicts.specs.Asked.{Asks};
ghost use Rattle.unit_verdicts.specs.Picks.{Manner, limit_manner, limit_pick, pick_from};
ghost use Rattle.unit_verdicts.specs.VerdictCache.{manner_of};

use crate::finding::Finding;
use crate::inferring::report_inferred;
use answer_lines::{Counts, append_lines, summary_line};
use asm_image::{Assembly, MethodRow};
use cc_base::{append_escaped, put_hex};
use std::alloc::{AllocError, Global};
use unit_builder::FileUnits;
use unit_verdicts::VerdictCache;
use widening_engine::Finder;

/// The line of a method of which this is found.
fn method_line(alloc: Global, method: &MethodRow, finding: &Finding) -> Result<Vec<u8>, AllocError>
    ensures { IfOk result (λ line. line.items ≡ method_line method.now.token.0 method.now.name (verdict_text (finding_in finding.now))) }
{
    let mut line = Vec::from_slice(alloc, b"method ")?;
    put_hex(alloc, &mut line, method.token.0, 8)?;
    line.extend_from_slice(b" ")?;
    line.extend_from_slice(method.name.as_slice())?;
    line.extend_from_slice(b": ")?;
    finding.append_text(alloc, &mut line)?;
    line.extend_from_slice(b"\n")?;
    Ok(line)
}

/// Appends the lines of a method of which this is found.
fn append_finding(
    alloc: Global,
    lines: &mut Vec<Vec<u8>>,
    method: &MethodRow,
    finding: &Finding,
) -> Result<(), AllocError>
    requires within { IsWithin finding.now }
    requires name { line_count method.now.name ≡ 0 }
    requires lines { AreLines lines.old.items }
    ensures text { OnOk result (joined lines.new.items ≡ joined lines.old.items ++ found_lines (method.now, finding.now)) }
    ensures lines { OnOk result (AreLines lines.new.items) }
{
    lines.push(method_line(alloc, method, finding)?)?;
    finding.append_verdicts(alloc, lines)?;
    append_lines(alloc, lines, finding.shown())
}

/// Appends the lines of each method, of which these are found.
fn append_findings(
    alloc: Global,
    lines: &mut Vec<Vec<u8>>,
    methods: &[MethodRow],
    found: &[Finding],
) -> Result<(), AllocError>
    requires within { All IsWithin found.now }
    requires names { AreNamedPlainly methods.now }
    requires lines { AreLines lines.old.items }
    ensures text { OnOk result (joined lines.new.items ≡ joined lines.old.items ++ flat_map found_lines (zip methods.now found.now)) }
    ensures lines { OnOk result (AreLines lines.new.items) }
{
    for (method, finding) in methods.iter().zip(found.iter()) {
        append_finding(alloc, lines, method, finding)?;
    }
    Ok(())
}

/// Returns what is found of the method of this index in a file.
fn find<D: Finder>(
    alloc: Global,
    units: &mut FileUnits<'_>,
    file: u32,
    index: usize,
    cache: &mut VerdictCache,
    finder: &mut D,
) -> Result<Finding, AllocError>
    requires file { file < (files_in units.old).count }
    requires there { index < length (methods_of ((files_in units.old).bytes file)) }
    ensures same { units.new ≡ units.old }
    ensures value { (method : MethodRow) → slice_get (methods_of ((files_in units.old).bytes file)) index ≡ Some method
        → IfOk result (λ found. finding_in found ≡ outcome_finding (pick_from cache.old.held) (outcome_in (scope_in (files_in units.old) file) method)) }
    ensures shown { (method : MethodRow) → slice_get (methods_of ((files_in units.old).bytes file)) index ≡ Some method
        → IfOk result (λ found. shown_in found ≡ outcome_shown (manner_of cache.old) (outcome_in (scope_in (files_in units.old) file) method)) }
    ensures within { IfOk result IsWithin }
    ensures runnable { (method : MethodRow) → slice_get (methods_of ((files_in units.old).bytes file)) index ≡ Some method
        → IfOk result (λ _. IfAnalysed (outcome_in (scope_in (files_in units.old) file) method) IsUnit) }
    ensures cache { (method : MethodRow) → slice_get (methods_of ((files_in units.old).bytes file)) index ≡ Some method
        → OnOk result (cache.new ≡ with_judged cache.old (outcome_key (outcome_in (scope_in (files_in units.old) file) method))) }
    ensures asked { (method : MethodRow) → slice_get (methods_of ((files_in units.old).bytes file)) index ≡ Some method
        → Asks (asked_for cache.old (outcome_key (outcome_in (scope_in (files_in units.old) file) method))) result (D.asked finder.old) (D.asked finder.new) }
{
    let outcome = units.outcome(alloc, file, index)?;
    Finding::of(alloc, outcome, cache, finder)
}

/// Returns what is found of each method of a file, with the text of its invariant where that is shown. Of equal units
/// one is judged, also among those that are in the cache.
fn find_each<D: Finder>(
    alloc: Global,
    units: &mut FileUnits<'_>,
    file: u32,
    cache: &mut VerdictCache,
    finder: &mut D,
) -> Result<Vec<Finding>, AllocError>
    requires { file < (files_in units.old).count }
    ensures same { units.new ≡ units.old }
    ensures value { IfOk result (λ found. map finding_in found.items ≡ findings (pick_from cache.old.held) (entries_at units.old file)) }
    ensures shown { IfOk result (λ found. map shown_in found.items ≡ all_shown (manner_of cache.old) (entries_at units.old file)) }
    ensures within { IfOk result (λ found. All IsWithin found.items) }
    ensures few { IfOk result (λ found. length found.items < 2 ^ 32) }
    ensures runnable { IfOk result (λ _. CanRun (entries_at units.old file)) }
    ensures cache { OnOk result (cache.new ≡ with_judged cache.old (judged_keys (entries_at units.old file))) }
    ensures asked { Asks (asked_for cache.old (judged_keys (entries_at units.old file))) result (D.asked finder.old) (D.asked finder.new) }
{
    let methods = units.methods(file);
    let mut found = Vec::new(alloc);
    for index in 0..methods.len() {
        found.push(find(alloc, units, file, index, cache, finder)?)?;
    }
    Ok(found)
}

/// The same of an assembly alone.
fn find_all<D: Finder>(
    alloc: Global,
    assembly: &Assembly<'_>,
    cache: &mut VerdictCache,
    finder: &mut D,
) -> Result<Vec<Finding>, AllocError>
    ensures value { IfOk result (λ found. map finding_in found.items ≡ findings (pick_from cache.old.held) (entries_of assembly.now)) }
    ensures shown { IfOk result (λ found. map shown_in found.items ≡ all_shown (manner_of cache.old) (entries_of assembly.now)) }
    ensures within { IfOk result (λ found. All IsWithin found.items) }
    ensures few { IfOk result (λ found. length found.items < 2 ^ 32) }
    ensures runnable { IfOk result (λ _. AreRunnable assembly.now) }
    ensures cache { OnOk result (cache.new ≡ with_judged cache.old (judged_keys (entries_of assembly.now))) }
    ensures asked { Asks (asked_for cache.old (judged_keys (entries_of assembly.now))) result (D.asked finder.old) (D.asked finder.new) }
{
    let mut units = FileUnits::alone(alloc, assembly)?;
    find_each(alloc, &mut units, 0, cache, finder)
}

/// The same of an assembly that is looked at alone, without a cache file.
pub fn find_alone<D: Finder>(
    alloc: Global,
    assembly: &Assembly<'_>,
    show: bool,
    finder: &mut D,
) -> Result<Vec<Finding>, AllocError>
    ensures value { IfOk result (λ found. map finding_in found.items ≡ findings limit_pick (entries_of assembly.now)) }
    ensures shown { IfOk result (λ found. map shown_in found.items ≡ all_shown (limit_manner show) (entries_of assembly.now)) }
    ensures within { IfOk result (λ found. All IsWithin found.items) }
    ensures few { IfOk result (λ found. length found.items < 2 ^ 32) }
    ensures runnable { IfOk result (λ _. AreRunnable assembly.now) }
    ensures asked { Asks (units_asked assembly.now) result (D.asked finder.old) (D.asked finder.new) }
{
    let mut cache = VerdictCache::none(alloc, show);
    find_all(alloc, assembly, &mut cache, finder)
}

/// The counts of a report of which these are the findings.
pub fn count(found: &[Finding]) -> Counts
    requires within { All IsWithin found.now }
    requires few { length found.now < 2 ^ 32 }
    ensures value { result ≡ found_counts (map finding_in found.now) }
    ensures below { AreBelow (2 ^ 62) result }
{
    let mut counts = Counts::none();
    for finding in found {
        counts = counts.plus(finding.counts());
    }
    counts
}

/// Returns whether each method of which these are found is proved.
fn are_proved(found: &[Finding]) -> bool
    ensures { result ≡ list_all (λ finding. is_proved (finding_in finding)) found.now }
{
    found.iter().all(Finding::is_proved)
}

/// The status of a report with these findings.
pub fn status_of(found: &[Finding]) -> u8
    ensures { result ≡ (if list_all (λ finding. is_proved (finding_in finding)) found.now then 0 else 1) }
{
    if are_proved(found) { 0 } else { 1 }
}

/// The first line of a report.
fn assembly_line(alloc: Global, name: &[u8]) -> Result<Vec<u8>, AllocError>
    ensures { IfOk result (λ line. line.items ≡ assembly_line name.now) }
{
    let mut line = Vec::from_slice(alloc, b"assembly ")?;
    append_escaped(alloc, &mut line, name)?;
    line.extend_from_slice(b"\n")?;
    Ok(line)
}

/// The lines of the report of a file with these methods, of which these are the findings, in whatever manner these were
/// found, and whatever comes of the methods.
pub fn file_lines(
    alloc: Global,
    name: &[u8],
    methods: &[MethodRow],
    found: &[Finding],
) -> Result<Vec<Vec<u8>>, AllocError>
    requires within { All IsWithin found.now }
    requires few { length found.now < 2 ^ 32 }
    requires names { AreNamedPlainly methods.now }
    ensures text { (of : MethodRow → Outcome) (manner : Manner)
        → map finding_in found.now ≡ findings manner.pick (map (entry_by of) methods.now)
        → map shown_in found.now ≡ all_shown manner (map (entry_by of) methods.now)
        → IfOk result (λ lines. joined lines.items ≡ report_text name.now manner (map (entry_by of) methods.now)) }
    ensures lines { IfOk result (λ lines. AreLines lines.items) }
{
    let mut lines = Vec::new(alloc);
    lines.push(assembly_line(alloc, name)?)?;
    append_findings(alloc, &mut lines, methods, found)?;
    lines.push(summary_line(alloc, count(found))?)?;
    Ok(lines)
}

/// The report of an assembly: its lines, and the status of a call that makes it.
#[derive(Drop)]
pub struct ReportLines {
    /// The lines, each with its line feed.
    pub lines: Vec<Vec<u8>>,
    /// 0 where each method is proved, and else 1.
    pub status: u8,
}

/// Makes the report of the file of this list index, which has this name.
pub fn report_file<D: Finder>(
    alloc: Global,
    name: &[u8],
    units: &mut FileUnits<'_>,
    file: u32,
    cache: &mut VerdictCache,
    finder: &mut D,
) -> Result<ReportLines, AllocError>
    requires { file < (files_in units.old).count }
    ensures same { units.new ≡ units.old }
    ensures status { IfOk result (λ report. report.status ≡ (if are_proved (pick_from cache.old.held) (entries_at units.old file) then 0 else 1)) }
    ensures text { IfOk result (λ report. joined report.lines.items ≡ report_text name.now (manner_of cache.old) (entries_at units.old file)) }
    ensures lines { IfOk result (λ report. AreLines report.lines.items) }
    ensures accepted { IfOk result (λ _. FirstBroken ((files_in units.old).bytes file) ≡ None) }
    ensures runnable { IfOk result (λ _. CanRun (entries_at units.old file)) }
    ensures cache { OnOk result (cache.new ≡ with_judged cache.old (judged_keys (entries_at units.old file))) }
    ensures asked { Asks (asked_for cache.old (judged_keys (entries_at units.old file))) result (D.asked finder.old) (D.asked finder.new) }
{
    let found = find_each(alloc, units, file, cache, finder)?;
    let lines = file_lines(alloc, name, units.methods(file), &found)?;
    Ok(ReportLines {
        lines,
        status: status_of(&found),
    })
}

/// Makes the report of an assembly alone, whose file has this name, of its methods as they are written or with what is
/// inferred of them.
pub fn report_lines<D: Finder>(
    alloc: Global,
    name: &[u8],
    assembly: &Assembly<'_>,
    infer: bool,
    cache: &mut VerdictCache,
    finder: &mut D,
) -> Result<ReportLines, AllocError>
    requires keeps { infer ≡ true → cache.old.keeps ≡ true }
    ensures status { IfOk result (λ report. report.status ≡ (if all_methods_proved infer (pick_from cache.old.held) assembly.now then 0 else 1)) }
    ensures text { IfOk result (λ report. joined report.lines.items ≡ check_text infer name.now (manner_of cache.old) assembly.now) }
    ensures lines { IfOk result (λ report. AreLines report.lines.items) }
    ensures reportable { IfOk result (λ _. IsReportable assembly.now) }
    ensures cache { OnOk result (cache.new ≡ with_judged cache.old (report_keys infer (pick_from cache.old.held) assembly.now)) }
    ensures asked { Asks (asked_for cache.old (report_keys infer (pick_from cache.old.held) assembly.now)) result
        (D.asked finder.old) (D.asked finder.new) }
{
    if infer {
        return report_inferred(alloc, name, assembly, cache, finder);
    }
    let mut units = FileUnits::alone(alloc, assembly)?;
    report_file(alloc, name, &mut units, 0, cache, finder)
}

/// The text of lines, one after another.
fn text_of(alloc: Global, lines: &[Vec<u8>]) -> Result<Vec<u8>, AllocError>
    ensures { IfOk result (λ text. text.items ≡ joined lines.now) }
{
    let mut text = Vec::new(alloc);
    for line in lines {
        text.extend_from_slice(line)?;
    }
    Ok(text)
}

/// The report of an assembly whose file has this name, as `check` writes it, with the invariants where these are shown.
/// The finder is asked for an invariant of each unit that is judged, of equal units once.
///
/// Cost: that of `check`, and the text once more.
pub fn report<D: Finder>(
    alloc: Global,
    name: &str,
    assembly: &Assembly<'_>,
    show: bool,
    finder: &mut D,
) -> Result<Vec<u8>, AllocError>
    ensures value { IfOk result (λ text. text.items ≡ check_text false name.now (limit_manner show) assembly.now) }
    ensures asked { Asks (units_asked assembly.now) result (D.asked finder.old) (D.asked finder.new) }
{
    let found = find_alone(alloc, assembly, show, finder)?;
    let lines = file_lines(alloc, name.as_bytes(), assembly.methods(), &found)?;
    text_of(alloc, &lines)
}
