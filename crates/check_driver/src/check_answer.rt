//! The answer to `check FILE..`, with `--show` or without, with a cache and a proof file or without.
//!
//! With `--infer` files are reported one by one: the units of a file as they are written, then with what is inferred,
//! and its report, before the next file. So a second file that is refused leaves the first report.

#![tactic(auto, using(cc_base::proofs::SinkLemmas::sinks, cc_base::proofs::CountLemmas::counts, answer_lines::proofs::LineLemmas::puts_none))]

ghost use Rattle.std.specs.Prelude.{◌≡◌, ◌<◌, ◌||◌, All, IfOk, IfSome, None, OnOk, Some, [], if◌then◌else◌, is_some, length, true, zip};
ghost use Rattle.std.specs.List.{AllByRecursion};
ghost use Rattle.cc_base.specs.Counts.{Rose};
ghost use Rattle.answer_lines.specs.Outcome.{Gives};
ghost use Rattle.answer_lines.specs.Writing.{Writes, change_of};
ghost use Rattle.check_driver.specs.Asked.{begun_units, bytes_asked, check_keys};
ghost use Rattle.assembly_reports.specs.JudgedUnits.{asked_for, report_keys, with_judged};
ghost use Rattle.check_driver.specs.CacheMet.{cache_entries, cache_refusal, command_cache, command_proof};
ghost use Rattle.check_driver.specs.CallRead.{IsCalled, cache_of, files_of, names_of};
ghost use Rattle.assembly_reports.specs.CheckText.{all_methods_proved, check_text};
ghost use Rattle.check_driver.specs.Checked.{AreBegun};
ghost use Rattle.assembly_reports.specs.Reportable.{IsReportable};
ghost use Rattle.check_driver.specs.Expected.{bytes_answer, check_answer, check_manner};
ghost use Rattle.check_driver.specs.FilesLeft.{AnswerLeaves, GivesOrUnreplaced, IfEither, bytes_left};
ghost use Rattle.check_driver.specs.HonestCaches.{HonestWhereHonest};
ghost use Rattle.check_driver.specs.Known.{AreAllRunnable, KnowsCheck};
ghost use Rattle.check_driver.specs.NothingOr.{NothingOr};
ghost use Rattle.command_words.specs.Words.{words_bytes};
ghost use Rattle.command_words.specs.declared.command.Command.TheVariants as commands;
ghost use Rattle.result_cache.specs.Entries.{AreShort};
ghost use Rattle.unit_verdicts.specs.Asked.{Asks};
ghost use Rattle.unit_verdicts.specs.Picks.{pick_from};
ghost use Rattle.unit_verdicts.specs.VerdictCache.{manner_of};

use crate::inputs::CallFiles;
use crate::left_files::leave_files;
use crate::open_cache::open_cache;
use answer_lines::{Interrupt, answer_refused, put_lines};
use asm_image::{AsmRefusal, Assembly};
use assembly_answers::assembly_fault_text;
use assembly_reports::report_lines;
use cc_base::{Files, Sink};
use command_words::{CheckWords, word_at};
use result_cache::Cache;
use std::alloc::Global;
use unit_verdicts::VerdictCache;
use widening_engine::Finder;

/// Answers for an assembly: its report, of its methods as they are written or with what is inferred of them, and the
/// status of that.
pub fn answer_assembly<O: Sink, D: Finder>(
    alloc: Global,
    name: &[u8],
    assembly: &Assembly<'_>,
    infer: bool,
    cache: &mut VerdictCache,
    out: &mut O,
    finder: &mut D,
) -> Result<u8, Interrupt>
    requires keeps { infer ≡ true → cache.old.keeps ≡ true }
    ensures status { IfOk result (λ status. status ≡ (if all_methods_proved infer (pick_from cache.old.held) assembly.now then 0 else 1)) }
    ensures written { Writes result (change_of O.written O.puts O.faults out.old out.new) (check_text infer name.now (manner_of cache.old) assembly.now) }
    ensures known { IfOk result (λ _. IsReportable assembly.now) }
    ensures reportable { NothingOr (O.written out.old) (O.written out.new) (IsReportable assembly.now) }
    ensures cache { OnOk result (cache.new ≡ with_judged cache.old (report_keys infer (pick_from cache.old.held) assembly.now)) }
    ensures asked { Asks (asked_for cache.old (report_keys infer (pick_from cache.old.held) assembly.now)) result
        (D.asked finder.old) (D.asked finder.new) }
{
    let report = report_lines(alloc, name, assembly, infer, cache, finder)?;
    put_lines(alloc, out, &report.lines)?;
    Ok(report.status)
}

/// Answers for the assemblies of a check, one after another. The first that is refused ends the answer. Units that are
/// in the cache are not judged again.
fn answer_each<O: Sink, E: Sink, D: Finder>(
    alloc: Global,
    given: &CallFiles<'_>,
    infer: bool,
    cache: &mut VerdictCache,
    out: &mut O,
    err: &mut E,
    finder: &mut D,
) -> Result<u8, Interrupt>
    requires inside { AllByRecursion (λ index. index < length given.now.words.now) given.now.indexes.now }
    requires each { length given.now.read.now ≡ length given.now.indexes.now }
    requires keeps { infer ≡ true → cache.old.keeps ≡ true }
    ensures answer { Gives (check_answer infer (manner_of cache.old) (names_of given.now) (files_of given.now)) result
        (change_of O.written O.puts O.faults out.old out.new) (change_of E.written E.puts E.faults err.old err.new) }
    ensures begun { AreBegun infer (manner_of cache.old) (zip (names_of given.now) (files_of given.now))
        (O.written out.old) (O.written out.new) }
    ensures cache { OnOk result (cache.new ≡ with_judged cache.old (check_keys infer (pick_from cache.old.held) (files_of given.now))) }
    ensures asked { Asks (asked_for cache.old (check_keys infer (pick_from cache.old.held) (files_of given.now))) result
        (D.asked finder.old) (D.asked finder.new) }
    ensures known { IfOk result (λ _. AreAllRunnable (files_of given.now)) }
{
    let [index, indexes @ ..] = given.indexes else {
        return Ok(0);
    };
    let [bytes, read @ ..] = given.read else {
        return Ok(0);
    };
    let name = word_at(given.words, *index).as_bytes();
    match Assembly::read(alloc, bytes) {
        Err(AsmRefusal::NoMemory) => Err(Interrupt::NoMemory),
        Err(AsmRefusal::Bad(fault)) => {
            answer_refused(alloc, name, assembly_fault_text(fault.cause), fault.at, err)
        }
        Ok(assembly) => {
            let status = answer_assembly(alloc, name, &assembly, infer, cache, out, finder)?;
            let later = CallFiles {
                words: given.words,
                indexes,
                read,
                cache: given.cache,
            };
            let others = answer_each(alloc, &later, infer, cache, out, err, finder)?;
            Ok(status.max(others))
        }
    }
}

/// The cache that a check begins with: of its cache file, if it has one. One that is refused is told.
fn begin_cache<E: Sink>(
    alloc: Global,
    check: CheckWords,
    given: &CallFiles<'_>,
    err: &mut E,
) -> Result<Cache, Interrupt>
    requires named { IfSome check.cache (λ index. index < length given.now.words.now) }
    requires none { check.cache ≡ None → cache_of given.now ≡ None }
    ensures entries { IfOk result (λ cache. cache ≡ cache_entries (cache_of given.now)) }
    ensures short { IfOk result AreShort }
    ensures written { Writes result (change_of E.written E.puts E.faults err.old err.new)
        (cache_refusal (command_cache (words_bytes given.now.words.now) (commands.Check check)) (cache_of given.now)) }
{
    match check.cache {
        Some(index) => {
            let name = word_at(given.words, index).as_bytes();
            open_cache(alloc, name, given.cache, err)
        }
        None => Ok(Cache::none(alloc)),
    }
}

/// Returns whether a check keeps the invariants of units: to leave a cache or a proof file, or to infer Ensures of
/// them.
fn keeps_invariants(check: CheckWords) -> bool
    ensures { result ≡ (is_some check.cache || (is_some check.proof || is_some check.infer)) }
{
    check.cache.is_some() || check.proof.is_some() || check.infers()
}

/// The verdicts of a check, of which there are none yet: over its cache, if it has one. One that is refused is told.
pub fn begin_check<E: Sink>(
    alloc: Global,
    check: CheckWords,
    given: &CallFiles<'_>,
    err: &mut E,
) -> Result<VerdictCache, Interrupt>
    requires named { IfSome check.cache (λ index. index < length given.now.words.now) }
    requires none { check.cache ≡ None → cache_of given.now ≡ None }
    ensures cache { IfOk result (λ cache. cache ≡ begun_units check (cache_of given.now)) }
    ensures written { Writes result (change_of E.written E.puts E.faults err.old err.new)
        (cache_refusal (command_cache (words_bytes given.now.words.now) (commands.Check check)) (cache_of given.now)) }
{
    let held = begin_cache(alloc, check, given, err)?;
    Ok(VerdictCache::over(alloc, check.shows(), keeps_invariants(check), held))
}

/// Answers a check of these assemblies. The reports show the invariants where these are asked for, and are of methods
/// with what is inferred of them where that is asked for. Where the check has a cache, units that it has are judged
/// under what it holds for them. At last the proof file of the check is replaced, and then its cache, by the units of
/// this call, unless a file was refused.
///
/// Cost: the code of each method is read once, however many methods call it, and of equal units one is analysed, also
/// among those of several files. What is found of a file is kept until its report is made, and the assemblies and the
/// cache that were read until the answer is given.
pub fn answer_check<F: Files, O: Sink, E: Sink, D: Finder>(
    alloc: Global,
    check: CheckWords,
    given: &CallFiles<'_>,
    files: &mut F,
    out: &mut O,
    err: &mut E,
    finder: &mut D,
) -> Result<u8, Interrupt>
    requires { IsCalled (commands.Check check) given.now }
    ensures answer { let words = words_bytes given.now.words.now in
        GivesOrUnreplaced (bytes_answer (commands.Check check) words (cache_of given.now) None (files_of given.now))
        (IfEither (command_proof words (commands.Check check)) (command_cache words (commands.Check check))
        (Rose (F.faults files.old) (F.faults files.new))) result
        (change_of O.written O.puts O.faults out.old out.new) (change_of E.written E.puts E.faults err.old err.new) }
    ensures begun { AreBegun (is_some check.infer) (check_manner check (cache_of given.now)) (zip (names_of given.now) (files_of given.now))
        (O.written out.old) (O.written out.new) }
    ensures asked { Asks (bytes_asked (commands.Check check) (cache_of given.now) (files_of given.now)) result
        (D.asked finder.old) (D.asked finder.new) }
    ensures left { let words = words_bytes given.now.words.now in
        AnswerLeaves (bytes_left (commands.Check check) words (cache_of given.now) (files_of given.now))
        (bytes_answer (commands.Check check) words (cache_of given.now) None (files_of given.now)).out result
        (change_of O.written O.puts O.faults out.old out.new) (F.held files.old) (F.held files.new) }
    ensures known { IfOk result (KnowsCheck check (cache_of given.now) (files_of given.now)) }
    ensures honest { let words = words_bytes given.now.words.now in
        HonestWhereHonest (command_cache words (commands.Check check)) (command_proof words (commands.Check check))
        (cache_entries (cache_of given.now)) (F.held files.old) (F.held files.new) }
{
    let mut units = begin_check(alloc, check, given, err)?;
    let status = answer_each(alloc, given, check.infers(), &mut units, out, err, finder)?;
    leave_files(alloc, check, given.words, status, &units, files)?;
    Ok(status)
}
