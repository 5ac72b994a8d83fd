//! The answer to `check FILE.. --ref FILE`: the reports of assemblies that are linked with each other.

#![tactic(auto, using(cc_base::proofs::SinkLemmas::sinks, cc_base::proofs::CountLemmas::counts, answer_lines::proofs::LineLemmas::puts_none))]

ghost use Rattle.std.specs.Prelude.{◌≡◌, ◌+◌, ◌<◌, ◌^◌, IfOk, None, OnOk, if◌then◌else◌, length};
ghost use Rattle.std.specs.List.{AllByRecursion, flat_map};
ghost use Rattle.answer_lines.specs.Outcome.{Gives};
ghost use Rattle.answer_lines.specs.Writing.{Writes, change_of};
ghost use Rattle.cc_base.specs.Counts.{Rose};
ghost use Rattle.check_driver.specs.Asked.{bytes_asked, linked_keys};
ghost use Rattle.assembly_reports.specs.JudgedUnits.{asked_for, judged_keys, with_judged};
ghost use Rattle.check_driver.specs.CacheMet.{cache_entries, command_cache, command_proof};
ghost use Rattle.assembly_reports.specs.CheckText.{report_text, are_proved};
ghost use Rattle.check_driver.specs.CallRead.{IsCalled, cache_of, files_of, names_of};
ghost use Rattle.check_driver.specs.Expected.{bytes_answer};
ghost use Rattle.check_driver.specs.FilesLeft.{AnswerLeaves, GivesOrUnreplaced, IfEither, bytes_left};
ghost use Rattle.check_driver.specs.HonestCaches.{HonestWhereHonest};
ghost use Rattle.check_driver.specs.Known.{AreLinkedRunnable};
ghost use Rattle.check_driver.specs.LinkedHeadline.{SomeLinkedBegun};
ghost use Rattle.check_driver.specs.LinkedReading.{ReadsAll, ReadsOne};
ghost use Rattle.check_driver.specs.LinkedReports.{LinkedBegun, ReportsBegun, are_all_proved, entries_from, file_reports, first_refused, linked_answer, reported_from};
ghost use Rattle.assembly_reports.specs.Reportable.{CanRun, entries_at};
ghost use Rattle.check_driver.specs.Met.{bytes_read};
ghost use Rattle.check_driver.specs.NothingOr.{NothingOr};
ghost use Rattle.command_words.specs.Words.{words_at, words_bytes};
ghost use Rattle.check_driver.specs.declared.linked_answer.Unlinked.TheVariants.{NoMemory};
ghost use Rattle.command_words.specs.declared.command.Command.TheVariants as commands;
ghost use Rattle.unit_builder.specs.FileSets.{files_in};
ghost use Rattle.unit_verdicts.specs.Asked.{Asks};
ghost use Rattle.unit_verdicts.specs.Picks.{pick_from};
ghost use Rattle.unit_verdicts.specs.VerdictCache.{manner_of};

use crate::check_answer::begin_check;
use crate::inputs::CallFiles;
use crate::left_files::leave_files;
use answer_lines::{Interrupt, answer_refused, put_lines};
use asm_image::{AsmFault, AsmRefusal, Assembly};
use asm_links::Links;
use assembly_answers::assembly_fault_text;
use assembly_reports::report_file;
use cc_base::{Files, Sink};
use command_words::{LinkedWords, word_at};
use std::alloc::{AllocFailed, Global};
use unit_builder::FileUnits;
use unit_verdicts::VerdictCache;
use widening_engine::Finder;

/// Why assemblies are not linked.
#[derive(Clone, Copy)]
pub enum Unlinked {
    /// The one of this list index is refused for this fault, and none before it.
    Refused(usize, AsmFault),
    /// Memory ran out.
    NoMemory,
}

impl<T: Drop> From<AllocFailed<T>> for Unlinked {
    ghost from_gives = { λ _ e. e ≡ NoMemory };

    fn from(_error: AllocFailed<T>) -> Unlinked {
        Unlinked::NoMemory
    }
}

/// Reads the assembly of a list index.
fn read_one(alloc: Global, file: usize, bytes: &[u8]) -> Result<Assembly<'_>, Unlinked>
    ensures { ReadsOne file bytes.now result }
{
    match Assembly::read(alloc, bytes) {
        Ok(assembly) => Ok(assembly),
        Err(AsmRefusal::Bad(fault)) => Err(Unlinked::Refused(file, fault)),
        Err(AsmRefusal::NoMemory) => Err(Unlinked::NoMemory),
    }
}

/// Reads all assemblies, in order. The first that is refused ends it.
fn read_all(alloc: Global, read: &[Vec<u8>]) -> Result<Vec<Assembly<'_>>, Unlinked>
    ensures { ReadsAll (bytes_read read.now) result }
{
    let mut assemblies = Vec::new(alloc);
    for file in 0..read.len() {
        assemblies.push(read_one(alloc, file, &read[file])?)?;
    }
    Ok(assemblies)
}

/// Answers for the file of a list index: its report, and the status of that.
fn answer_file<O: Sink, D: Finder>(
    alloc: Global,
    name: &[u8],
    units: &mut FileUnits<'_>,
    file: u32,
    cache: &mut VerdictCache,
    out: &mut O,
    finder: &mut D,
) -> Result<u8, Interrupt>
    requires { file < (files_in units.old).count }
    ensures same { units.new ≡ units.old }
    ensures status { IfOk result (λ status. status ≡ (if are_proved (pick_from cache.old.held) (entries_at units.old file) then 0 else 1)) }
    ensures written { Writes result (change_of O.written O.puts O.faults out.old out.new)
        (report_text name.now (manner_of cache.old) (entries_at units.old file)) }
    ensures known { IfOk result (λ _. CanRun (entries_at units.old file)) }
    ensures runnable { NothingOr (O.written out.old) (O.written out.new) (CanRun (entries_at units.old file)) }
    ensures cache { OnOk result (cache.new ≡ with_judged cache.old (judged_keys (entries_at units.old file))) }
    ensures asked { Asks (asked_for cache.old (judged_keys (entries_at units.old file))) result (D.asked finder.old) (D.asked finder.new) }
{
    let report = report_file(alloc, name, units, file, cache, finder)?;
    put_lines(alloc, out, &report.lines)?;
    Ok(report.status)
}

/// Answers for files from one on, whose names the words at these indexes tell: their reports, one after another.
fn answer_files<O: Sink, D: Finder>(
    alloc: Global,
    words: &[String],
    indexes: &[u32],
    units: &mut FileUnits<'_>,
    file: u32,
    cache: &mut VerdictCache,
    out: &mut O,
    finder: &mut D,
) -> Result<u8, Interrupt>
    requires inside { AllByRecursion (λ index. index < length words.now) indexes.now }
    requires each { file + length indexes.now ≡ (files_in units.old).count }
    requires few { file + length indexes.now < 2 ^ 32 }
    ensures status { IfOk result (λ status. status
        ≡ (if are_all_proved (pick_from cache.old.held) (reported_from units.old file (words_at (words_bytes words.now) indexes.now)) then 0 else 1)) }
    ensures written { Writes result (change_of O.written O.puts O.faults out.old out.new)
        (file_reports (manner_of cache.old) (reported_from units.old file (words_at (words_bytes words.now) indexes.now))) }
    ensures begun { ReportsBegun (manner_of cache.old) (reported_from units.old file (words_at (words_bytes words.now) indexes.now))
        (O.written out.old) (O.written out.new) }
    ensures cache { OnOk result (cache.new ≡ with_judged cache.old (flat_map judged_keys (entries_from units.old file (length indexes.now)))) }
    ensures asked { Asks (asked_for cache.old (flat_map judged_keys (entries_from units.old file (length indexes.now)))) result
        (D.asked finder.old) (D.asked finder.new) }
    ensures known { IfOk result (λ _. AllByRecursion CanRun (entries_from units.old file (length indexes.now))) }
{
    let [index, indexes @ ..] = indexes else {
        return Ok(0);
    };
    let name = word_at(words, *index).as_bytes();
    let status = answer_file(alloc, name, units, file, cache, out, finder)?;
    let others = answer_files(alloc, words, indexes, units, file + 1, cache, out, finder)?;
    Ok(status.max(others))
}

/// Answers for assemblies that are linked: their reports, one after another.
fn answer_links<O: Sink, D: Finder>(
    alloc: Global,
    given: &CallFiles<'_>,
    links: &Links<'_>,
    cache: &mut VerdictCache,
    out: &mut O,
    finder: &mut D,
) -> Result<u8, Interrupt>
    requires inside { AllByRecursion (λ index. index < length given.now.words.now) given.now.indexes.now }
    requires each { length links.now ≡ length given.now.indexes.now }
    requires accepted { first_refused links.now ≡ None }
    ensures status { IfOk result (λ status. status ≡ (linked_answer (manner_of cache.old) (names_of given.now) links.now).status) }
    ensures written { Writes result (change_of O.written O.puts O.faults out.old out.new)
        (linked_answer (manner_of cache.old) (names_of given.now) links.now).out }
    ensures begun { LinkedBegun (manner_of cache.old) (names_of given.now) links.now (O.written out.old) (O.written out.new) }
    ensures cache { OnOk result (cache.new ≡ with_judged cache.old (linked_keys links.now)) }
    ensures asked { Asks (asked_for cache.old (linked_keys links.now)) result (D.asked finder.old) (D.asked finder.new) }
    ensures known { IfOk result (λ _. AreLinkedRunnable links.now) }
{
    if given.indexes.len() > u32::MAX as usize {
        return Err(Interrupt::NoMemory);
    }
    let mut units = FileUnits::linked(alloc, links)?;
    answer_files(
        alloc,
        given.words,
        given.indexes,
        &mut units,
        0,
        cache,
        out,
        finder,
    )
}

/// Answers for the files of a check that are linked with each other. All are read before one is reported, and the first
/// that is refused ends the answer.
fn answer_all<O: Sink, E: Sink, D: Finder>(
    alloc: Global,
    given: &CallFiles<'_>,
    cache: &mut VerdictCache,
    out: &mut O,
    err: &mut E,
    finder: &mut D,
) -> Result<u8, Interrupt>
    requires inside { AllByRecursion (λ index. index < length given.now.words.now) given.now.indexes.now }
    requires each { length given.now.read.now ≡ length given.now.indexes.now }
    ensures answer { Gives (linked_answer (manner_of cache.old) (names_of given.now) (files_of given.now)) result
        (change_of O.written O.puts O.faults out.old out.new) (change_of E.written E.puts E.faults err.old err.new) }
    ensures begun { NothingOr (O.written out.old) (O.written out.new)
        (LinkedBegun (manner_of cache.old) (names_of given.now) (files_of given.now) (O.written out.old) (O.written out.new)) }
    ensures cache { OnOk result (cache.new ≡ with_judged cache.old (linked_keys (files_of given.now))) }
    ensures asked { Asks (asked_for cache.old (linked_keys (files_of given.now))) result
        (D.asked finder.old) (D.asked finder.new) }
    ensures known { IfOk result (λ _. AreLinkedRunnable (files_of given.now)) }
{
    match read_all(alloc, given.read) {
        Ok(assemblies) => {
            let links = Links::make(alloc, assemblies)?;
            answer_links(alloc, given, &links, cache, out, finder)
        }
        Err(Unlinked::Refused(file, fault)) => {
            let name = word_at(given.words, given.indexes[file]).as_bytes();
            answer_refused(alloc, name, assembly_fault_text(fault.cause), fault.at, err)
        }
        Err(Unlinked::NoMemory) => Err(Interrupt::NoMemory),
    }
}

/// Answers a check of these assemblies, which are linked with each other: a call of one may mean a method of another.
/// All else is as in a check without references.
///
/// Cost: that of the same reports of each alone, and besides one pass over the methods of all files and one look-up for
/// each call of another file's method. All assemblies are kept until the answer is given.
pub fn answer_linked<F: Files, O: Sink, E: Sink, D: Finder>(
    alloc: Global,
    linked: LinkedWords,
    given: &CallFiles<'_>,
    files: &mut F,
    out: &mut O,
    err: &mut E,
    finder: &mut D,
) -> Result<u8, Interrupt>
    requires { IsCalled (commands.Linked linked) given.now }
    ensures answer { let words = words_bytes given.now.words.now in
        GivesOrUnreplaced (bytes_answer (commands.Linked linked) words (cache_of given.now) None (files_of given.now))
        (IfEither (command_proof words (commands.Linked linked)) (command_cache words (commands.Linked linked))
        (Rose (F.faults files.old) (F.faults files.new))) result
        (change_of O.written O.puts O.faults out.old out.new) (change_of E.written E.puts E.faults err.old err.new) }
    ensures begun { NothingOr (O.written out.old) (O.written out.new)
        (SomeLinkedBegun (names_of given.now) (files_of given.now) (O.written out.old) (O.written out.new)) }
    ensures asked { Asks (bytes_asked (commands.Linked linked) (cache_of given.now) (files_of given.now)) result
        (D.asked finder.old) (D.asked finder.new) }
    ensures left { let words = words_bytes given.now.words.now in
        AnswerLeaves (bytes_left (commands.Linked linked) words (cache_of given.now) (files_of given.now))
        (bytes_answer (commands.Linked linked) words (cache_of given.now) None (files_of given.now)).out result
        (change_of O.written O.puts O.faults out.old out.new) (F.held files.old) (F.held files.new) }
    ensures known { IfOk result (λ _. AreLinkedRunnable (files_of given.now)) }
    ensures honest { let words = words_bytes given.now.words.now in
        HonestWhereHonest (command_cache words (commands.Linked linked)) (command_proof words (commands.Linked linked))
        (cache_entries (cache_of given.now)) (F.held files.old) (F.held files.new) }
{
    let mut units = begin_check(alloc, linked.check, given, err)?;
    let status = answer_all(alloc, given, &mut units, out, err, finder)?;
    leave_files(alloc, linked.check, given.words, status, &units, files)?;
    Ok(status)
}
