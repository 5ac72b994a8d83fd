//! The top call: the program's answer to its words.
//!
//! Of files that do not tell what they hold, `output` says that the answer is the expected one for something under each
//! name, one thing for each read: what stands under a name may change between two reads. For `MapFiles` and `VecSink`
//! it is exact.

#![tactic(auto, using(cc_base::proofs::SinkLemmas::sinks, cc_base::proofs::CountLemmas::counts, answer_lines::proofs::LineLemmas::puts_none))]

ghost use Rattle.std.specs.Prelude.{◌≡◌, ◌≢◌, ◌⊎◌, ◌++◌, ◌<◌, ◌≤◌, All, Contains, List, ℕ, false, length, option_to_list, Option, Some, IfOk, IfSome, None, slice_get, true, zip};
ghost use Rattle.asm_image.specs.Faults.{FirstBroken};
ghost use Rattle.asm_image.specs.Rows.{methods_of};
ghost use Rattle.asm_image.specs.declared.method_row.MethodRow.{MethodRow};
ghost use Rattle.cc_base.specs.Counts.{Rose, Kept};
ghost use Rattle.cc_base.specs.Files.{Held};
ghost use Rattle.cc_base.specs.Sink.{AppendsPrefix};
ghost use Rattle.cc_base.specs.declared.token.Token.{Token};
ghost use Rattle.check_driver.specs.Asked.{AnswerAsks, LeavesAsked, asked_by, bytes_asked, files_asked};
ghost use Rattle.cil_model.specs.Runs.{Safe};
ghost use Rattle.check_driver.specs.BytesAnswered.{AnswersBytes};
ghost use Rattle.check_driver.specs.CacheMet.{CallMet, IsMet, cache_entries, command_cache, command_proof, met_of};
ghost use Rattle.check_driver.specs.CallRead.{IsCalled, cache_of, files_of};
ghost use Rattle.check_driver.specs.Checked.{AreBegun, AreHeldBegun, IfReports, infers};
ghost use Rattle.assembly_reports.specs.Reportable.{IsSafeMethod, IsSafeWithInferred};
ghost use Rattle.check_driver.specs.Confirmed.{AsksToConfirm, plain_report, source_held};
ghost use Rattle.assembly_answers.specs.Answers.{run_file_answer};
ghost use Rattle.check_driver.specs.Expected.{expected, file_at, files_answer};
ghost use Rattle.check_driver.specs.FilesLeft.{AnswerLeaves, IfEither, LeavesFiles, files_left, left_by};
ghost use Rattle.answer_lines.specs.Outcome.{Gives, GivesOrFails, Leaves, last_line, status_of};
ghost use Rattle.check_driver.specs.Headline.{BeginsItsWorld, IsAssemblyOf, IsSafeInferred, RunsKeepArrays, TellAllProved, WasAppended};
ghost use Rattle.check_driver.specs.HonestCaches.{AsksWithoutCache, HonestWhereHonest, IsCacheHonest, WritesAs};
ghost use Rattle.check_driver.specs.Known.{AnswerKnows, Knows, WordsKnow};
ghost use Rattle.check_driver.specs.LinkedHeadline.{AreLinkedBegun, AreLinkedOf, BeginsLinkedWorld, IfLinked, LinksWithoutCache, SomeLinkedBegun, TellLinkedProved};
ghost use Rattle.check_driver.specs.NothingOr.{NothingOr};
ghost use Rattle.check_driver.specs.ProofMet.{IsProofMet};
ghost use Rattle.check_driver.specs.ProvedUnit.{AreSpelled, AsksForUnit, IfUnit, IsHeldSpelled, PrintsProvedUnit, SpellSafeUnit};
ghost use Rattle.check_driver.specs.Refuted.{AsksToRefute, PrintsRefuted};
ghost use Rattle.assembly_reports.specs.Sections.{HasProvedLine, section};
ghost use Rattle.command_words.specs.Words.{HasArguments, IfGen, IfRun, args_told, cache_name, checked_indexes, command_of, file_indexes, file_names, linked_files, proof_name, read_names, used_indexes, word_at, words_at, words_bytes};
ghost use Rattle.answer_lines.specs.Writing.{change_of};
ghost use Rattle.unit_builder.specs.Linked.{linked_world};
ghost use Rattle.unit_builder.specs.Scopes.{key_at};
ghost use Rattle.unit_builder.specs.WorldOf.{world_of};
ghost use Rattle.answer_lines.specs.Answers.{output_answer};
ghost use Rattle.proof_files.specs.Reading.{ProofRead};
ghost use Rattle.unit_verdicts.specs.Asked.{Asks};
ghost use Rattle.unit_verdicts.specs.Picks.{pick_from};

use crate::check_answer::answer_check;
use crate::gen_answer::answer_gen;
use crate::inputs::{CallFiles, read_inputs};
use crate::linked_answer::answer_linked;
use crate::reading::Unread;
use crate::unit_answer::answer_unit_file;
use crate::verify_answer::answer_verify;
use answer_lines::{
    Interrupt, NO_MEMORY, UNWRITTEN, USAGE, answer_error, answer_missing, answer_unread,
};
use assembly_answers::{RunGiven, answer_il, answer_list, answer_refute, answer_run};
use cc_base::{Files, Sink};
use command_words::{Command, RunWords, parse_words, word_at};
use std::alloc::Global;
use widening_engine::Finder;

/// The names of a file and of a method that words tell.
fn names_at(words: &[String], file: u32, method: u32) -> (&[u8], &[u8])
    requires file { file < length words.now }
    requires method { method < length words.now }
    ensures file { result.0.now ≡ word_at (words_bytes words.now) file }
    ensures method { result.1.now ≡ word_at (words_bytes words.now) method }
{
    (
        word_at(words, file).as_bytes(),
        word_at(words, method).as_bytes(),
    )
}

/// Answers the words of a run for what was read of its file.
fn answer_run_words<O: Sink, E: Sink>(
    alloc: Global,
    run: RunWords,
    words: &[String],
    bytes: &[u8],
    out: &mut O,
    err: &mut E,
) -> Result<u8, Interrupt>
    requires file { run.file < length words.now }
    requires method { run.method < length words.now }
    requires args { HasArguments run (words_bytes words.now) }
    ensures { let given = words_bytes words.now in
        Gives (run_file_answer (word_at given run.file) (word_at given run.method) (args_told run given) run.steps bytes.now (FirstBroken bytes.now)) result
        (change_of O.written O.puts O.faults out.old out.new) (change_of E.written E.puts E.faults err.old err.new) }
{
    let given = RunGiven {
        args: &words[3..run.args_end as usize],
        steps: run.steps,
    };
    let (name, method) = names_at(words, run.file, run.method);
    answer_run(alloc, name, method, given, bytes, out, err)
}

/// Answers a command for what was read of its files, of each at most `READ_LIMIT` bytes.
#[tactic(auto, using(crate::proofs::BytesParts::answered))]
fn answer_bytes<F: Files, O: Sink, E: Sink, D: Finder>(
    alloc: Global,
    command: Command,
    given: &CallFiles<'_>,
    files: &mut F,
    out: &mut O,
    err: &mut E,
    finder: &mut D,
) -> Result<u8, Interrupt>
    requires called { IsCalled command given.now }
    requires arguments { IfRun command (λ run. HasArguments run (words_bytes given.now.words.now)) }
    requires few { IfGen command (λ seed count. count ≤ 10000) }
    ensures answer { let words = words_bytes given.now.words.now in
        let failed = Rose (F.faults files.old) (F.faults files.new) in
        (read : Option ProofRead) × IsProofMet (files_of given.now) read
        × AnswersBytes command words (cache_of given.now) read (files_of given.now)
        (IfEither (command_proof words command) (command_cache words command) failed) result
        (change_of O.written O.puts O.faults out.old out.new) (change_of E.written E.puts E.faults err.old err.new)
        (F.held files.old) (F.held files.new) }
    ensures begun { IfReports command (cache_of given.now) (λ infer manner.
        AreBegun infer manner (zip (words_at (words_bytes given.now.words.now) (checked_indexes command)) (files_of given.now))
        (O.written out.old) (O.written out.new)) }
    ensures linked { IfLinked command (λ linked. NothingOr (O.written out.old) (O.written out.new)
        (SomeLinkedBegun (words_at (words_bytes given.now.words.now) (linked_files linked)) (files_of given.now)
        (O.written out.old) (O.written out.new))) }
    ensures asked { Asks (bytes_asked command (cache_of given.now) (files_of given.now)) result
        (D.asked finder.old) (D.asked finder.new) }
    ensures spelled { NothingOr (O.written out.old) (O.written out.new) (IfUnit command (λ _. AreSpelled (file_at (files_of given.now) 0))) }
    ensures known { IfOk result (λ status. Knows command (cache_of given.now) (files_of given.now) status) }
    ensures honest { let words = words_bytes given.now.words.now in
        HonestWhereHonest (command_cache words command) (command_proof words command)
        (cache_entries (cache_of given.now)) (F.held files.old) (F.held files.new) }
{
    let words = given.words;
    match command {
        Command::Unit(file) => {
            let name = word_at(words, file).as_bytes();
            answer_unit_file(alloc, name, &given.read[0], out, err, finder)
        }
        Command::List(file) => {
            let name = word_at(words, file).as_bytes();
            answer_list(alloc, name, &given.read[0], out, err)
        }
        Command::Il(file, method) => {
            let (name, method) = names_at(words, file, method);
            answer_il(alloc, name, method, &given.read[0], out, err)
        }
        Command::Check(check) => answer_check(alloc, check, given, files, out, err, finder),
        Command::Linked(linked) => answer_linked(alloc, linked, given, files, out, err, finder),
        Command::Verify { file, proof } => {
            let (name, by) = names_at(words, file, proof);
            answer_verify(
                alloc,
                name,
                &given.read[0],
                by,
                &given.read[1],
                out,
                err,
                finder,
            )
        }
        Command::Run(run) => answer_run_words(alloc, run, words, &given.read[0], out, err),
        Command::Refute { file, method, runs } => {
            let (name, method) = names_at(words, file, method);
            answer_refute(alloc, name, method, runs, &given.read[0], out, err)
        }
        Command::Gen(seed, count) => answer_gen(alloc, seed, count, out, finder),
    }
}

/// Answers a command of these words.
fn answer_command<F: Files, O: Sink, E: Sink, D: Finder>(
    alloc: Global,
    command: Command,
    words: &[String],
    files: &mut F,
    out: &mut O,
    err: &mut E,
    finder: &mut D,
) -> Result<u8, Interrupt>
    requires inside { All (λ index. index < length words.now) (used_indexes command) }
    requires arguments { IfRun command (λ run. HasArguments run (words_bytes words.now)) }
    requires few { IfGen command (λ seed count. count ≤ 10000) }
    ensures answer { let given = words_bytes words.now in
        let names = words_at given (file_indexes command) in
        let cache = command_cache given command in
        let failed = Rose (F.faults files.old) (F.faults files.new) in
        (met : CallMet) × IsMet (F.held files.old) names cache met
        × GivesOrFails (files_answer command given met) (names ++ option_to_list cache) failed
        (IfEither (command_proof given command) cache failed) result
        (change_of O.written O.puts O.faults out.old out.new) (change_of E.written E.puts E.faults err.old err.new)
        × AnswerAsks (files_asked command given met) result (D.asked finder.old) (D.asked finder.new)
        × AnswerLeaves (files_left command given met) (files_answer command given met).out result
        (change_of O.written O.puts O.faults out.old out.new) (F.held files.old) (F.held files.new)
        × AnswerKnows command given met result
        × HonestWhereHonest cache (command_proof given command) (cache_entries met.cache) (F.held files.old) (F.held files.new) }
    ensures missing { IfOk result (λ status. status ≡ 3 → Rose (F.missed files.old) (F.missed files.new)) }
    ensures memory { IfOk result (λ status. status ≢ 7) }
    ensures begun { AreHeldBegun (F.held files.old) (words_bytes words.now) command (O.written out.old) (O.written out.new) }
    ensures linked { IfLinked command (λ linked.
        AreLinkedBegun (F.held files.old) (words_at (words_bytes words.now) (linked_files linked)) (O.written out.old) (O.written out.new)) }
    ensures spelled { NothingOr (O.written out.old) (O.written out.new)
        (IfUnit command (λ file. IsHeldSpelled (F.held files.old) (word_at (words_bytes words.now) file))) }
{
    let indexes = command.files(alloc)?;
    match read_inputs(alloc, command, words, &indexes, files) {
        Ok(inputs) => {
            let given = CallFiles {
                words,
                indexes: &indexes,
                read: &inputs.files,
                cache: &inputs.cache,
            };
            answer_bytes(alloc, command, &given, files, out, err, finder)
        }
        Err(Unread::Missing(file)) => answer_missing(alloc, word_at(words, file).as_bytes(), err),
        Err(Unread::Failed(file)) => answer_unread(alloc, word_at(words, file).as_bytes(), err),
        Err(Unread::NoMemory) => Err(Interrupt::NoMemory),
    }
}

/// Answers the words.
fn answer_words<F: Files, O: Sink, E: Sink, D: Finder>(
    alloc: Global,
    words: &[String],
    files: &mut F,
    out: &mut O,
    err: &mut E,
    finder: &mut D,
) -> Result<u8, Interrupt>
    ensures answer { let given = words_bytes words.now in
        let failed = Rose (F.faults files.old) (F.faults files.new) in
        (met : CallMet) × IsMet (F.held files.old) (file_names given) (cache_name given) met
        × GivesOrFails (expected given met) (read_names given) failed (IfEither (proof_name given) (cache_name given) failed) result
        (change_of O.written O.puts O.faults out.old out.new) (change_of E.written E.puts E.faults err.old err.new)
        × AnswerAsks (asked_by given met) result (D.asked finder.old) (D.asked finder.new)
        × AnswerLeaves (left_by given met) (expected given met).out result
        (change_of O.written O.puts O.faults out.old out.new) (F.held files.old) (F.held files.new)
        × WordsKnow given met result
        × HonestWhereHonest (cache_name given) (proof_name given) (cache_entries met.cache) (F.held files.old) (F.held files.new) }
    ensures missing { IfOk result (λ status. status ≡ 3 → Rose (F.missed files.old) (F.missed files.new)) }
    ensures memory { IfOk result (λ status. status ≢ 7) }
    ensures usage { command_of (words_bytes words.now) ≡ None → IfOk result (λ status. status ≡ 2) }
    ensures begun { let given = words_bytes words.now in
        IfSome (command_of given) (λ command.
        AreHeldBegun (F.held files.old) given command (O.written out.old) (O.written out.new)) }
    ensures linked { let given = words_bytes words.now in
        IfSome (command_of given) (λ command. IfLinked command (λ linked.
        AreLinkedBegun (F.held files.old) (words_at given (linked_files linked)) (O.written out.old) (O.written out.new))) }
    ensures spelled { let given = words_bytes words.now in
        NothingOr (O.written out.old) (O.written out.new)
        (IfSome (command_of given) (λ command. IfUnit command (λ file. IsHeldSpelled (F.held files.old) (word_at given file)))) }
{
    match parse_words(words) {
        None => answer_error(alloc, 2, USAGE, err),
        Some(command) => answer_command(alloc, command, words, files, out, err, finder),
    }
}

/// Tries to put a line once. What refuses it changes nothing further.
fn try_line<E: Sink>(alloc: Global, line: &[u8], err: &mut E)
    ensures prefix { AppendsPrefix (E.written err.old) (E.written err.new) line.now }
    ensures kept { Kept (E.faults err.old) (E.faults err.new) }
{
    let _ = err.put(alloc, line);
}

/// Ends a call that was answered so: the status. Of an interruption the line is tried.
fn finish<E: Sink>(alloc: Global, answered: Result<u8, Interrupt>, err: &mut E) -> u8
    ensures status { result ≡ status_of answered }
    ensures prefix { AppendsPrefix (E.written err.old) (E.written err.new) (last_line answered) }
    ensures puts { IfOk answered (λ _. E.puts err.new ≡ E.puts err.old) }
    ensures kept { Kept (E.faults err.old) (E.faults err.new) }
{
    match answered {
        Ok(status) => status,
        Err(Interrupt::CannotWrite) => {
            try_line(alloc, UNWRITTEN, err);
            6
        }
        Err(Interrupt::NoMemory) => {
            try_line(alloc, NO_MEMORY, err);
            7
        }
    }
}

/// The program: answers the words, writes to the two sinks and gives the status. The finder is asked for an invariant
/// of each unit that is judged, of equal units once, and of none that the cache has.
///
/// Statuses 4, 6 and 7 end a call early: a device refused a read, a sink or a file that is to be left refused, memory
/// ran out.
pub fn run_words<F: Files, O: Sink, E: Sink, D: Finder>(
    alloc: Global,
    words: &[String],
    files: &mut F,
    out: &mut O,
    err: &mut E,
    finder: &mut D,
) -> u8
    // What is written, the status, what the finder is asked for, and the files after it: those that are expected for
    // the words and for what is held under the names of their files and of their cache (where that is not told, for
    // something under each), and for what a proof file is read as. A status that is expected of none but a call whose
    // memory ran out tells that the proof file was not read.
    ensures output { let given = words_bytes words.now in
        let failed = Rose (F.faults files.old) (F.faults files.new) in
        (met : CallMet) × IsMet (F.held files.old) (file_names given) (cache_name given) met
        × Leaves (expected given met) (read_names given) failed result
        (change_of O.written O.puts O.faults out.old out.new) (change_of E.written E.puts E.faults err.old err.new)
        × LeavesAsked (asked_by given met) result (D.asked finder.old) (D.asked finder.new)
        × LeavesFiles (left_by given met) (expected given met).out result
        (change_of O.written O.puts O.faults out.old out.new) (F.held files.old) (F.held files.new) }
    // Words that name neither a cache nor a proof file to be left change no file.
    ensures files { cache_name (words_bytes words.now) ≡ None → proof_name (words_bytes words.now) ≡ None
        → F.held files.new ≡ F.held files.old }
    // With a cache that is honest, missing or refused a check gives the reports and the status that it gives without
    // one.
    ensures cache { (held : Held) (other : List (List ℕ)) → F.held files.old ≡ Some held
        → AsksWithoutCache (words_bytes words.now) other → IsCacheHonest (cache_name (words_bytes words.now)) held
        → result ≢ 4 → result ≢ 6 → result ≢ 7
        → WritesAs (expected other (met_of held (file_names other))) result
        (change_of O.written O.puts O.faults out.old out.new) }
    // So does a check of linked files.
    ensures linked_cache { (held : Held) (other : List (List ℕ)) → F.held files.old ≡ Some held
        → LinksWithoutCache (words_bytes words.now) other → IsCacheHonest (cache_name (words_bytes words.now)) held
        → result ≢ 4 → result ≢ 6 → result ≢ 7
        → WritesAs (expected other (met_of held (file_names other))) result
        (change_of O.written O.puts O.faults out.old out.new) }
    // It leaves an honest cache, or the files as they were, whatever the status.
    ensures kept_honest { (held after : Held) → F.held files.old ≡ Some held → F.held files.new ≡ Some after
        → IsCacheHonest (cache_name (words_bytes words.now)) held
        → IsCacheHonest (cache_name (words_bytes words.now)) after }
    // By the proof file that a check of one file has left, `verify` confirms it: it gives the report of that without
    // the lines of invariants, and its status, unless memory runs out.
    ensures confirmed { (held after : Held) (other : List (List ℕ)) (met : CallMet) → F.held files.old ≡ Some held
        → F.held files.new ≡ Some after → (asks : AsksToConfirm (words_bytes words.now) other held)
        → IsMet (Some after) (file_names other) None met → result ≤ 1 → (expected other met).status ≢ 7
        → expected other met
        ≡ output_answer result (plain_report (words_bytes words.now) held (word_at (words_bytes words.now) asks.file) asks.bytes) }
    // Where the report of an assembly has told each method that one reaches by calls to be proved, no run of that one
    // in its world, which begins with its own unit, is ever at a fault, whatever the status and however far the report
    // came.
    ensures headline { (held : Held) (k : ℕ) (bytes text : List ℕ) (method : MethodRow) → F.held files.old ≡ Some held
        → IsAssemblyOf (words_bytes words.now) held k bytes → WasAppended (O.written out.old) (O.written out.new) text
        → Contains (methods_of bytes) method → TellAllProved (section k text) bytes method
        → BeginsItsWorld bytes method × Safe (world_of bytes method.token.0) 0 }
    // Nor does a frame of such a run change an array that it was not passed, until it is gone, and what it returns is
    // what its callers know of it.
    ensures keeps { (held : Held) (k : ℕ) (bytes text : List ℕ) (method : MethodRow) → F.held files.old ≡ Some held
        → IsAssemblyOf (words_bytes words.now) held k bytes → WasAppended (O.written out.old) (O.written out.new) text
        → Contains (methods_of bytes) method → TellAllProved (section k text) bytes method
        → RunsKeepArrays (world_of bytes method.token.0) }
    // Where the report was made with what is inferred of each method, that holds because the method is safe with it:
    // its world with what is inferred is safe, and has the same runs until a fault. It is inferred from what is held
    // under the name of the cache, or else from what the finder answers.
    ensures inferred { (held : Held) (k : ℕ) (bytes text : List ℕ) (method : MethodRow) → F.held files.old ≡ Some held
        → IsAssemblyOf (words_bytes words.now) held k bytes → WasAppended (O.written out.old) (O.written out.new) text
        → Contains (methods_of bytes) method → TellAllProved (section k text) bytes method
        → infers (command_of (words_bytes words.now)) ≡ true
        → IsSafeInferred (pick_from (source_held (words_bytes words.now) held)) bytes method.token.0 }
    // Where the reports of linked files have told each method that one reaches by calls, also by those of other files,
    // to be proved, each in the report of its own file, no run of that one in its world over the files, which begins
    // with its own unit, is ever at a fault, whatever the status and however far the reports came.
    ensures linked { (held : Held) (all : List (List ℕ)) (k : ℕ) (bytes text : List ℕ) (method : MethodRow) → F.held files.old ≡ Some held
        → AreLinkedOf (words_bytes words.now) held all → WasAppended (O.written out.old) (O.written out.new) text
        → slice_get all k ≡ Some bytes → Contains (methods_of bytes) method → TellLinkedProved text all k method
        → BeginsLinkedWorld all k method × Safe (linked_world all (key_at k method.token.0)) 0 }
    // Nor does a frame of such a run change an array that it was not passed, until it is gone, and what it returns is
    // what its callers know of it.
    ensures linked_keeps { (held : Held) (all : List (List ℕ)) (k : ℕ) (bytes text : List ℕ) (method : MethodRow) → F.held files.old ≡ Some held
        → AreLinkedOf (words_bytes words.now) held all → WasAppended (O.written out.old) (O.written out.new) text
        → slice_get all k ≡ Some bytes → Contains (methods_of bytes) method → TellLinkedProved text all k method
        → RunsKeepArrays (linked_world all (key_at k method.token.0)) }
    // A file that was told to be that of a proved unit is the spelling of a safe one, whatever the status.
    ensures single_unit { (held : Held) (bytes signature : List ℕ) → F.held files.old ≡ Some held
        → AsksForUnit (words_bytes words.now) held bytes
        → PrintsProvedUnit (O.written out.old) (O.written out.new) signature → SpellSafeUnit bytes signature }
    // A method of which arguments were told that end in a fault is not safe in its world, whatever the status.
    ensures refuted { (held : Held) (bytes : List ℕ) (token : Token) → F.held files.old ≡ Some held
        → AsksToRefute (words_bytes words.now) held bytes token → PrintsRefuted (O.written out.old) (O.written out.new)
        → Safe (world_of bytes token.0) 0 → ⊥ }
    // The unit of a method of an assembly that the assembly's report has told to be proved is safe, where the report
    // was made of the methods as they are written.
    ensures checked { (held : Held) (k : ℕ) (bytes text : List ℕ) (method : MethodRow) → F.held files.old ≡ Some held
        → IsAssemblyOf (words_bytes words.now) held k bytes → WasAppended (O.written out.old) (O.written out.new) text
        → Contains (methods_of bytes) method → HasProvedLine (section k text) method
        → infers (command_of (words_bytes words.now)) ≡ false → IsSafeMethod bytes method }
    // Where it was made with what is inferred, that unit is safe with this.
    ensures checked_inferred { (held : Held) (k : ℕ) (bytes text : List ℕ) (method : MethodRow) → F.held files.old ≡ Some held
        → IsAssemblyOf (words_bytes words.now) held k bytes → WasAppended (O.written out.old) (O.written out.new) text
        → Contains (methods_of bytes) method → HasProvedLine (section k text) method
        → infers (command_of (words_bytes words.now)) ≡ true
        → IsSafeWithInferred (pick_from (source_held (words_bytes words.now) held)) bytes method }

    // Status 3 comes only where a read of this call was told that there is no such file.
    ensures missing_cause { result ≡ 3 → Rose (F.missed files.old) (F.missed files.new) }
    // Status 4 comes only where a read of this call was refused.
    ensures unread_cause { result ≡ 4 → Rose (F.faults files.old) (F.faults files.new) }
    // Status 6 comes only where a write of this call was refused: of a file that it names to be written, or of a line.
    ensures unwritten_cause { result ≡ 6 →
        IfEither (proof_name (words_bytes words.now)) (cache_name (words_bytes words.now)) (Rose (F.faults files.old) (F.faults files.new))
        ⊎ (Rose (O.faults out.old) (O.faults out.new) ⊎ Rose (E.faults err.old) (E.faults err.new)) }
    // Status 2 comes only where the words are no command.
    ensures usage { result ≡ 2 → command_of (words_bytes words.now) ≡ None }
    // Words that are no command are told so, unless that line is interrupted.
    ensures no_command { command_of (words_bytes words.now) ≡ None → (result ≡ 2) ⊎ ((result ≡ 6) ⊎ (result ≡ 7)) }
{
    let answered = answer_words(alloc, words, files, out, err, finder);
    finish(alloc, answered, err)
}
