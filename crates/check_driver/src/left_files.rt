//! The files that a check leaves: a proof file, and a cache.
//!
//! A cache that is left has the units of its call alone, also what was held for them, and a call that refuses a file
//! leaves none: what stands in the file is then what one whole call used.

#![tactic(auto, using(cc_base::proofs::CountLemmas::counts, crate::proofs::LeftFiles::left))]

ghost use Rattle.std.specs.Prelude.{◌≡◌, ◌<◌, ◌≤◌, ◌⊎◌, true, IfOk, IfSome, IsErrOf, OnErr, OnOk, is_some, length, nat_le, option_map};
ghost use Rattle.answer_lines.specs.declared.interrupt.Interrupt.TheVariants.{CannotWrite as Unwritten, NoMemory};
ghost use Rattle.cc_base.specs.Counts.{Kept, Rose};
ghost use Rattle.cc_base.specs.Files.{ToldReplaced};
ghost use Rattle.check_driver.specs.CacheMet.{command_cache, command_proof};
ghost use Rattle.check_driver.specs.FilesLeft.{AreLeft, PrefixIsLeft, IfEither, IfNamed, left_files, left_where, named_file};
ghost use Rattle.check_driver.specs.HonestCaches.{HonestWhereHonest, KeepsHonest};
ghost use Rattle.command_words.specs.Words.{word_at, words_bytes};
ghost use Rattle.command_words.specs.declared.command.Command.TheVariants as commands;
ghost use Rattle.unit_verdicts.specs.CacheFile.{AreHonest, cache_left};
ghost use Rattle.unit_verdicts.specs.Picks.{entries_in};
ghost use Rattle.unit_verdicts.specs.ProofLeft.{IsProofLeft, proof_left};

use answer_lines::Interrupt;
use cc_base::Files;
use command_words::{CheckWords, word_at};
use std::alloc::Global;
use unit_verdicts::VerdictCache;

/// Puts these bytes into the file that the word at an index names, in place of what it held.
///
/// # Errors
///
/// Want of memory, and then nothing changed; or a device refused, before or after the file was replaced.
fn replace_file<F: Files>(
    alloc: Global,
    words: &[String],
    index: u32,
    bytes: &[u8],
    files: &mut F,
) -> Result<(), Interrupt>
    requires { index < length words.now }
    ensures ok { OnOk result (ToldReplaced (F.held files.old) (F.held files.new) (word_at (words_bytes words.now) index) bytes.now) }
    ensures err { OnErr result ((F.held files.new ≡ F.held files.old)
        ⊎ ToldReplaced (F.held files.old) (F.held files.new) (word_at (words_bytes words.now) index) bytes.now) }
    ensures cause { IsErrOf result Unwritten → Rose (F.faults files.old) (F.faults files.new) }
    ensures no_memory { IsErrOf result NoMemory → F.held files.new ≡ F.held files.old }
    ensures missed_kept { Kept (F.missed files.old) (F.missed files.new) }
    ensures faults_kept { Kept (F.faults files.old) (F.faults files.new) }
{
    files.replace(alloc, word_at(words, index), bytes)?;
    Ok(())
}

/// Leaves a proof file of the units that were judged, where the word at an index names one.
fn leave_proof<F: Files>(
    alloc: Global,
    words: &[String],
    index: Option<u32>,
    units: &VerdictCache,
    files: &mut F,
) -> Result<(), Interrupt>
    requires named { IfSome index (λ index. index < length words.now) }
    requires keeps { IfSome index (λ _. units.now.keeps ≡ true) }
    ensures ok { let name = option_map (word_at (words_bytes words.now)) index in
        OnOk result (AreLeft (named_file name (proof_left units.now.held units.now.keys)) (F.held files.old) (F.held files.new)) }
    ensures err { let name = option_map (word_at (words_bytes words.now)) index in
        OnErr result (PrefixIsLeft (named_file name (proof_left units.now.held units.now.keys)) (F.held files.old) (F.held files.new)) }
    ensures left { IfOk result (λ _. IfSome index (λ _. IsProofLeft units.now.held units.now.keys)) }
    ensures cause { IsErrOf result Unwritten →
        IfNamed (option_map (word_at (words_bytes words.now)) index) (Rose (F.faults files.old) (F.faults files.new)) }
    ensures missed_kept { Kept (F.missed files.old) (F.missed files.new) }
    ensures faults_kept { Kept (F.faults files.old) (F.faults files.new) }
{
    match index {
        Some(index) => {
            let bytes = units.proof_left(alloc)?;
            replace_file(alloc, words, index, &bytes, files)
        }
        None => Ok(()),
    }
}

/// Leaves a cache of the units that were judged, where the word at an index names one.
fn leave_cache<F: Files>(
    alloc: Global,
    words: &[String],
    index: Option<u32>,
    units: &VerdictCache,
    files: &mut F,
) -> Result<(), Interrupt>
    requires named { IfSome index (λ index. index < length words.now) }
    requires keeps { IfSome index (λ _. units.now.keeps ≡ true) }
    ensures ok { let name = option_map (word_at (words_bytes words.now)) index in
        OnOk result (AreLeft (named_file name (cache_left (entries_in units.now.held) units.now.keys)) (F.held files.old) (F.held files.new)) }
    ensures err { let name = option_map (word_at (words_bytes words.now)) index in
        OnErr result (PrefixIsLeft (named_file name (cache_left (entries_in units.now.held) units.now.keys)) (F.held files.old) (F.held files.new)) }
    ensures honest { IfSome (option_map (word_at (words_bytes words.now)) index) (λ name.
        AreHonest (entries_in units.now.held) → KeepsHonest name (F.held files.old) (F.held files.new)) }
    ensures cause { IsErrOf result Unwritten →
        IfNamed (option_map (word_at (words_bytes words.now)) index) (Rose (F.faults files.old) (F.faults files.new)) }
    ensures missed_kept { Kept (F.missed files.old) (F.missed files.new) }
    ensures faults_kept { Kept (F.faults files.old) (F.faults files.new) }
{
    match index {
        Some(index) => {
            let bytes = units.cache_left(alloc)?;
            replace_file(alloc, words, index, &bytes, files)
        }
        None => Ok(()),
    }
}

/// Leaves the proof file of a check and then its cache, where it has such. The first that is not replaced ends it.
fn leave_both<F: Files>(
    alloc: Global,
    check: CheckWords,
    words: &[String],
    units: &VerdictCache,
    files: &mut F,
) -> Result<(), Interrupt>
    requires proof { IfSome check.proof (λ index. index < length words.now) }
    requires cache { IfSome check.cache (λ index. index < length words.now) }
    requires keeps_proof { IfSome check.proof (λ _. units.now.keeps ≡ true) }
    requires keeps_cache { IfSome check.cache (λ _. units.now.keeps ≡ true) }
    ensures ok { let words = words_bytes words.now in
        OnOk result (AreLeft (left_files (command_proof words (commands.Check check)) (command_cache words (commands.Check check)) units.now.held units.now.keys)
        (F.held files.old) (F.held files.new)) }
    ensures err { let words = words_bytes words.now in
        OnErr result (PrefixIsLeft (left_files (command_proof words (commands.Check check)) (command_cache words (commands.Check check)) units.now.held units.now.keys)
        (F.held files.old) (F.held files.new)) }
    ensures left { IfOk result (λ _. IfSome check.proof (λ _. IsProofLeft units.now.held units.now.keys)) }
    ensures cause { let words = words_bytes words.now in
        IsErrOf result Unwritten → IfEither (command_proof words (commands.Check check)) (command_cache words (commands.Check check))
        (Rose (F.faults files.old) (F.faults files.new)) }
    ensures honest { let words = words_bytes words.now in
        HonestWhereHonest (command_cache words (commands.Check check)) (command_proof words (commands.Check check)) (entries_in units.now.held)
        (F.held files.old) (F.held files.new) }
    ensures missed_kept { Kept (F.missed files.old) (F.missed files.new) }
    ensures faults_kept { Kept (F.faults files.old) (F.faults files.new) }
{
    leave_proof(alloc, words, check.proof, units, files)?;
    leave_cache(alloc, words, check.cache, units, files)
}

/// The same for a check that ends with this status, unless a file was refused.
pub fn leave_files<F: Files>(
    alloc: Global,
    check: CheckWords,
    words: &[String],
    status: u8,
    units: &VerdictCache,
    files: &mut F,
) -> Result<(), Interrupt>
    requires proof { IfSome check.proof (λ index. index < length words.now) }
    requires cache { IfSome check.cache (λ index. index < length words.now) }
    requires keeps_proof { IfSome check.proof (λ _. units.now.keeps ≡ true) }
    requires keeps_cache { IfSome check.cache (λ _. units.now.keeps ≡ true) }
    ensures ok { let words = words_bytes words.now in
        OnOk result (AreLeft (left_where (nat_le status 1) (command_proof words (commands.Check check)) (command_cache words (commands.Check check)) units.now.held units.now.keys)
        (F.held files.old) (F.held files.new)) }
    ensures err { let words = words_bytes words.now in
        OnErr result (PrefixIsLeft (left_where (nat_le status 1) (command_proof words (commands.Check check)) (command_cache words (commands.Check check)) units.now.held units.now.keys)
        (F.held files.old) (F.held files.new)) }
    ensures left { IfOk result (λ _. status ≤ 1 → IfSome check.proof (λ _. IsProofLeft units.now.held units.now.keys)) }
    ensures cause { let words = words_bytes words.now in
        IsErrOf result Unwritten → IfEither (command_proof words (commands.Check check)) (command_cache words (commands.Check check))
        (Rose (F.faults files.old) (F.faults files.new)) }
    ensures honest { let words = words_bytes words.now in
        HonestWhereHonest (command_cache words (commands.Check check)) (command_proof words (commands.Check check)) (entries_in units.now.held)
        (F.held files.old) (F.held files.new) }
    ensures missed_kept { Kept (F.missed files.old) (F.missed files.new) }
    ensures faults_kept { Kept (F.faults files.old) (F.faults files.new) }
{
    if status <= 1 {
        leave_both(alloc, check, words, units, files)
    } else {
        Ok(())
    }
}
