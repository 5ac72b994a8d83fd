//! The words that the program is given.
//!
//! Words that are arguments of no form are no command, whatever the method is. Whether an argument is one for its
//! parameter is asked when the method is known. `--steps` and `--runs` count where they are the last word but one;
//! anywhere else they are no argument, and the words are no command.

ghost use Rattle.std.specs.Prelude.{◌≡◌, [], ◌∷◌, ◌+◌, ◌<◌, ◌≤◌, ◌^◌, All, IfOk, IfSome, IsTrue, length, string_bytes};
ghost use Rattle.std.specs.List.{list_all};
ghost use Rattle.command_words.specs.Words.{HasArguments, IfGen, IfRun, args_end, at_least_one, cache_index, check_command, command_of, command_of_three, command_of_two, file_indexes, gen_command, il_command, is_name_word, names_run, other_command, proof_index, refute_command, run_args, run_command, run_steps, runs_told, tells_steps, used_indexes, verify_command, word_at, words_bytes};
ghost use Rattle.run_arguments.specs.Arguments as arguments;
ghost use Rattle.run_arguments.specs.Numbers.{number_of_word};

use crate::check_words::{CheckWords, count_refs, read_check};
use crate::linked_words::{LinkedWords, read_linked};
use crate::names::is_name_word;
use run_arguments::{is_argument, read_number};
use std::alloc::{AllocError, Global};

/// What the program is asked for. Files and methods are told by the indexes of the words that name them,
/// counted from 0.
#[derive(Clone, Copy, Debug, PartialEq, Eq)]
pub enum Command {
    /// The report of the unit in a file.
    Unit(u32),
    /// The methods of the assembly in a file.
    List(u32),
    /// The instructions of a method: the file of its assembly, then the method.
    Il(u32, u32),
    /// The reports of the assemblies in files, with the invariants of their methods and the Ensures that returns show or
    /// without, and with a cache and a proof file that is written or without them.
    Check(CheckWords),
    /// The same of assemblies that are linked with each other, with references among them.
    Linked(LinkedWords),
    /// The report of an assembly by the invariants of a proof file.
    Verify {
        /// The index of the word that names the file of the assembly.
        file: u32,
        /// The index of the word that names the proof file.
        proof: u32,
    },
    /// A run of a method.
    Run(RunWords),
    /// A search for arguments with which a run of a method ends in a fault.
    Refute {
        /// The index of the word that names the file of the assembly.
        file: u32,
        /// The index of the word that names the method.
        method: u32,
        /// The number of runs that may be tried, 1 to 10,000.
        runs: u32,
    },
    /// The summary of the report of an assembly that is generated: its seed, then the number of its methods.
    Gen(u32, u32),
}

/// The words of a run, and the number of steps that it may take.
#[derive(Clone, Copy, Debug, PartialEq, Eq)]
pub struct RunWords {
    /// The index of the word that names the file of the assembly.
    pub file: u32,
    /// The index of the word that names the method.
    pub method: u32,
    /// Where the arguments end, which begin after the method.
    pub args_end: u32,
    /// The number of steps that the run may take.
    pub steps: u32,
}

/// One index alone.
fn only(alloc: Global, index: u32) -> Result<Vec<u32>, AllocError>
    ensures { IfOk result (λ indexes. indexes.items ≡ index ∷ []) }
{
    let mut indexes = Vec::new(alloc);
    indexes.push(index)?;
    Ok(indexes)
}

/// Two indexes.
fn both(alloc: Global, first: u32, second: u32) -> Result<Vec<u32>, AllocError>
    ensures { IfOk result (λ indexes. indexes.items ≡ first ∷ second ∷ []) }
{
    let mut indexes = only(alloc, first)?;
    indexes.push(second)?;
    Ok(indexes)
}

impl Command {
    /// The indexes of the words that name its files, in the order in which the files are read.
    pub fn files(&self, alloc: Global) -> Result<Vec<u32>, AllocError>
        ensures { IfOk result (λ files. files.items ≡ file_indexes self.now) }
    {
        match self {
            Command::Unit(file)
            | Command::List(file)
            | Command::Il(file, _)
            | Command::Run(RunWords { file, .. })
            | Command::Refute { file, .. } => only(alloc, *file),
            Command::Verify { file, proof } => both(alloc, *file, *proof),
            Command::Check(words) => words.files(alloc),
            Command::Linked(words) => words.files(alloc),
            Command::Gen(_, _) => Ok(Vec::new(alloc)),
        }
    }

    /// The index of the word that names its cache, if it has one. That file may be missing.
    pub fn cache(&self) -> Option<u32>
        ensures { result ≡ cache_index self.now }
    {
        match self {
            Command::Check(words) => words.cache,
            Command::Linked(words) => words.check.cache,
            _ => None,
        }
    }

    /// The index of the word that names the proof file that it writes, if it writes one.
    pub fn proof(&self) -> Option<u32>
        ensures { result ≡ proof_index self.now }
    {
        match self {
            Command::Check(words) => words.proof,
            Command::Linked(words) => words.check.proof,
            _ => None,
        }
    }
}

/// The command of two words.
fn command_of_two(word: &str, file: &str) -> Option<Command>
    ensures inside { IfSome result (λ command. All (λ index. index < 2) (used_indexes command)) }
    ensures command { result ≡ command_of_two word.now file.now }
{
    if !is_name_word(file) {
        return None;
    }
    match word {
        "unit" => Some(Command::Unit(1)),
        "list" => Some(Command::List(1)),
        _ => None,
    }
}

/// The command that shows the instructions of a method, where the words may name a file and a method.
fn il_command(file: &str, method: &str) -> Option<Command>
    ensures inside { IfSome result (λ command. All (λ index. index < 3) (used_indexes command)) }
    ensures no_run { IfSome result (λ command. IfRun command (λ run. ⊥)) }
    ensures command { result ≡ il_command file.now method.now }
{
    if is_name_word(file) && is_name_word(method) {
        return Some(Command::Il(1, 2));
    }
    None
}

/// The command that reports on an assembly by a proof file, where the words may name files.
fn verify_command(file: &str, proof: &str) -> Option<Command>
    ensures inside { IfSome result (λ command. All (λ index. index < 3) (used_indexes command)) }
    ensures no_run { IfSome result (λ command. IfRun command (λ run. ⊥)) }
    ensures command { result ≡ verify_command file.now proof.now }
{
    if is_name_word(file) && is_name_word(proof) {
        return Some(Command::Verify { file: 1, proof: 2 });
    }
    None
}

/// The greatest seed that the words may give.
const MAX_SEED: u32 = 4_294_967_295;

/// The most methods that the words may ask for.
const MAX_METHODS: u32 = 10_000;

/// The command that generates an assembly, where the words tell a seed and a number of methods, of which there is
/// at least one.
fn gen_command(seed: &str, count: &str) -> Option<Command>
    ensures no_run { IfSome result (λ command. IfRun command (λ run. ⊥)) }
    ensures command { result ≡ gen_command seed.now count.now }
    ensures few { IfSome result (λ command. IfGen command (λ seed count. count ≤ 10000)) }
{
    let seed = read_number(seed, MAX_SEED)?;
    let count = read_number(count, MAX_METHODS)?;
    if count == 0 {
        return None;
    }
    Some(Command::Gen(seed, count))
}

/// The command of three words.
#[tactic(auto, unfolding(crate::specs::Words::command_of_three))]
fn command_of_three(word: &str, first: &str, second: &str) -> Option<Command>
    ensures inside { IfSome result (λ command. All (λ index. index < 3) (used_indexes command)) }
    ensures no_run { IfSome result (λ command. IfRun command (λ run. ⊥)) }
    ensures few { IfSome result (λ command. IfGen command (λ seed count. count ≤ 10000)) }
    ensures command { result ≡ command_of_three word.now first.now second.now }
{
    match word {
        "il" => il_command(first, second),
        "gen" => gen_command(first, second),
        "verify" => verify_command(first, second),
        _ => None,
    }
}

/// The number of steps that a run may take where the words give none.
const STEPS: u32 = 1_000_000;

/// The greatest number of steps that the words of a run may give.
const MAX_STEPS: u32 = 1_000_000_000;

/// Returns whether the last word but one, after `run FILE METHOD`, is `--steps`.
fn tells_steps(words: &[String]) -> bool
    ensures told { result ≡ tells_steps (words_bytes words.now) }
    ensures long { IsTrue result → 5 ≤ length words.now }
{
    words.len() >= 5 && words[words.len() - 2].as_str() == "--steps"
}

/// Returns how many steps the words of a run allow, none where what stands after `--steps` tells no number.
fn run_steps(words: &[String]) -> Option<u32>
    requires { 3 ≤ length words.now }
    ensures { result ≡ run_steps (words_bytes words.now) }
{
    if tells_steps(words) {
        read_number(words[words.len() - 1].as_str(), MAX_STEPS)
    } else {
        Some(STEPS)
    }
}

/// The words of the arguments of a run.
#[tactic(auto, using(crate::proofs::RunWordLemmas::args_between))]
fn run_args(words: &[String]) -> &[String]
    requires { 3 ≤ length words.now }
    ensures args { words_bytes result.now ≡ run_args (words_bytes words.now) }
    ensures end { 3 + length result.now ≡ args_end (words_bytes words.now) }
{
    if tells_steps(words) {
        &words[3..words.len() - 2]
    } else {
        &words[3..]
    }
}

/// Returns whether a word is an argument.
fn is_argument_word(word: &String) -> bool
    ensures { result ≡ arguments.is_argument (string_bytes word.now) }
{
    is_argument(word.as_str())
}

/// Returns whether each word is an argument.
fn are_arguments(words: &[String]) -> bool
    ensures { result ≡ list_all (λ word. arguments.is_argument (string_bytes word)) words.now }
{
    words.iter().all(is_argument_word)
}

/// Returns whether what stands for the arguments of a run are arguments.
fn has_arguments(words: &[String]) -> bool
    requires { 3 ≤ length words.now }
    ensures { result ≡ list_all arguments.is_argument (run_args (words_bytes words.now)) }
{
    are_arguments(run_args(words))
}

/// Returns whether the words name a file, a method and arguments.
fn names_run(words: &[String]) -> bool
    requires { 3 ≤ length words.now }
    ensures named { result ≡ names_run (words_bytes words.now) }
    ensures few { IsTrue result → length words.now < 2 ^ 32 }
{
    words.len() <= u32::MAX as usize
        && is_name_word(words[1].as_str())
        && is_name_word(words[2].as_str())
        && has_arguments(words)
}

/// The command of the words of a run.
#[tactic(auto, unfolding(crate::specs::Words::run_command))]
fn run_command(words: &[String]) -> Option<Command>
    requires { 3 ≤ length words.now }
    ensures inside { IfSome result (λ command. All (λ index. index < length words.now) (used_indexes command)) }
    ensures arguments { IfSome result (λ command. IfRun command (λ run. HasArguments run (words_bytes words.now))) }
    ensures few { IfSome result (λ command. IfGen command (λ seed count. count ≤ 10000)) }
    ensures command { result ≡ run_command (words_bytes words.now) }
{
    if !names_run(words) {
        return None;
    }
    let steps = run_steps(words)?;
    Some(Command::Run(RunWords {
        file: 1,
        method: 2,
        args_end: 3 + run_args(words).len() as u32,
        steps,
    }))
}

/// The number of runs that a search may try where the words give none.
const RUNS: u32 = 1_000;

/// The greatest number of runs that the words of a search may give.
const MAX_RUNS: u32 = 10_000;

/// The number of runs that a word allows, of which there is at least one.
fn read_runs(word: &str) -> Option<u32>
    ensures { result ≡ at_least_one (number_of_word 10000 word.now) }
{
    let runs = read_number(word, MAX_RUNS)?;
    if runs == 0 {
        return None;
    }
    Some(runs)
}

/// Returns how many runs the words after the method allow a search, none where they are neither no words nor `--runs`
/// and a number.
fn runs_told(options: &[String]) -> Option<u32>
    ensures { result ≡ runs_told (words_bytes options.now) }
{
    match options {
        [] => Some(RUNS),
        [option, number] if option.as_str() == "--runs" => read_runs(number.as_str()),
        _ => None,
    }
}

/// The command that searches for arguments of a method that end in a fault, where the words may name a file and a
/// method and the others allow a number of runs.
fn refute_command(file: &str, method: &str, options: &[String]) -> Option<Command>
    ensures inside { IfSome result (λ command. All (λ index. index < 3) (used_indexes command)) }
    ensures no_run { IfSome result (λ command. IfRun command (λ run. ⊥)) }
    ensures few { IfSome result (λ command. IfGen command (λ seed count. count ≤ 10000)) }
    ensures command { result ≡ refute_command file.now method.now (words_bytes options.now) }
{
    if !is_name_word(file) || !is_name_word(method) {
        return None;
    }
    let runs = runs_told(options)?;
    Some(Command::Refute {
        file: 1,
        method: 2,
        runs,
    })
}

/// The command that reports on the assemblies in files, where these words stand after `check`.
fn check_command(words: &[String]) -> Option<Command>
    ensures inside { IfSome result (λ command. All (λ index. index < length words.now + 1) (used_indexes command)) }
    ensures no_run { IfSome result (λ command. IfRun command (λ run. ⊥)) }
    ensures few { IfSome result (λ command. IfGen command (λ seed count. count ≤ 10000)) }
    ensures command { result ≡ check_command (words_bytes words.now) }
{
    if count_refs(words) == 0 {
        Some(Command::Check(read_check(words)?))
    } else {
        Some(Command::Linked(read_linked(words)?))
    }
}

/// The command of words of which the first is not `check`, if they are one.
fn other_command(words: &[String]) -> Option<Command>
    ensures inside { IfSome result (λ command. All (λ index. index < length words.now) (used_indexes command)) }
    ensures arguments { IfSome result (λ command. IfRun command (λ run. HasArguments run (words_bytes words.now))) }
    ensures few { IfSome result (λ command. IfGen command (λ seed count. count ≤ 10000)) }
    ensures command { result ≡ other_command (words_bytes words.now) }
{
    match words {
        [word, file] => command_of_two(word.as_str(), file.as_str()),
        [word, _, _, ..] if word.as_str() == "run" => run_command(words),
        [word, file, method, options @ ..] if word.as_str() == "refute" => {
            refute_command(file.as_str(), method.as_str(), options)
        }
        [word, first, second] => command_of_three(word.as_str(), first.as_str(), second.as_str()),
        _ => None,
    }
}

/// The command that the words are, if they are one.
pub fn parse_words(words: &[String]) -> Option<Command>
    ensures inside { IfSome result (λ command. All (λ index. index < length words.now) (used_indexes command)) }
    ensures arguments { IfSome result (λ command. IfRun command (λ run. HasArguments run (words_bytes words.now))) }
    ensures few { IfSome result (λ command. IfGen command (λ seed count. count ≤ 10000)) }
    ensures command { result ≡ command_of (words_bytes words.now) }
{
    match words {
        [] => None,
        [word, others @ ..] if word.as_str() == "check" => check_command(others),
        _ => other_command(words),
    }
}

/// The word at an index.
pub fn word_at(words: &[String], index: u32) -> &str
    requires { index < length words.now }
    ensures { result.now ≡ word_at (words_bytes words.now) index }
{
    words[index as usize].as_str()
}
