//! The words of a check.

ghost use Rattle.std.specs.Prelude.{◌≡◌, ◌+◌, ◌*◌, ◌<◌, ◌≤◌, ◌++◌, All, IfOk, IfSome, IsTrue, Some, count_by, is_some, length, option_to_list, position, string_bytes};
ghost use Rattle.std.specs.List.{list_all};
ghost use Rattle.std.specs.Str.{bytes_eq};
ghost use Rattle.command_words.specs.Words.{are_check_words, are_few, are_refs_named, cache_place, check_files, check_words, infers_alone, is_cache, is_check_word, is_infer, is_name_word, is_own_name, is_proof, is_ref, is_show, names_file, proof_place, tells_name, tells_option, word_index, word_at, words_bytes};

use crate::names::is_name_word;
use std::alloc::{AllocError, Global};

/// The words of a check: `check`, and then its files, perhaps `--show`, perhaps `--infer`, perhaps `--cache` and the
/// name of a cache, and perhaps `--proof` and the name of a proof file, in any order, but not `--infer` with `--proof`.
/// All other words name files, or tell references (`LinkedWords`).
#[derive(Clone, Copy, Debug, PartialEq, Eq)]
pub struct CheckWords {
    /// The number of all words, with `check` and what is no file: at most 102.
    pub count: u32,
    /// The index of `--show`, where it is among them.
    pub show: Option<u32>,
    /// The index of `--infer`, where it is among them.
    pub infer: Option<u32>,
    /// The index of the name of the cache, right after `--cache`, where that is among them.
    pub cache: Option<u32>,
    /// The index of the name of the proof file that is written, right after `--proof`, where that is among them.
    pub proof: Option<u32>,
}

impl CheckWords {
    /// Returns whether the reports show the invariants.
    pub fn shows(&self) -> bool
        ensures { result ≡ is_some self.now.show }
    {
        self.show.is_some()
    }

    /// Returns whether methods get the Ensures that their returns show.
    pub fn infers(&self) -> bool
        ensures { result ≡ is_some self.now.infer }
    {
        self.infer.is_some()
    }

    /// Returns whether the word at an index, which is not that of `check`, names a file.
    fn names_file(&self, index: u32) -> bool
        ensures { result ≡ names_file self.now index }
    {
        !tells_option(self.show, index)
            && !tells_option(self.infer, index)
            && !tells_name(self.cache, index)
            && !tells_name(self.proof, index)
    }

    /// The indexes of the words that name files, in their order, where none tells a reference.
    pub fn files(&self, alloc: Global) -> Result<Vec<u32>, AllocError>
        ensures { IfOk result (λ files. files.items ≡ check_files self.now) }
    {
        (1..self.count)
            .filter(|index| self.names_file(*index))
            .collect(alloc)
    }
}

/// Returns whether the word at an index is the option at another.
fn tells_option(option: Option<u32>, index: u32) -> bool
    ensures { result ≡ tells_option option index }
{
    match option {
        Some(option) => index == option,
        None => false,
    }
}

/// Returns whether the word at an index is the name at another, or the option before that.
pub(crate) fn tells_name(name: Option<u32>, index: u32) -> bool
    ensures { result ≡ tells_name name index }
{
    match name {
        Some(name) => index == name || index == name.saturating_sub(1),
        None => false,
    }
}

/// Returns whether a word asks for invariants.
fn is_show(word: &String) -> bool
    ensures { result ≡ is_show (string_bytes word.now) }
{
    word.as_str() == "--show"
}

/// Returns whether a word asks for the Ensures that returns show.
fn is_infer(word: &String) -> bool
    ensures { result ≡ is_infer (string_bytes word.now) }
{
    word.as_str() == "--infer"
}

/// Returns whether a cache is named after this word.
fn is_cache(word: &String) -> bool
    ensures { result ≡ is_cache (string_bytes word.now) }
{
    word.as_str() == "--cache"
}

/// Returns whether the proof file that is written is named after this word.
fn is_proof(word: &String) -> bool
    ensures { result ≡ is_proof (string_bytes word.now) }
{
    word.as_str() == "--proof"
}

/// Returns whether a reference is named after this word.
pub(crate) fn is_ref(word: &String) -> bool
    ensures { result ≡ is_ref (string_bytes word.now) }
{
    word.as_str() == "--ref"
}

/// Returns whether a word may name a file.
fn is_file(word: &String) -> bool
    ensures { result ≡ is_name_word (string_bytes word.now) }
{
    is_name_word(word.as_str())
}

/// Returns whether a word may stand after `check`.
fn is_check_word(word: &String) -> bool
    ensures { result ≡ is_check_word (string_bytes word.now) }
{
    is_show(word)
        || is_infer(word)
        || is_cache(word)
        || is_proof(word)
        || is_ref(word)
        || is_file(word)
}

/// Returns whether each word may stand after `check`.
fn are_each(words: &[String]) -> bool
    ensures { result ≡ list_all (λ word. is_check_word (string_bytes word)) words.now }
{
    words.iter().all(is_check_word)
}

/// The same, told of the bytes of the words.
fn may_follow(words: &[String]) -> bool
    ensures { result ≡ list_all is_check_word (words_bytes words.now) }
{
    are_each(words)
}

/// How many words ask for invariants.
#[tactic(auto, using(crate::proofs::WordBytes::told))]
fn count_shows(words: &[String]) -> usize
    ensures { result ≡ count_by is_show (words_bytes words.now) }
{
    words.iter().filter(|word| is_show(word)).count()
}

/// How many words ask for the Ensures that returns show.
#[tactic(auto, using(crate::proofs::WordBytes::told))]
fn count_infers(words: &[String]) -> usize
    ensures { result ≡ count_by is_infer (words_bytes words.now) }
{
    words.iter().filter(|word| is_infer(word)).count()
}

/// After how many words a cache is named.
#[tactic(auto, using(crate::proofs::WordBytes::told))]
fn count_caches(words: &[String]) -> usize
    ensures { result ≡ count_by is_cache (words_bytes words.now) }
{
    words.iter().filter(|word| is_cache(word)).count()
}

/// After how many words a proof file is named.
#[tactic(auto, using(crate::proofs::WordBytes::told))]
fn count_proofs(words: &[String]) -> usize
    ensures { result ≡ count_by is_proof (words_bytes words.now) }
{
    words.iter().filter(|word| is_proof(word)).count()
}

/// After how many words a reference is named.
#[tactic(auto, using(crate::proofs::WordBytes::told))]
pub(crate) fn count_refs(words: &[String]) -> usize
    ensures { result ≡ count_by is_ref (words_bytes words.now) }
{
    words.iter().filter(|word| is_ref(word)).count()
}

/// How many of these words are this one.
#[tactic(auto, using(crate::proofs::WordBytes::told))]
fn count_same(words: &[String], name: &str) -> usize
    ensures { result ≡ count_by (bytes_eq name.now) (words_bytes words.now) }
{
    words.iter().filter(|word| name == word.as_str()).count()
}

/// The place of the first word that asks for invariants.
fn first_show(words: &[String]) -> Option<usize>
    ensures value { result ≡ position (λ word. is_show (string_bytes word)) words.now }
    ensures bound { IfSome result (λ place. place < length words.now) }
{
    words.iter().position(is_show)
}

/// The same, told of the bytes of the words.
fn show_place(words: &[String]) -> Option<usize>
    ensures value { result ≡ position is_show (words_bytes words.now) }
    ensures bound { IfSome result (λ place. place ≤ length words.now) }
{
    first_show(words)
}

/// The place of the first word that asks for the Ensures that returns show.
fn first_infer(words: &[String]) -> Option<usize>
    ensures value { result ≡ position (λ word. is_infer (string_bytes word)) words.now }
    ensures bound { IfSome result (λ place. place < length words.now) }
{
    words.iter().position(is_infer)
}

/// The same, told of the bytes of the words.
fn infer_place(words: &[String]) -> Option<usize>
    ensures value { result ≡ position is_infer (words_bytes words.now) }
    ensures bound { IfSome result (λ place. place ≤ length words.now) }
{
    first_infer(words)
}

/// The place of the first word after which a cache is named.
fn first_cache(words: &[String]) -> Option<usize>
    ensures value { result ≡ position (λ word. is_cache (string_bytes word)) words.now }
    ensures bound { IfSome result (λ place. place < length words.now) }
{
    words.iter().position(is_cache)
}

/// The place of the word after that one, where the name of the cache stands.
fn cache_place(words: &[String]) -> Option<usize>
    ensures value { result ≡ cache_place (words_bytes words.now) }
    ensures bound { IfSome result (λ place. place ≤ length words.now) }
{
    let place = first_cache(words)?;
    Some(place + 1)
}

/// The place of the first word after which a proof file is named.
fn first_proof(words: &[String]) -> Option<usize>
    ensures value { result ≡ position (λ word. is_proof (string_bytes word)) words.now }
    ensures bound { IfSome result (λ place. place < length words.now) }
{
    words.iter().position(is_proof)
}

/// The place of the word after that one, where the name of the proof file stands.
fn proof_place(words: &[String]) -> Option<usize>
    ensures value { result ≡ proof_place (words_bytes words.now) }
    ensures bound { IfSome result (λ place. place ≤ length words.now) }
{
    let place = first_proof(words)?;
    Some(place + 1)
}

/// Returns whether the word at this place is a name that no other of these words is.
fn is_own_word(words: &[String], place: usize) -> bool
    ensures value { result ≡ is_own_name (words_bytes words.now) (Some place) }
    ensures there { IsTrue result → place < length words.now }
{
    match words.get(place) {
        Some(name) => is_file(name) && count_same(words, name.as_str()) == 1,
        None => false,
    }
}

/// The same, where there is a place.
fn is_own_name(words: &[String], place: Option<usize>) -> bool
    ensures value { result ≡ is_own_name (words_bytes words.now) place }
    ensures there { IsTrue result → IfSome place (λ place. place < length words.now) }
{
    match place {
        Some(place) => is_own_word(words, place),
        None => true,
    }
}

/// Returns whether the first of these words is a name.
fn begins_with_name(words: &[String]) -> bool
    ensures { result ≡ is_name_word (word_at (words_bytes words.now) 0) }
{
    match words {
        [] => false,
        [word, ..] => is_file(word),
    }
}

/// Returns whether a name stands after each word that asks for a reference.
fn are_refs_named(words: &[String]) -> bool
    ensures { result ≡ are_refs_named (words_bytes words.now) }
{
    match words {
        [] => true,
        [word, others @ ..] => {
            (!is_ref(word) || begins_with_name(others)) && are_refs_named(others)
        }
    }
}

/// The most files that a check may have, without its references.
const MAX_FILES: usize = 64;

/// The most references that it may have.
pub(crate) const MAX_REFS: usize = 16;

/// Returns whether at most one word asks for invariants and one for the Ensures that returns show, a cache and a proof
/// file are named at most once each and references at most 16 times, and 1 to 64 words name other files.
fn are_few(words: &[String]) -> bool
    ensures value { result ≡ are_few (words_bytes words.now) }
    ensures few { IsTrue result → length words.now ≤ 67 + (count_by is_infer (words_bytes words.now)
        + 2 * (count_by is_proof (words_bytes words.now) + count_by is_ref (words_bytes words.now))) }
    ensures infers { IsTrue result → count_by is_infer (words_bytes words.now) ≤ 1 }
    ensures proofs { IsTrue result → count_by is_proof (words_bytes words.now) ≤ 1 }
    ensures refs { IsTrue result → count_by is_ref (words_bytes words.now) ≤ 16 }
{
    let shows = count_shows(words);
    let infers = count_infers(words);
    let caches = count_caches(words);
    let proofs = count_proofs(words);
    let refs = count_refs(words);
    if shows > 1 || infers > 1 || caches > 1 || proofs > 1 || refs > MAX_REFS {
        return false;
    }
    let files = words
        .len()
        .saturating_sub(shows + (infers + 2 * (caches + (proofs + refs))));
    1 <= files && files <= MAX_FILES
}

/// Returns whether no word asks for the Ensures that returns show, or neither a proof file nor a reference is named.
fn infers_alone(words: &[String]) -> bool
    ensures { result ≡ infers_alone (words_bytes words.now) }
{
    count_infers(words) == 0 || (count_proofs(words) == 0 && count_refs(words) == 0)
}

/// Returns whether these words may stand after `check`.
#[tactic(auto, using(crate::proofs::InferWords::few_words))]
fn are_check_words(words: &[String]) -> bool
    ensures value { result ≡ are_check_words (words_bytes words.now) }
    ensures few { IsTrue result → length words.now ≤ 101 }
    ensures refs { IsTrue result → count_by is_ref (words_bytes words.now) ≤ 16 }
    ensures named { IsTrue result → IsTrue (are_refs_named (words_bytes words.now)) }
    ensures cache { IsTrue result → IfSome (cache_place (words_bytes words.now)) (λ place. place < length words.now) }
    ensures proof { IsTrue result → IfSome (proof_place (words_bytes words.now)) (λ place. place < length words.now) }
{
    may_follow(words)
        && are_few(words)
        && infers_alone(words)
        && are_refs_named(words)
        && is_own_name(words, cache_place(words))
        && is_own_name(words, proof_place(words))
}

/// The index, among all words, of the word at a place after `check`.
fn word_index(place: Option<usize>) -> Option<u32>
    requires { IfSome place (λ place. place ≤ 101) }
    ensures { result ≡ word_index place }
{
    match place {
        Some(place) => Some(place as u32 + 1),
        None => None,
    }
}

/// The words of a check, where these stand after `check`: 1 to 64 files, perhaps `--show`, perhaps `--cache` and a
/// name, and perhaps `--infer`, or else perhaps `--proof` and a name, and at most 16 times `--ref` and a name. No file
/// and no reference has the name of the cache or of the proof file.
#[tactic(auto, unfolding(crate::specs::Words::check_words))]
pub fn read_check(words: &[String]) -> Option<CheckWords>
    ensures inside { IfSome result (λ check. All (λ index. index < length words.now + 1) (check_files check ++ option_to_list check.cache ++ option_to_list check.proof)) }
    ensures few { IfSome result (λ _. length words.now ≤ 101) }
    ensures refs { IfSome result (λ _. count_by is_ref (words_bytes words.now) ≤ 16) }
    ensures named { IfSome result (λ _. IsTrue (are_refs_named (words_bytes words.now))) }
    ensures value { result ≡ check_words (words_bytes words.now) }
{
    if !are_check_words(words) {
        return None;
    }
    Some(CheckWords {
        count: words.len() as u32 + 1,
        show: word_index(show_place(words)),
        infer: word_index(infer_place(words)),
        cache: word_index(cache_place(words)),
        proof: word_index(proof_place(words)),
    })
}
