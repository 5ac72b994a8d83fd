//! The words of a check with references.
//!
//! A check with references is a command of its own: what is promised of `check` is said of calls without references,
//! and what is promised of linked files has clauses of its own.

ghost use Rattle.std.specs.Prelude.{◌≡◌, [], ◌∷◌, ◌+◌, ◌<◌, ◌≤◌, ◌^◌, ◌++◌, All, IfOk, IfSome, List, OnOk, ℕ, count_by, filter, length, not, option_to_list};
ghost use Rattle.std.specs.List.{list_any};
ghost use Rattle.command_words.specs.Words.{MAX_REFS, check_files, is_ref, linked_files, linked_words, padded, refs_from, refs_in, tells_name, tells_ref, words_bytes};

use crate::check_words::{CheckWords, MAX_REFS, is_ref, read_check, tells_name};
use std::alloc::{AllocError, Global};

/// The words of a check with references, which are linked with its other files.
#[derive(Clone, Copy, Debug, PartialEq, Eq)]
pub struct LinkedWords {
    /// What the words tell of a check but for the references.
    pub check: CheckWords,
    /// The indexes of the names of the references, each right after `--ref`, in order. After the last there is none.
    pub refs: [Option<u32>; MAX_REFS],
}

/// Notes the references that words tell, of which the first has this index, where so many were noted before.
fn note_refs(refs: &mut [Option<u32>; MAX_REFS], count: usize, index: u32, words: &[String])
    requires room { count + count_by is_ref (words_bytes words.now) ≤ 16 }
    requires fits { index + length words.now < 2 ^ 32 }
    ensures { (before : List ℕ) → length before ≡ count → refs.old ≡ padded MAX_REFS before
        → refs.new ≡ padded MAX_REFS (before ++ refs_from index (words_bytes words.now)) }
{
    match words {
        [] => {}
        [word, others @ ..] if is_ref(word) => {
            refs[count] = Some(index + 1);
            note_refs(refs, count + 1, index + 1, others);
        }
        [_, others @ ..] => note_refs(refs, count, index + 1, others),
    }
}

/// The references that words tell which stand after `check`.
fn find_refs(words: &[String]) -> [Option<u32>; MAX_REFS]
    requires room { count_by is_ref (words_bytes words.now) ≤ 16 }
    requires few { length words.now ≤ 101 }
    ensures { result ≡ padded MAX_REFS (refs_from 1 (words_bytes words.now)) }
{
    let mut refs = [None; MAX_REFS];
    note_refs(&mut refs, 0, 1, words);
    refs
}

/// Appends those of these indexes that are there.
fn append_some(indexes: &mut Vec<u32>, refs: &[Option<u32>]) -> Result<(), AllocError>
    ensures { OnOk result (indexes.new.items ≡ indexes.old.items ++ refs_in refs.now) }
{
    match refs {
        [] => Ok(()),
        [None, others @ ..] => append_some(indexes, others),
        [Some(index), others @ ..] => {
            indexes.push(*index)?;
            append_some(indexes, others)
        }
    }
}

impl LinkedWords {
    /// Returns whether the word at an index is the name of a reference, or the option before that.
    fn tells_ref(&self, index: u32) -> bool
        ensures { result ≡ tells_ref self.now.refs index }
    {
        self.refs.iter().any(|name| tells_name(*name, index))
    }

    /// Those of these indexes whose words tell no reference.
    fn without_refs(&self, alloc: Global, files: &[u32]) -> Result<Vec<u32>, AllocError>
        ensures { IfOk result (λ left. left.items ≡ filter (λ index. not (tells_ref self.now.refs index)) files.now) }
    {
        files
            .iter()
            .copied()
            .filter(|index| !self.tells_ref(*index))
            .collect(alloc)
    }

    /// The indexes of the words that name files: those that are no references, and then the references, in their order.
    pub fn files(&self, alloc: Global) -> Result<Vec<u32>, AllocError>
        ensures { IfOk result (λ files. files.items ≡ linked_files self.now) }
    {
        let all = self.check.files(alloc)?;
        let mut files = self.without_refs(alloc, &all)?;
        append_some(&mut files, &self.refs)?;
        Ok(files)
    }
}

/// The words of a check, where these stand after `check`, with its references.
#[tactic(auto, unfolding(crate::specs::Words::linked_words))]
pub fn read_linked(words: &[String]) -> Option<LinkedWords>
    ensures inside { IfSome result (λ linked. All (λ index. index < length words.now + 1)
        (linked_files linked ++ option_to_list linked.check.cache ++ option_to_list linked.check.proof)) }
    ensures value { result ≡ linked_words (words_bytes words.now) }
{
    let check = read_check(words)?;
    let refs = find_refs(words);
    Some(LinkedWords { check, refs })
}
