//! References that are not the same array.

ghost use Rattle.std.specs.Prelude.{◌≡◌, ◌≢◌, ◌↔◌, ℕ, Option, false, [], IfOk, IfSome, IsSome, IsTrue, OnErr, OnOk};
ghost use Rattle.alias_facts.specs.Arrays.{AllDiffer, Differ, DiffersFromEarlier, is_no_array};
ghost use Rattle.alias_facts.specs.KeptPairs.{lower_first};
ghost use Rattle.alias_facts.specs.NullnessOf.{Agrees, are_told_apart, must_differ};
ghost use Rattle.alias_facts.specs.PairsOf.{AreInOrder, AreProper, contains, kept_pairs, ordered, with_all_before, with_pair};

use crate::kept::{are_same_pairs, is_kept};
use crate::marks::mark;
use crate::nullness::Nullness;
use crate::pair_forms::are_kept_pairs;
use crate::pair_list::{insert, is_proper, ordered, turned};
use crate::sorting::{all_pairs, rows_of};
use domain_api::NoMemory;
use std::alloc::Global;
use std::marker::Model;

/// Pairs of references that are not the same array. Contracts see them as a list, each once and lower first, by the
/// lower reference and then by the higher one.
///
/// A pair takes eight bytes. A reference that is apart from all before it takes four, however many these are.
#[derive(Drop)]
pub struct Apart {
    /// Pairs that are kept one by one, higher first: by the higher reference and then by the lower one, so that the
    /// pairs of a new reference go behind all others.
    rows: Vec<(u32, u32)>,
    /// References that are apart from each one from 1 up to the one before them, in order.
    marks: Vec<u32>,
}

impl Model for Apart {
    ghost use Rattle.std.specs.Prelude.{List, ℕ};

    ghost Value = { List (ℕ × ℕ) };

    ghost use Rattle.alias_facts.specs.PairsOf.{kept_pairs};
    ghost use Rattle.alias_facts.specs.KeptPairs.{AreKept, lower_first};

    ghost view = { λ apart. kept_pairs (lower_first apart.rows.items) apart.marks.items };

    ghost invariant = { λ apart. AreKept apart.rows.items apart.marks.items };
}

impl Apart {
    /// No pair.
    pub fn new(alloc: Global) -> Apart
        ensures { result ≡ [] }
    {
        Apart {
            rows: Vec::new(alloc),
            marks: Vec::new(alloc),
        }
    }

    /// These pairs alone. None exactly where they are not in order, each once, or one is not proper: its lower
    /// reference is 0, or does not come first.
    ///
    /// Cost: that of sorting them.
    pub fn of_pairs(alloc: Global, pairs: &[(u32, u32)]) -> Result<Option<Apart>, NoMemory>
        ensures some { IfOk result (λ made. IsSome made ↔ (AreInOrder pairs.now × AreProper pairs.now)) }
        ensures value { IfOk result (λ made. IfSome made (λ apart. apart ≡ pairs.now)) }
    {
        if !are_kept_pairs(pairs) {
            return Ok(None);
        }
        let rows = rows_of(alloc, pairs)?;
        Ok(Some(Apart::of_rows(alloc, rows)))
    }

    /// These pairs alone, which are given higher first.
    fn of_rows(alloc: Global, rows: Vec<(u32, u32)>) -> Apart
        requires in_order { AreInOrder rows.items }
        requires proper { AreProper (lower_first rows.items) }
        ensures { result ≡ kept_pairs (lower_first rows.items) [] }
    {
        Apart {
            rows,
            marks: Vec::new(alloc),
        }
    }

    /// Returns whether the two are kept apart, in whatever order they are given. A reference is never apart from
    /// itself, nor reference 0 from any.
    ///
    /// Cost: what is kept is halved.
    pub fn is_apart(&self, r: u32, q: u32) -> bool
        ensures kept { result ≡ contains self.now (ordered r q) }
        ensures different { IsTrue result → r ≢ q }
        ensures differ { IsTrue result → (array : ℕ → Option ℕ) → AllDiffer array self.now → Differ array r q }
    {
        is_kept(self.rows.as_slice(), self.marks.as_slice(), ordered(r, q))
    }

    /// Keeps two references apart, in whatever order they are given. A reference and itself, and reference 0 and
    /// another, are never kept. Want of memory leaves what was kept.
    ///
    /// Cost: a pair of the highest reference goes behind the others, where its pairs come by rising references. Any
    /// other moves those behind it, eight bytes each.
    #[tactic(auto, using(crate::proofs::ApartLaws::with_pair_differ))]
    pub fn set_apart(&mut self, r: u32, q: u32) -> Result<(), NoMemory>
        ensures ok { OnOk result (self.new ≡ with_pair (ordered r q) self.old) }
        ensures err { OnErr result (self.new ≡ self.old) }
        ensures keeps { OnOk result ((array : ℕ → Option ℕ) → AllDiffer array self.old → Differ array r q →
            AllDiffer array self.new) }
    {
        let pair = ordered(r, q);
        if !is_proper(pair) {
            return Ok(());
        }
        insert(&mut self.rows, turned(pair))?;
        Ok(())
    }

    /// Keeps a reference apart from each one from 1 up to the one before it. Want of memory leaves what was kept.
    ///
    /// Cost: a reference that is higher than all for which this was asked goes behind them, whatever the number of
    /// pairs.
    pub fn set_apart_from_earlier(&mut self, r: u32) -> Result<(), NoMemory>
        ensures ok { OnOk result (self.new ≡ with_all_before r self.old) }
        ensures err { OnErr result (self.new ≡ self.old) }
        ensures keeps { OnOk result ((array : ℕ → Option ℕ) → AllDiffer array self.old → DiffersFromEarlier array r →
            AllDiffer array self.new) }
    {
        mark(&mut self.marks, r)?;
        Ok(())
    }

    /// Returns whether two references cannot be the same array: they are kept apart, their places differ, or one is
    /// null. Given are whether their places are the same, and what is known of each. A null reference and itself cannot
    /// be the same array, as it is none.
    ///
    /// Cost: what is kept is halved, where the places and what is known do not tell.
    pub fn cannot_be_same(&self, r: u32, q: u32, same_place: bool, a: Nullness, b: Nullness) -> bool
        ensures value { result ≡ must_differ (contains self.now (ordered r q)) same_place a b }
        ensures sound { IsTrue result → (array : ℕ → Option ℕ) → AllDiffer array self.now →
            (same_place ≡ false → Differ array r q) → Agrees a (is_no_array (array r)) →
            Agrees b (is_no_array (array q)) → Differ array r q }
    {
        are_told_apart(same_place, a, b) || self.is_apart(r, q)
    }

    /// All pairs, in order.
    ///
    /// Cost: that of sorting them, with each pair that a mark stands for: ask it of states that have few references.
    pub fn pairs(&self, alloc: Global) -> Result<Vec<(u32, u32)>, NoMemory>
        ensures value { IfOk result (λ pairs. pairs.items ≡ self.now) }
        ensures in_order { IfOk result (λ pairs. AreInOrder pairs.items) }
        ensures proper { IfOk result (λ pairs. AreProper pairs.items) }
    {
        all_pairs(alloc, self.rows.as_slice(), self.marks.as_slice())
    }

    /// Returns whether both keep the same pairs.
    ///
    /// Cost: one pass over the pairs where neither has a reference that is marked as apart from all before it. Else
    /// each pair of the one is sought in the other, and a reference that both mark is looked at once.
    pub fn same(&self, other: &Apart) -> bool
        ensures { IsTrue result ↔ (self.now ≡ other.now) }
    {
        are_same_pairs(
            self.rows.as_slice(),
            self.marks.as_slice(),
            other.rows.as_slice(),
            other.marks.as_slice(),
        )
    }

    /// The same pairs again.
    pub fn copy(&self, alloc: Global) -> Result<Apart, NoMemory>
        ensures { IfOk result (λ again. again ≡ self.now) }
    {
        let rows = Vec::from_slice(alloc, self.rows.as_slice())?;
        let marks = Vec::from_slice(alloc, self.marks.as_slice())?;
        Ok(Apart { rows, marks })
    }
}

/// Returns whether two references cannot be the same array by what is known of each: their places differ, or one is
/// null.
fn are_told_apart(same_place: bool, a: Nullness, b: Nullness) -> bool
    ensures { result ≡ are_told_apart same_place a b }
{
    !same_place || a == Nullness::Null || b == Nullness::Null
}
