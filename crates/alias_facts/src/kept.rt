//! Pairs that are kept one by one, higher first, and by marks of references that are apart from all before them.

ghost use Rattle.std.specs.Prelude.{◌≡◌, ◌↔◌, true, [], IsTrue};
ghost use Rattle.std.specs.List.{list_all};
ghost use Rattle.alias_facts.specs.KeptPairs.{AreKept, lower_first, turned};
ghost use Rattle.alias_facts.specs.PairsOf.{Covers, contains, is_proper, kept_pairs, pairs_before};

use crate::marks::is_marked;
use crate::pair_list::{has, is_proper, turned};

/// Returns whether a pair is one of these, or is proper and its higher reference is marked.
pub(crate) fn is_kept(rows: &[(u32, u32)], marks: &[u32], pair: (u32, u32)) -> bool
    requires { AreKept rows.now marks.now }
    ensures kept { result ≡ contains (kept_pairs (lower_first rows.now) marks.now) pair }
    ensures proper { IsTrue result → is_proper pair ≡ true }
{
    is_proper(pair) && (is_marked(marks, pair.1) || has(rows, turned(pair)))
}

// ---- comparing

/// Returns whether each of these pairs is kept.
fn has_all(rows: &[(u32, u32)], marks: &[u32], sought: &[(u32, u32)]) -> bool
    requires { AreKept rows.now marks.now }
    ensures { result ≡
        list_all (λ row. contains (kept_pairs (lower_first rows.now) marks.now) (turned row)) sought.now }
{
    sought.iter().all(|row| is_kept(rows, marks, turned(*row)))
}

/// Returns whether a reference is kept apart from each one before it.
fn has_row(rows: &[(u32, u32)], marks: &[u32], reference: u32) -> bool
    requires { AreKept rows.now marks.now }
    ensures { result ≡ list_all (contains (kept_pairs (lower_first rows.now) marks.now)) (pairs_before reference) }
{
    if is_marked(marks, reference) {
        return true;
    }
    for lower in 1..reference {
        if !is_kept(rows, marks, (lower, reference)) {
            return false;
        }
    }
    true
}

/// Returns whether each of these references is kept apart from each one before it.
fn has_rows(rows: &[(u32, u32)], marks: &[u32], references: &[u32]) -> bool
    requires { AreKept rows.now marks.now }
    ensures { result ≡ list_all
        (λ r. list_all (contains (kept_pairs (lower_first rows.now) marks.now)) (pairs_before r)) references.now }
{
    references.iter().all(|r| has_row(rows, marks, *r))
}

/// Returns whether the first pairs have each pair that the others have.
fn covers(
    rows: &[(u32, u32)],
    marks: &[u32],
    other_rows: &[(u32, u32)],
    other_marks: &[u32],
) -> bool
    requires { AreKept rows.now marks.now }
    ensures { IsTrue result ↔ Covers (kept_pairs (lower_first rows.now) marks.now)
        (kept_pairs (lower_first other_rows.now) other_marks.now) }
{
    has_all(rows, marks, other_rows) && has_rows(rows, marks, other_marks)
}

/// Returns whether no reference is marked.
fn has_no_mark(marks: &[u32]) -> bool
    ensures { IsTrue result → marks.now ≡ [] }
{
    marks.is_empty()
}

/// Returns whether both lists have the same pairs in the same order.
fn are_equal(rows: &[(u32, u32)], other: &[(u32, u32)]) -> bool
    ensures { IsTrue result ↔ (rows.now ≡ other.now) }
{
    rows == other
}

/// Returns whether the same pairs are kept.
pub(crate) fn are_same_pairs(
    rows: &[(u32, u32)],
    marks: &[u32],
    other_rows: &[(u32, u32)],
    other_marks: &[u32],
) -> bool
    requires one { AreKept rows.now marks.now }
    requires other { AreKept other_rows.now other_marks.now }
    ensures { IsTrue result ↔ (kept_pairs (lower_first rows.now) marks.now ≡
        kept_pairs (lower_first other_rows.now) other_marks.now) }
{
    if has_no_mark(marks) && has_no_mark(other_marks) {
        return are_equal(rows, other_rows);
    }
    covers(rows, marks, other_rows, other_marks) && covers(other_rows, other_marks, rows, marks)
}
