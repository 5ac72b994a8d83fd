//! Which clauses stand in a list of a unit file.

ghost use Rattle.std.specs.Prelude.{◌≡◌, Some, None, if◌then◌else◌};
ghost use Rattle.unit_form.specs.Callees.{is_clause_count, is_kind_number, kind_numbered};

use cil_model::{ClauseKind, MAX_CLAUSES};

/// Which clauses stand in a list.
#[derive(Clone, Copy, Debug, PartialEq, Eq)]
pub enum ClauseList {
    /// Those of a method's contract.
    Contract,
    /// Such as were added to these: Ensures alone, and at least one.
    Added,
}

impl ClauseList {
    /// The kind that a number stands for, where a clause of the list may have it.
    pub fn kind_of_number(self, number: u8) -> Option<ClauseKind>
        ensures { result ≡ if is_kind_number self number then Some (kind_numbered number) else None }
    {
        match (self, number) {
            (ClauseList::Contract, 1) => Some(ClauseKind::Requires),
            (ClauseList::Contract | ClauseList::Added, 2) => Some(ClauseKind::Ensures),
            _ => None,
        }
    }

    /// Returns whether the list may have so many clauses.
    pub fn may_count(self, count: u8) -> bool
        ensures { result ≡ is_clause_count self count }
    {
        match self {
            ClauseList::Contract => usize::from(count) <= MAX_CLAUSES,
            ClauseList::Added => 1 <= count && usize::from(count) <= MAX_CLAUSES,
        }
    }
}
