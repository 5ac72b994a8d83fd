//! Which clauses are numbers.

ghost use Rattle.std.specs.Prelude.{◌≡◌};
ghost use Rattle.std.specs.List.{list_all};
ghost use Rattle.method_code.specs.OfMethods.{is_number_clause};

use cil_model::{Clause, ClauseKind, Kind, Shape};

/// Returns whether the clause of a method of this shape is a number.
fn is_number_clause(shape: &Shape, clause: &Clause) -> bool
    ensures { result ≡ is_number_clause shape.now clause.now }
{
    let ensured = matches!(clause.kind, ClauseKind::Ensures);
    let kind = clause
        .tree
        .kind(shape.args.as_slice(), shape.result, ensured);
    matches!(kind, Some(Kind::Int))
}

/// Returns whether each of the clauses is.
pub fn are_number_clauses(shape: &Shape, clauses: &[Clause]) -> bool
    ensures { result ≡ list_all (is_number_clause shape.now) clauses.now }
{
    clauses.iter().all(|clause| is_number_clause(shape, clause))
}
