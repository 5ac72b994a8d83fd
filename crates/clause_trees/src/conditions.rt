//! Conditions as values.

ghost use Rattle.std.specs.Prelude.{◌≡◌, IfOk, IsSome, OnErr, OnOk};
ghost use Rattle.std.specs.Option.{ForSome, option_and_then};
ghost use Rattle.number_facts.specs.Ends.{range_of};
ghost use Rattle.state_facts.specs.Forms.{HasNumber, HasVar};
ghost use Rattle.clause_trees.specs.TreeValues as rule;

use crate::reader::Reader;
use crate::stack::{refused, take};
use abs_state::{AbsState, Var};
use cil_model::{CmpOp, Place, Tree};
use domain_api::{Expr, NoMemory};
use merged_numbers::hull;
use number_spans::{Span, constant};

/// What is seen of a value outside of its branch.
#[derive(Clone, Copy)]
pub(crate) enum Seen {
    /// A number of these.
    Number(Span),
    /// Reference 0.
    Null,
    /// A reference to arrays of this type.
    Array(Place),
}

/// Assumes that a value is true: a number other than 0, or a reference other than null. Or that it is not. Of other
/// values nothing is assumed.
///
/// Cost: that of one comparison. Want of memory leaves the state as it was.
pub fn assume_true(state: &mut AbsState, value: Var, holds: bool) -> Result<(), NoMemory>
    requires there { ForSome state.old (λ known. HasVar known value) }
    ensures ok { OnOk result (state.new ≡ option_and_then (rule.true_known holds value) state.old) }
    ensures err { OnErr result (state.new ≡ state.old) }
{
    let zero = match value {
        Var::Number(_) => Var::Number(constant(0)),
        Var::Reference(_) => Var::Reference(0),
        Var::Text | Var::Address(..) => return Ok(()),
    };
    state.assume(CmpOp::NeUn, value, zero, holds)
}

/// The numbers that an expression may be.
pub(crate) fn span_of(state: &AbsState, e: Expr) -> Span
    requires reached { IsSome state.now }
    requires there { ForSome state.now (λ known. HasNumber known e) }
    ensures { ForSome state.now (λ known. result ≡ range_of known.facts e) }
{
    let (lo, hi, hole) = state.ends(e);
    Span { lo, hi, hole }
}

/// What is seen of a value.
fn seen_of(state: &AbsState, value: Var) -> Option<Seen>
    requires reached { IsSome state.now }
    requires there { ForSome state.now (λ known. HasVar known value) }
    ensures { ForSome state.now (λ known. result ≡ rule.seen_of known value) }
{
    match value {
        Var::Number(e) => Some(Seen::Number(span_of(state, e))),
        Var::Reference(0) => Some(Seen::Null),
        Var::Reference(r) => Some(Seen::Array(state.place(r))),
        Var::Text | Var::Address(..) => None,
    }
}

/// What is seen of the value on top. Nothing where nothing is reached.
fn seen_on_top(state: &AbsState) -> Option<Seen>
    ensures { result ≡ option_and_then rule.seen_on_top state.now }
{
    match state.from_top(0) {
        None => None,
        Some(value) => seen_of(state, value),
    }
}

/// What is seen of either of two values. They are of one kind.
fn seen_of_both(a: Seen, b: Seen) -> Seen
    ensures { result ≡ rule.seen_of_both a b }
{
    match (a, b) {
        (Seen::Number(a), Seen::Number(b)) => Seen::Number(hull(a, b)),
        (Seen::Null, b) => b,
        (a, _) => a,
    }
}

/// The same, where either may be none.
fn seen_of_reached(a: Option<Seen>, b: Option<Seen>) -> Option<Seen>
    ensures { result ≡ rule.seen_of_reached a b }
{
    match (a, b) {
        (Some(a), Some(b)) => Some(seen_of_both(a, b)),
        (Some(a), None) => Some(a),
        (None, b) => b,
    }
}

/// Pushes a value of which this is seen alone. Where nothing is seen, nothing is reached.
fn push_seen(state: &mut AbsState, seen: Option<Seen>) -> Result<(), NoMemory>
    ensures { OnOk result (state.new ≡ option_and_then (rule.push_seen seen) state.old) }
{
    match seen {
        None => {
            *state = AbsState::nothing();
            Ok(())
        }
        Some(Seen::Null) => state.push(Var::Reference(0)),
        Some(Seen::Number(span)) => state.push_within(span),
        Some(Seen::Array(place)) => state.push_unknown(place),
    }
}

/// What is found in a branch.
#[derive(Clone, Copy)]
struct Branch {
    /// Whether all obligations inside are entailed.
    entailed: bool,
    /// What is seen of the value. None where the branch is not reached.
    seen: Option<Seen>,
}

impl Reader {
    /// What is found in a branch, where a test's value is so. A branch that is not reached has no obligation.
    #[cycle(reading)]
    fn branch(
        self,
        state: &AbsState,
        test: Var,
        holds: bool,
        tree: &Tree,
    ) -> Result<Branch, NoMemory>
        requires there { ForSome state.now (λ known. HasVar known test) }
        ensures { IfOk result (λ found. rule.Sees found.entailed found.seen
            (rule.branch_in (rule.value self.env self.time tree.now) holds test state.now)) }
    {
        let mut inside = state.copy(self.alloc)?;
        assume_true(&mut inside, test, holds)?;
        let entailed = self.value(&mut inside, tree)?;
        Ok(Branch {
            entailed,
            seen: seen_on_top(&inside),
        })
    }

    /// Pushes a value of either branch, where a test has this value. The obligations and the value of a branch are
    /// taken where the test's value is so, and the state is then that behind the test.
    #[cycle(reading)]
    fn chosen(self, state: &mut AbsState, test: Var, a: &Tree, b: &Tree) -> Result<bool, NoMemory>
        requires there { ForSome state.old (λ known. HasVar known test) }
        ensures { IfOk result (λ entailed. rule.Finds entailed state.new (rule.in_state
            (rule.condition_value (rule.value self.env self.time a.now) (rule.value self.env self.time b.now) test)
            state.old)) }
    {
        let first = self.branch(state, test, true, a)?;
        let second = self.branch(state, test, false, b)?;
        push_seen(state, seen_of_reached(first.seen, second.seen))?;
        Ok(first.entailed && second.entailed)
    }

    /// Pushes a value of either branch, where the test lies on top.
    #[cycle(reading)]
    pub fn condition(self, state: &mut AbsState, a: &Tree, b: &Tree) -> Result<bool, NoMemory>
        ensures { IfOk result (λ entailed. rule.Finds entailed state.new (rule.in_state (rule.on_one
            (rule.condition_value (rule.value self.env self.time a.now) (rule.value self.env self.time b.now)))
            state.old)) }
    {
        match take(state)? {
            Some(value) => self.chosen(state, value, a, b),
            None => Ok(refused(state)),
        }
    }
}
