//! Clauses in states: whether a state shows a clause's tree to be true or false, and what is known where it is.
//!
//! A tree pushes its value (specs/TreeValues): a node takes its operands from the stack and pushes what it gives, with
//! whether every obligation so far is entailed, in the state that assumes them. So the variables below stay as they
//! were, and no expression is kept beside a state that changes. specs/ClauseStates has shown and assumed trees: the
//! value is taken from the stack and known, or assumed, to be true or false.
//!
//! What it means is said in specs/Meaning. A *reading* of a tree goes with a state that holds of values over the heap at
//! the end, by a choice, where the reading's arguments and result are the values of the variables that the environment
//! names, each array of the heap at entry kept its type and its length, and the arguments' arrays were there. Then, for
//! every such reading and choice:
//!
//! - **Assumed obligations are harmless** (`KeepsValue`). Where the tree has a value in the machine's sense (`value_of`),
//!   the state behind the tree holds of the same values and that value on top, by a choice that is as before for each
//!   symbol and reference that was there.
//! - **Entailed obligations cannot fault** (`HasValueWhereEntailed`). Where all obligations inside are entailed, a tree
//!   that has a kind in a clause of the method has a value in the machine's sense.
//! - **Shown is true** (`ShowsIt`). A clause that is shown is true: its value is a number other than 0. One that is shown
//!   false has the value 0.
//! - **Assumed is kept** (`KeepsAssumedTree`). Where the tree is true, the state in which it is assumed holds of the same
//!   values over the same heap, by some choice, and where it is false, so does the state in which it is assumed false.
//!   The choice may be another one, since cases are joined in new names.
//!
//! The first two are inductions over the tree, with the values, the state and the choice general. The last two go over
//! conditions and negations alone and rest on these.
#![tactic(auto)]

mod clauses;
mod conditions;
mod nodes;
mod reader;
mod stack;
mod values;

pub use clauses::{assume_tree, assume_tree_false, tree_shown, tree_shown_false};
pub use conditions::assume_true;
pub use reader::TreeEnv;
