//! Shapes: what is known of a method besides its code.

use crate::list::List;
use crate::place::Place;
use crate::unit::CalleeInfo;

/// What the typing of a method's code and the trees of its clauses depend on, besides the code.
#[derive(Drop)]
pub struct Shape {
    pub result: Place,
    pub args: List<Place>,
    pub locals: List<Place>,
    /// The number of values that the stack holds at most.
    pub max_stack: u16,
    /// The methods that the code calls, in order of first use.
    pub callees: List<CalleeInfo>,
}
