//! Units: methods with all that their analysis needs.

ghost use Rattle.std.specs.Prelude.{◌≡◌};
ghost use Rattle.cil_model.specs.Calls.{clauses_in_force};

use crate::clause::Clause;
use crate::instruction::Instr;
use crate::list::List;
use crate::place::Place;

/// What a unit knows of a method that it calls.
#[derive(Drop)]
pub struct CalleeInfo {
    pub name: List<u8>,
    pub result: Place,
    pub args: List<Place>,
    pub clauses: List<Clause>,
}

/// A method with all that its analysis needs.
#[derive(Drop)]
pub struct Unit {
    /// The printed name, up to the parameter list.
    pub name: List<u8>,
    pub result: Place,
    pub args: List<Place>,
    pub locals: List<Place>,
    /// The number of values that the stack holds at most.
    pub max_stack: u16,
    /// The methods that the code calls, in order of first use.
    pub callees: List<CalleeInfo>,
    pub code: List<u8>,
    /// The clauses that the code tells, and after them such as were added to these.
    pub clauses: List<Clause>,
    /// Where the body starts, after the contract block: an IL offset.
    pub body_start: u32,
    /// The instructions of the whole code.
    pub instrs: List<Instr>,
}

impl Unit {
    /// The clauses that calls and returns of the method test, and that its callers know.
    pub fn clauses_in_force(&self) -> &[Clause]
        ensures { result.now ≡ clauses_in_force self.now }
    {
        self.clauses.as_slice()
    }
}
