//! The values of trees.

ghost use Rattle.std.specs.Prelude.{◌≡◌, ◌+◌, IfOk, Some};
ghost use Rattle.frame_names.specs.declared.var.Var.TheVariants as vars;
ghost use Rattle.number_spans.specs.Constants as numbers;
ghost use Rattle.clause_trees.specs.TreeValues as rule;

use crate::nodes::{binary, element, given, length, unary, variable, variable_if};
use crate::reader::Reader;
use abs_state::{AbsState, Var};
use cil_model::{Node, Tree};
use domain_api::NoMemory;
use number_spans::constant;

/// A number of a clause.
fn number(n: i32) -> Var
    ensures { result ≡ vars.Number (numbers.constant n) }
{
    Var::Number(constant(i64::from(n)))
}

/// What the variable of an argument has.
fn argument(state: &mut AbsState, args: u32, n: u16) -> Result<bool, NoMemory>
    ensures { IfOk result (λ entailed.
        rule.Finds entailed state.new (rule.in_state (rule.variable (Some (args + n))) state.old)) }
{
    variable(state, u64::from(args) + u64::from(n))
}

impl Reader {
    /// Pushes the value of a tree. Answers whether all obligations inside are entailed, each in the state that assumes
    /// those before it. The state then assumes them.
    ///
    /// Cost: what the obligations and operators of its nodes cost, and two copies of the state for each condition. It
    /// goes as deep as the tree.
    #[cycle(reading)]
    pub fn value(self, state: &mut AbsState, tree: &Tree) -> Result<bool, NoMemory>
        ensures { IfOk result (λ entailed.
            rule.Finds entailed state.new (rule.in_state (rule.value self.env self.time tree.now) state.old)) }
    {
        match &tree.node {
            Node::Const(n) => given(state, number(*n)),
            Node::Arg(n) => argument(state, self.env.args, *n),
            Node::Null => given(state, Var::Reference(0)),
            Node::Result => variable_if(state, self.env.result),
            Node::Len(array) => Ok(self.value(state, array)? & length(state)?),
            Node::Elem(place, array, index) => {
                Ok(self.values(state, array, index)? & element(state, self.time, *place)?)
            }
            Node::Bin(op, a, b) => Ok(self.values(state, a, b)? & binary(state, *op)?),
            Node::Un(op, operand) => Ok(self.value(state, operand)? & unary(state, *op)?),
            Node::Old(operand) => self.at_entry().value(state, operand),
            Node::Cond(test, a, b) => {
                Ok(self.value(state, test)? & self.condition(state, a, b)?)
            }
        }
    }

    /// Pushes the values of two trees, one after the other.
    #[cycle(reading)]
    fn values(self, state: &mut AbsState, a: &Tree, b: &Tree) -> Result<bool, NoMemory>
        ensures { IfOk result (λ entailed. rule.Finds entailed state.new (rule.and_then
            (rule.in_state (rule.value self.env self.time a.now) state.old) (rule.value self.env self.time b.now))) }
    {
        Ok(self.value(state, a)? & self.value(state, b)?)
    }
}
