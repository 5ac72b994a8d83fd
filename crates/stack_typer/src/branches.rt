//! What returns and branches do to the stack (ECMA-335 III.3.5 to III.3.18 and III.3.56).

ghost use Rattle.std.specs.Prelude.{◌≡◌};
ghost use Rattle.cil_model.specs.Kinds.{when, behind_switch, behind_return, behind_test};

use crate::stack::Stack;
use cil_model::{Kind, Place, Test, compares_kinds, is_tested, takes};

/// Takes the top, and says whether it was an int32.
pub fn take_int(stack: &mut Stack) -> bool
    ensures { when result stack.new ≡ behind_switch stack.old }
{
    stack.pop() == Some(Kind::Int)
}

/// Takes the result, which has to stand alone.
pub fn take_result(place: Place, stack: &mut Stack) -> bool
    ensures { when result stack.new ≡ behind_return place stack.old }
{
    match stack.pop() {
        Some(kind) => takes(place, kind) && stack.len() == 0,
        None => place == Place::Void,
    }
}

/// Takes the operands of a branch's test.
pub fn take_tested(test: Test, stack: &mut Stack) -> bool
    ensures { when result stack.new ≡ behind_test test stack.old }
{
    match test {
        Test::Always => true,
        Test::True | Test::False => match stack.pop() {
            Some(kind) => is_tested(kind),
            None => false,
        },
        Test::Cmp(op) => match (stack.pop(), stack.pop()) {
            (Some(b), Some(a)) => compares_kinds(op, a, b),
            _ => false,
        },
    }
}
