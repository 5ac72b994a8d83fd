//! That the numbers of arguments are int32, as their types say. A contract knows it of a number that the code reads, so
//! these functions do nothing but read.

ghost use Rattle.std.specs.Prelude.{FitsSigned};
ghost use Rattle.std.specs.Int.{w32};
ghost use Rattle.std.specs.List.{AllByRecursion};
ghost use Rattle.cil_eval.specs.Given.{AreInts, IsInt};

use cil_model::Arg;

/// Reads numbers.
fn read_ints(items: &[i32])
    ensures { AllByRecursion (FitsSigned w32) items.now }
{
    for item in items {
        let _item = *item;
    }
}

/// Reads the numbers of an argument.
fn read_arg(arg: &Arg)
    ensures { IsInt arg.now }
{
    match arg {
        Arg::Int(n) => {
            let _n = *n;
        }
        Arg::Ints(items) => read_ints(items.as_slice()),
        _ => {}
    }
}

/// Reads the numbers of arguments.
pub(crate) fn read_args(args: &[Arg])
    ensures { AreInts args.now }
{
    let [first, others @ ..] = args else {
        return;
    };
    read_arg(first);
    read_args(others);
}
