//! How runs ended, as text.

ghost use Rattle.std.specs.Prelude.{◌≡◌, ◌≢◌, ◌++◌, IfOk, codes, decimal};
ghost use Rattle.cil_eval.specs.Flows.{AreRunnable};
ghost use Rattle.method_run.specs.EndTexts.{end_status, end_text};
ghost use Rattle.method_run.specs.FaultTexts.{position_text};
ghost use Rattle.method_run.specs.RunAnswers.{IsTold, cells_answer, end_answer, refusal_answer};
ghost use Rattle.method_run.specs.declared.answer.RunAnswer.TheVariants.{Line};

use crate::answer::RunAnswer;
use crate::faults::{fault_text, put_position};
use crate::values::returned_text;
use cc_base::put_number;
use cil_eval::{Limits, Machine, StartRefusal, Stop};
use cil_model::{List, Place, World};
use std::alloc::{AllocError, Global};

/// Returns the status for how a run ended.
fn end_status(stop: Stop) -> u8
    ensures { result ≡ end_status stop }
{
    match stop {
        Stop::Returned(_) => 0,
        Stop::Fault(..) => 8,
        Stop::Assumed(..) => 10,
        Stop::Steps | Stop::Depth | Stop::Cells => 9,
    }
}

/// Tells of a false assumption at an offset in the code of the method of an index.
fn assumed_text(alloc: Global, world: &World, index: u32, at: u32) -> Result<Vec<u8>, AllocError>
    ensures { IfOk result (λ text. text.items ≡ codes "assume false" ++ position_text world.now index at) }
{
    let mut text = Vec::from_slice(alloc, b"assume false")?;
    put_position(alloc, &mut text, world, index, at)?;
    Ok(text)
}

/// Words, and a number after them.
fn numbered(alloc: Global, words: &[u8], number: u32) -> Result<Vec<u8>, AllocError>
    ensures { IfOk result (λ text. text.items ≡ words.now ++ decimal number) }
{
    let mut text = Vec::from_slice(alloc, words)?;
    put_number(alloc, &mut text, i64::from(number))?;
    Ok(text)
}

/// Tells how a run under limits ended, where the entry's result has this type. The machine has the arrays of the end.
fn end_text(
    alloc: Global,
    world: &World,
    limits: Limits,
    place: Place,
    machine: &Machine<'_>,
    stop: Stop,
) -> Result<Vec<u8>, AllocError>
    requires { AreRunnable world.now }
    ensures { IfOk result (λ text. text.items ≡ end_text world.now limits place machine.now.store.heap stop) }
{
    match stop {
        Stop::Returned(returned) => returned_text(alloc, place, machine, returned),
        Stop::Fault(kind, index, at) => fault_text(alloc, world, kind, index, at),
        Stop::Assumed(index, at) => assumed_text(alloc, world, index, at),
        Stop::Steps => numbered(alloc, b"stopped: steps ", limits.steps),
        Stop::Depth => numbered(alloc, b"stopped: depth ", limits.depth),
        Stop::Cells => numbered(alloc, b"stopped: cells ", limits.cells),
    }
}

/// The answer that is this text, with a line feed.
fn line_answer(status: u8, text: Vec<u8>) -> Result<RunAnswer, AllocError>
    ensures { IfOk result (λ answer. answer ≡ Line status (text.items ++ codes "\n")) }
{
    let mut line = text;
    line.push(b'\n')?;
    Ok(RunAnswer::Line {
        status,
        text: List::from_vec(line),
    })
}

/// The answer at the end of a run under limits, where the entry's result has this type. The machine has the arrays of
/// the end.
pub(crate) fn end_answer(
    alloc: Global,
    world: &World,
    limits: Limits,
    place: Place,
    machine: &Machine<'_>,
    stop: Stop,
) -> Result<RunAnswer, AllocError>
    requires { AreRunnable world.now }
    ensures answer { IfOk result (λ answer. answer ≡ end_answer world.now limits place machine.now.store.heap stop) }
    ensures told { IfOk result IsTold }
{
    let text = end_text(alloc, world, limits, place, machine, stop)?;
    line_answer(end_status(stop), text)
}

/// The answer where the arguments' arrays have more cells than the limit.
fn cells_answer(alloc: Global, limits: Limits) -> Result<RunAnswer, AllocError>
    ensures answer { IfOk result (λ answer. answer ≡ cells_answer limits) }
    ensures told { IfOk result IsTold }
{
    let text = numbered(alloc, b"stopped: cells ", limits.cells)?;
    line_answer(end_status(Stop::Cells), text)
}

/// The answer where a run under limits does not start.
pub(crate) fn refusal_answer(
    alloc: Global,
    limits: Limits,
    refusal: StartRefusal,
) -> Result<RunAnswer, AllocError>
    ensures answer { IfOk result (λ answer. answer ≡ refusal_answer limits refusal) }
    ensures told { refusal ≢ StartRefusal.Unit → IfOk result IsTold }
{
    let reason = match refusal {
        StartRefusal::Unit => Vec::new(alloc),
        StartRefusal::Arguments => Vec::from_slice(alloc, b"arguments")?,
        StartRefusal::Requires(k) => numbered(alloc, b"requires ", u32::from(k))?,
        StartRefusal::Cells => return cells_answer(alloc, limits),
    };
    Ok(RunAnswer::Misfit(List::from_vec(reason)))
}
