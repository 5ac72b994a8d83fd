//! Faults and the methods that they are in, as text.

ghost use Rattle.std.specs.Prelude.{◌≡◌, ◌++◌, IfOk, OnOk};
ghost use Rattle.cil_eval.specs.Flows.{AreRunnable};
ghost use Rattle.cil_eval.specs.RunWorlds.{CanBeRun};
ghost use Rattle.method_run.specs.FaultTexts as texts;
ghost use Rattle.method_run.specs.FaultTexts.{method_text, position_text};

use crate::callee::called_at;
use answer_lines::{append_kind, append_signature};
use cil_model::{FaultKind, World};
use il_decoder::put_label;
use std::alloc::{AllocError, Global};

/// Appends the name of the method of an index, if there is one.
fn put_method(
    alloc: Global,
    line: &mut Vec<u8>,
    world: &World,
    index: u32,
) -> Result<(), AllocError>
    ensures { OnOk result (line.new.items ≡ line.old.items ++ method_text world.now index) }
{
    match world.units.as_slice().get(index as usize) {
        Some(unit) => append_signature(alloc, line, unit.name.as_slice(), unit.args.as_slice()),
        None => Ok(()),
    }
}

/// Appends the offset in the code of the method of an index, and the method.
pub(crate) fn put_position(
    alloc: Global,
    line: &mut Vec<u8>,
    world: &World,
    index: u32,
    at: u32,
) -> Result<(), AllocError>
    ensures { OnOk result (line.new.items ≡ line.old.items ++ position_text world.now index at) }
{
    line.extend_from_slice(b" at ")?;
    put_label(alloc, line, at)?;
    line.extend_from_slice(b" in ")?;
    put_method(alloc, line, world, index)
}

/// Tells of a fault at an offset in the code of the method of an index.
pub(crate) fn fault_text(
    alloc: Global,
    world: &World,
    kind: FaultKind,
    index: u32,
    at: u32,
) -> Result<Vec<u8>, AllocError>
    requires { AreRunnable world.now }
    ensures { IfOk result (λ text. text.items ≡ texts.fault_text world.now kind index at) }
{
    let mut text = Vec::from_slice(alloc, b"fault ")?;
    append_kind(alloc, &mut text, called_at(world, index, at), kind)?;
    put_position(alloc, &mut text, world, index, at)?;
    Ok(text)
}

/// The line that `run` answers for a fault at an offset in the code of the method of an index: its kind, its offset and
/// the method's name.
///
/// # Errors
///
/// Memory runs out.
#[tactic(auto, using(cil_eval::proofs::RunnableUnits::world_can))]
pub fn fault_line(
    alloc: Global,
    world: &World,
    kind: FaultKind,
    index: u32,
    at: u32,
) -> Result<Vec<u8>, AllocError>
    requires { CanBeRun world.now }
    ensures { IfOk result (λ line. line.items ≡ texts.fault_line world.now kind index at) }
{
    let mut line = fault_text(alloc, world, kind, index, at)?;
    line.push(b'\n')?;
    Ok(line)
}
