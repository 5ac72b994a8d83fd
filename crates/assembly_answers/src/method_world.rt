//! The world of a method that is named in a file.

#![tactic(auto, using(cc_base::proofs::SinkLemmas::sinks, cc_base::proofs::CountLemmas::counts, answer_lines::proofs::LineLemmas::puts_none))]

ghost use Rattle.std.specs.Prelude.{◌≡◌, ◌<◌, IfOk, IsSome, length};
ghost use Rattle.asm_image.specs.Bodies.{method_of};
ghost use Rattle.asm_image.specs.Faults.{FirstBroken};
ghost use Rattle.assembly_answers.specs.Answers.{no_world_answer, world_at, world_found, world_named, world_unless};
ghost use Rattle.answer_lines.specs.Writing.{Writes, change_of};
ghost use Rattle.cil_eval.specs.RunWorlds.{CanBeRun};
ghost use Rattle.unit_builder.specs.WorldOf.{least_skipped};

use crate::fault_text::assembly_fault_text;
use answer_lines::{Interrupt, answer_misfit, answer_refused};
use asm_image::{AsmFault, AsmRefusal, Assembly, Found};
use cc_base::{Sink, Token};
use cil_model::World;
use std::alloc::{AllocError, Global};
use unit_builder::{Units, WorldRefusal, world_of};

/// Why a method that is named in a file has no world.
#[derive(Clone, Copy)]
pub enum NoWorld {
    /// The file is refused.
    Refused(AsmFault),
    /// No method has the name.
    NoMethod,
    /// Several methods have it.
    SeveralMethods,
    /// The method's calls can reach one that is not analysed, or it is none itself.
    NotAnalysed,
}

/// The world of the method of a token. An error says that memory ran out.
fn analysed_world(
    alloc: Global,
    assembly: &Assembly<'_>,
    token: Token,
) -> Result<Result<World, NoWorld>, AllocError>
    requires there { IsSome (method_of assembly.now token) }
    ensures world { IfOk result (λ named. named ≡ world_unless assembly.now token (least_skipped assembly.now token.0)) }
    ensures can_be_run { IfOk result (λ named. IfOk named CanBeRun) }
    ensures method { IfOk result (λ named. IfOk named (λ world. 0 < length world.units)) }
{
    let units = Units::of(alloc, assembly)?;
    match world_of(alloc, units, token) {
        Ok(world) => Ok(Ok(world)),
        Err(WorldRefusal::NotAnalysed(_)) => Ok(Err(NoWorld::NotAnalysed)),
        Err(WorldRefusal::NoMemory) => Err(AllocError),
    }
}

/// The world of the method that a token names. An error says that memory ran out.
fn token_world(
    alloc: Global,
    assembly: &Assembly<'_>,
    token: Token,
) -> Result<Result<World, NoWorld>, AllocError>
    ensures world { IfOk result (λ named. named ≡ world_at assembly.now token (method_of assembly.now token)) }
    ensures can_be_run { IfOk result (λ named. IfOk named CanBeRun) }
    ensures method { IfOk result (λ named. IfOk named (λ world. 0 < length world.units)) }
{
    match assembly.method(token) {
        None => Ok(Err(NoWorld::NoMethod)),
        Some(_) => analysed_world(alloc, assembly, token),
    }
}

/// The world of the method that a name means in an assembly. An error says that memory ran out.
fn found_world(
    alloc: Global,
    assembly: &Assembly<'_>,
    found: Option<Found>,
) -> Result<Result<World, NoWorld>, AllocError>
    ensures world { IfOk result (λ named. named ≡ world_found assembly.now found) }
    ensures can_be_run { IfOk result (λ named. IfOk named CanBeRun) }
    ensures method { IfOk result (λ named. IfOk named (λ world. 0 < length world.units)) }
{
    match found {
        None => Ok(Err(NoWorld::NoMethod)),
        Some(Found::Several) => Ok(Err(NoWorld::SeveralMethods)),
        Some(Found::One(token)) => token_world(alloc, assembly, token),
    }
}

/// The world of the method of a name in the assembly that a file is, of which the method is the first. An error says
/// that memory ran out.
pub(crate) fn named_world(
    alloc: Global,
    method: &[u8],
    bytes: &[u8],
) -> Result<Result<World, NoWorld>, AllocError>
    ensures world { IfOk result (λ named. named ≡ world_named method.now bytes.now (FirstBroken bytes.now)) }
    ensures can_be_run { IfOk result (λ named. IfOk named CanBeRun) }
    ensures method { IfOk result (λ named. IfOk named (λ world. 0 < length world.units)) }
{
    match Assembly::read(alloc, bytes) {
        Err(AsmRefusal::NoMemory) => Err(AllocError),
        Err(AsmRefusal::Bad(fault)) => Ok(Err(NoWorld::Refused(fault))),
        Ok(assembly) => found_world(alloc, &assembly, assembly.find(method)),
    }
}

/// Answers that a method named in a file of this name has no world.
pub(crate) fn answer_no_world<E: Sink>(
    alloc: Global,
    name: &[u8],
    none: NoWorld,
    err: &mut E,
) -> Result<u8, Interrupt>
    ensures status { IfOk result (λ status. status ≡ (no_world_answer name.now none).status) }
    ensures written { Writes result (change_of E.written E.puts E.faults err.old err.new) (no_world_answer name.now none).err }
{
    match none {
        NoWorld::Refused(fault) => {
            answer_refused(alloc, name, assembly_fault_text(fault.cause), fault.at, err)
        }
        NoWorld::NoMethod => answer_misfit(alloc, b"no method", err),
        NoWorld::SeveralMethods => answer_misfit(alloc, b"several methods", err),
        NoWorld::NotAnalysed => answer_misfit(alloc, b"not analysed", err),
    }
}
