//! Assemblies that are generated to be written and read.
//!
//! The file that `gen` reports is a function of its words (`generated_file`): a clause that asks for some plan would
//! have none to name where memory runs out before the plan is made.

ghost use Rattle.std.specs.Prelude.{◌≡◌, ◌≤◌, None, IfOk, IsTrue};
ghost use Rattle.asm_image.specs.Faults.{FirstBroken};
ghost use Rattle.asm_writer.specs.Generator.{generated};
ghost use Rattle.asm_writer.specs.Plans.{value};
ghost use Rattle.asm_writer.specs.Sizes.{fits};
ghost use Rattle.written_assemblies.specs.GeneratedFiles.{generated_file};
ghost use Rattle.written_assemblies.specs.Readable.{IsReadable};

use asm_writer::{AsmPlan, WriteRefusal, generate, write_assembly};
use cc_base::NoMemory;
use std::alloc::{AllocError, Global};

/// The plan of so many methods that is generated from a seed. Once it is written it reads back, and of at most 10,000
/// methods it is small enough to be written.
///
/// Cost: linear in the count.
#[tactic(auto, using(crate::proofs::GeneratedLemmas::generated_readable, crate::proofs::SmallFiles::generated_fits))]
pub fn generated_plan(alloc: Global, seed: u32, count: u32) -> Result<AsmPlan, NoMemory>
    ensures value { IfOk result (λ plan. value plan ≡ generated seed count) }
    ensures readable { IfOk result IsReadable }
    ensures fits { count ≤ 10000 → IfOk result (λ plan. IsTrue (fits plan)) }
{
    generate(alloc, seed, count)
}

/// The file of the assembly of so many methods that is generated from a seed. It is not refused.
///
/// Cost: linear in the count. The plan and the parts of the file are held until the file is made.
#[tactic(auto, using(crate::proofs::GeneratedFiles::generated_is, crate::proofs::AloneLemmas::alone_passes))]
pub fn generated_file(alloc: Global, seed: u32, count: u32) -> Result<Vec<u8>, NoMemory>
    requires few { count ≤ 10000 }
    ensures value { IfOk result (λ file. file.items ≡ generated_file seed count) }
    ensures accepted { IfOk result (λ file. FirstBroken file.items ≡ None) }
{
    let plan = generated_plan(alloc, seed, count)?;
    match write_assembly(alloc, &plan) {
        Ok(file) => Ok(file),
        Err(WriteRefusal::NoMemory) => Err(AllocError),
        Err(WriteRefusal::TooLarge) => unreachable!(),
    }
}
