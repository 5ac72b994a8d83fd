//! The answer to `verify FILE F`.

#![tactic(auto, using(cc_base::proofs::SinkLemmas::sinks, cc_base::proofs::CountLemmas::counts, answer_lines::proofs::LineLemmas::puts_none))]

ghost use Rattle.std.specs.Prelude.{◌≡◌, ◌≢◌, [], ◌∷◌, IfOk, None, Option, false};
ghost use Rattle.answer_lines.specs.Outcome.{Gives};
ghost use Rattle.answer_lines.specs.Writing.{change_of};
ghost use Rattle.asm_image.specs.Faults.{FirstBroken};
ghost use Rattle.check_driver.specs.Checked.{AreBegun};
ghost use Rattle.check_driver.specs.Expected.{answer_by, verify_answer};
ghost use Rattle.check_driver.specs.ProofMet.{IsReadOf};
ghost use Rattle.proof_files.specs.Reading.{ProofRead};
ghost use Rattle.unit_verdicts.specs.Picks.{Manner};

use crate::check_answer::answer_assembly;
use crate::proof_fault::{proof_fault_at, proof_fault_text};
use answer_lines::{Interrupt, answer_refused};
use asm_image::{AsmRefusal, Assembly};
use assembly_answers::assembly_fault_text;
use cc_base::Sink;
use proof_files::{ProofRefusal, read_proof};
use std::alloc::Global;
use unit_verdicts::VerdictCache;
use widening_engine::Finder;

/// Answers for an assembly by the bytes of the proof file of this name.
fn answer_by<O: Sink, E: Sink, D: Finder>(
    alloc: Global,
    name: &[u8],
    assembly: &Assembly<'_>,
    by: &[u8],
    proof: &[u8],
    out: &mut O,
    err: &mut E,
    finder: &mut D,
) -> Result<u8, Interrupt>
    ensures answer { (read : Option ProofRead) × IsReadOf proof.now read
        × Gives (answer_by name.now assembly.now by.now read) result
        (change_of O.written O.puts O.faults out.old out.new) (change_of E.written E.puts E.faults err.old err.new) }
    ensures begun { (manner : Manner) × AreBegun false manner ((name.now, assembly.now) ∷ []) (O.written out.old) (O.written out.new) }
    ensures memory { IfOk result (λ status. status ≢ 7) }
    ensures asked { D.asked finder.new ≡ D.asked finder.old }
{
    match read_proof(alloc, proof) {
        Err(ProofRefusal::NoMemory) => Err(Interrupt::NoMemory),
        Err(ProofRefusal::Bad(fault)) => {
            let text = proof_fault_text(fault);
            answer_refused(alloc, by, text, proof_fault_at(fault), err)
        }
        Ok(entries) => {
            let mut units = VerdictCache::of_proof(alloc, entries)?;
            answer_assembly(alloc, name, assembly, false, &mut units, out, finder)
        }
    }
}

/// Answers `verify FILE F` for the bytes of both, of each at most `READ_LIMIT`: the report of the assembly, in which
/// each unit is judged under the states of its entry in the proof file, or where it has none under those of no blocks.
/// No invariant is shown, and none is asked for. An assembly that is refused is told before the proof file is read.
///
/// Cost: the proof file is read in one pass, and its entries are kept until the answer is given. The report takes what
/// that of `check` takes without the finder.
pub fn answer_verify<O: Sink, E: Sink, D: Finder>(
    alloc: Global,
    name: &[u8],
    bytes: &[u8],
    by: &[u8],
    proof: &[u8],
    out: &mut O,
    err: &mut E,
    finder: &mut D,
) -> Result<u8, Interrupt>
    ensures answer { (read : Option ProofRead) × IsReadOf proof.now read
        × Gives (verify_answer name.now by.now read bytes.now (FirstBroken bytes.now)) result
        (change_of O.written O.puts O.faults out.old out.new) (change_of E.written E.puts E.faults err.old err.new) }
    ensures begun { (manner : Manner) × AreBegun false manner ((name.now, bytes.now) ∷ []) (O.written out.old) (O.written out.new) }
    ensures memory { IfOk result (λ status. status ≢ 7) }
    ensures asked { D.asked finder.new ≡ D.asked finder.old }
{
    match Assembly::read(alloc, bytes) {
        Err(AsmRefusal::NoMemory) => Err(Interrupt::NoMemory),
        Err(AsmRefusal::Bad(fault)) => {
            answer_refused(alloc, name, assembly_fault_text(fault.cause), fault.at, err)
        }
        Ok(assembly) => answer_by(alloc, name, &assembly, by, proof, out, err, finder),
    }
}
