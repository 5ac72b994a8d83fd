//! The code of a method, read.

ghost use Rattle.std.specs.Prelude.{◌≡◌, ℕ, List, IfOk};
ghost use Rattle.cc_base.specs.Slices.{IsShort};
ghost use Rattle.std.specs.List.{AllByRecursion, list_all};
ghost use Rattle.cc_base.specs.Tests.{first_of, Judges, JudgesOrNoMemory};
ghost use Rattle.cil_model.specs.Code.{MeetsStarts};
ghost use Rattle.cil_model.specs.ShortCode.{AreOfShortCode};
ghost use Rattle.cil_model.specs.WellFormed.{ClausesWithinLimits};
ghost use Rattle.cil_model.specs.declared.instruction.Instr.{Instr};
ghost use Rattle.clause_faults.specs.Faults.{first_clause_fault};
ghost use Rattle.contract_extract.specs.Extracting.{AreContracts};
ghost use Rattle.asm_image.specs.declared.method_row.MethodRow.{MethodRow};
ghost use Rattle.il_decoder.specs.Decoding.{code_tests};
ghost use Rattle.method_code.specs.Meanings.{Meaning};
ghost use Rattle.method_code.specs.OfMethods.{bare_shape, clauses_of, is_number_clause};
ghost use Rattle.method_code.specs.Reading.{IsCodeOf, IsReadOf, with_instrs};

use crate::clause_numbers::are_number_clauses;
use crate::numbers::decode_numbered;
use crate::tokens::Tokens;
use asm_image::MethodRow;
use cc_base::{NoMemory, Refusal};
use cil_model::{Clause, Instr, List, Place, Shape};
use clause_faults::ClauseFault;
use contract_extract::{Contracts, extract};
use il_decoder::IlRefusal;
use signature_blobs::SigTypes;
use std::alloc::{AllocError, Global};

/// The code of a method, with numbers of its unit in place of tokens, and what its contract block says.
#[derive(Drop)]
pub struct MethodCode {
    /// The instructions. The operands of calls, of new arrays, of items' addresses and of texts are numbers of the unit.
    pub instrs: List<Instr>,
    /// The keys of the methods that the code calls, each once, in order of first use.
    pub callees: List<u64>,
    /// The clauses and the start of the body, or the first fault of the clauses.
    pub contracts: Result<Contracts, ClauseFault>,
    /// Where there is no fault: whether each clause is a number.
    pub are_numbers: bool,
}

impl MethodCode {
    /// Returns what callers know of the method: its clauses, where they were read and each of them is a number; else
    /// none.
    /// The instructions may have been moved away.
    pub fn clauses(&self) -> &[Clause]
        ensures known { (meaning : Meaning) (asm : List ℕ) (method : MethodRow) (instrs : List Instr)
            → IsCodeOf meaning asm method (with_instrs instrs self.now) → result.now ≡ clauses_of meaning asm method }
    {
        match &self.contracts {
            Ok(contracts) if self.are_numbers => contracts.clauses.as_slice(),
            _ => &[],
        }
    }
}

/// A shape with the result and the arguments of a method, and with nothing else.
fn bare_shape(alloc: Global, method: &MethodRow) -> Result<Shape, NoMemory>
    ensures { IfOk result (λ shape. shape ≡ bare_shape method.now) }
{
    let (result, args) = match &method.sig.types {
        SigTypes::Known(signature) => (signature.result, signature.args.to_vec(alloc)?),
        SigTypes::Other => (Place::Void, Vec::new(alloc)),
    };
    Ok(Shape {
        result,
        args: List::from_vec(args),
        locals: List::from_vec(Vec::new(alloc)),
        max_stack: 0,
        callees: List::from_vec(Vec::new(alloc)),
    })
}

/// The clauses of instructions of this shape, or their first fault.
fn read_contracts(
    alloc: Global,
    instrs: &[Instr],
    shape: &Shape,
) -> Result<Result<Contracts, ClauseFault>, NoMemory>
    requires lie { AreOfShortCode instrs.now }
    requires targets { AllByRecursion (MeetsStarts instrs.now) instrs.now }
    ensures judged { IfOk result (λ contracts. Judges contracts (first_clause_fault instrs.now shape.now)
        (λ contracts. AreContracts instrs.now contracts.clauses contracts.body_start)) }
    ensures limits { IfOk result (λ contracts. IfOk contracts (λ contracts. ClausesWithinLimits contracts.clauses)) }
{
    match extract(alloc, instrs, shape) {
        Ok(contracts) => Ok(Ok(contracts)),
        Err(Refusal::Bad(fault)) => Ok(Err(fault)),
        Err(Refusal::NoMemory) => Err(AllocError),
    }
}

/// Returns whether clauses were read, and each of them is a number.
fn are_numbers(shape: &Shape, contracts: &Result<Contracts, ClauseFault>) -> bool
    ensures { IfOk contracts.now (λ contracts. result ≡ list_all (is_number_clause shape.now) contracts.clauses) }
{
    match contracts {
        Ok(contracts) => are_number_clauses(shape, contracts.clauses.as_slice()),
        Err(_) => false,
    }
}

/// Reads code that belongs to a method, and whose tokens mean what is told here: its instructions, and its clauses, by
/// the method's signature. An error is the first fault of the code, or that memory ran out.
///
/// Cost: linear in the code, but for the look-up of branch targets, and what `extract` costs.
pub fn read_code<T: Tokens>(
    alloc: Global,
    tokens: &T,
    method: &MethodRow,
    code: &[u8],
) -> Result<MethodCode, IlRefusal>
    requires short { IsShort code.now }
    // The first fault of the code is named. Else all of it is read.
    ensures judged { JudgesOrNoMemory result (first_of (code_tests code.now))
        (IsReadOf (T.meaning tokens.now) method.now code.now) }
{
    let numbered = decode_numbered(alloc, tokens, code)?;
    let shape = bare_shape(alloc, method)?;
    let contracts = read_contracts(alloc, &numbered.instrs, &shape)?;
    let are_numbers = are_numbers(&shape, &contracts);
    Ok(MethodCode {
        callees: List::from_vec(Vec::from_slice(alloc, numbered.callees.keys())?),
        instrs: List::from_vec(numbered.instrs),
        contracts,
        are_numbers,
    })
}
