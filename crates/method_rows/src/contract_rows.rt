//! Trees of clauses of more instructions than a method may have, which no command comes to.

use crate::steps::{joined, shape};
use cc_base::Refusal;
use cil_model::Place;
use clause_faults::ClauseFault;
use contract_extract::extract;
use il_decoder::decode;
use std::alloc::{AllocError, Global};
use std::process::Abort;
use std::test::Fail;

/// The first fault of the clauses of code in a method with result int32, if it has one.
#[tactic(auto, using(cil_model::proofs::ShortCodes::code_is_short))]
fn fault_of(
    rt: &impl Abort,
    alloc: Global,
    code: &[u8],
) -> Result<Option<ClauseFault>, AllocError> {
    assert!(rt; code.len() <= 100_000);
    let shape = shape(alloc, Place::Int, 8)?;
    let Ok(instrs) = decode(alloc, code) else {
        panic!(rt; "no code");
    };
    match extract(alloc, &instrs, &shape) {
        Ok(_) => Ok(None),
        Err(Refusal::Bad(fault)) => Ok(Some(fault)),
        Err(Refusal::NoMemory) => Err(AllocError),
    }
}

/// A Requires of so many operators of one number over an argument.
fn operators(alloc: Global, count: usize) -> Result<Vec<u8>, AllocError> {
    let many = vec![in alloc; 0x65; count]?;
    joined(alloc, &[b"\x02", &many, b"\x28\x01\0\0\0\x2a"])
}

#[test]
fn a_tree_of_code_has_4096_nodes(rt: HostRuntime) -> Result<(), Fail> {
    let alloc = rt.alloc();
    let rows = [
        (4095, None),
        (4096, Some(ClauseFault::TooLong(4097))),
        (60_000, Some(ClauseFault::TooLong(60_001))),
    ];
    for (count, fault) in rows {
        let code = operators(alloc, count)?;
        assert_eq!(rt; fault_of(&rt, alloc, &code)?, fault);
    }
    Ok(())
}
