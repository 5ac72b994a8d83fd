//! The file of a class `Demo.Calc` with one method.

use asm_writer::{AsmPlan, MethodPlan, WriteRefusal, write_assembly};
use cil_model::Place;
use std::alloc::{AllocError, Global};

/// The method `void Nothing()`.
fn nothing(alloc: Global) -> Result<MethodPlan, AllocError> {
    let name = Vec::from_slice(alloc, b"Nothing")?;
    let code = Vec::from_slice(alloc, b"\x2a")?;
    Ok(MethodPlan {
        name,
        is_static: true,
        result: Place::Void,
        args: Vec::new(alloc),
        locals: Vec::new(alloc),
        max_stack: 8,
        code,
    })
}

/// The class with this method.
fn plan(alloc: Global) -> Result<AsmPlan, AllocError> {
    let namespace = Vec::from_slice(alloc, b"Demo")?;
    let class = Vec::from_slice(alloc, b"Calc")?;
    let method = nothing(alloc)?;
    let methods = vec![in alloc; method]?;
    Ok(AsmPlan {
        namespace,
        class,
        wide: false,
        methods,
    })
}

/// The file of the class with this method.
pub fn file(alloc: Global) -> Result<Vec<u8>, WriteRefusal> {
    let plan = plan(alloc)?;
    write_assembly(alloc, &plan)
}
