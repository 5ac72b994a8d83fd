//! Methods and externs at the limits of the writer, and one past; a file of so many methods that indexes have four
//! bytes.

use asm_image::{Assembly, MethodRow};
use asm_writer::{AsmPlan, Extern, MethodPlan, WriteRefusal, write_assembly, write_linked};
use cc_base::Token;
use cil_model::Place;
use std::alloc::{AllocError, Global};
use std::test::Fail;

/// Numbers of arguments, of locals and of stack slots, bytes of code, and whether a method may have them.
const LIMITS: [(usize, usize, u16, usize, bool); 14] = [
    (2, 0, 254, 1, true),
    (2, 0, 255, 1, false),
    (256, 0, 0, 1, true),
    (257, 0, 0, 1, false),
    (0, 256, 0, 1, true),
    (0, 257, 0, 1, false),
    (0, 0, 256, 1, true),
    (0, 0, 257, 1, false),
    (128, 64, 64, 1, true),
    (128, 65, 64, 1, false),
    // The low byte of either number alone would pass.
    (0, 0, 512, 1, false),
    (1, 0, 65_535, 1, false),
    (0, 0, 8, 65_536, true),
    (0, 0, 8, 65_537, false),
];

/// The plan of a method of so many arguments, locals, stack slots and bytes of code.
fn plan_of(
    alloc: Global,
    args: usize,
    locals: usize,
    max_stack: u16,
    code: usize,
) -> Result<MethodPlan, AllocError> {
    let name = Vec::from_slice(alloc, b"m")?;
    let args = vec![in alloc; Place::Int; args]?;
    let locals = vec![in alloc; Place::Bools; locals]?;
    let code = vec![in alloc; 0; code]?;
    Ok(MethodPlan {
        name,
        is_static: true,
        result: Place::Void,
        args,
        locals,
        max_stack,
        code,
    })
}

/// The plan of a class with these methods.
fn class_of(alloc: Global, methods: Vec<MethodPlan>) -> Result<AsmPlan, AllocError> {
    let class = Vec::from_slice(alloc, b"C")?;
    Ok(AsmPlan {
        namespace: Vec::new(alloc),
        class,
        wide: false,
        methods,
    })
}

/// Returns whether an assembly is not written, as it is too large.
fn is_too_large(alloc: Global, plan: &AsmPlan) -> Result<bool, AllocError> {
    match write_assembly(alloc, plan) {
        Ok(_) => Ok(false),
        Err(WriteRefusal::TooLarge) => Ok(true),
        Err(WriteRefusal::NoMemory) => Err(AllocError),
    }
}

#[test]
fn methods_beyond_a_limit_are_not_written(rt: HostRuntime) -> Result<(), Fail> {
    let alloc = rt.alloc();
    for (args, locals, max_stack, code, is_within) in LIMITS {
        let method = plan_of(alloc, args, locals, max_stack, code)?;
        let plan = class_of(alloc, vec![in alloc; method]?)?;
        assert!(rt;
            is_too_large(alloc, &plan)? != is_within,
            "{args} {locals} {max_stack} {code}"
        );
    }
    Ok(())
}

/// Numbers of arguments of an extern, and whether it may have them. The low byte of the last alone would pass.
const EXTERN_LIMITS: [(usize, bool); 4] = [(0, true), (256, true), (257, false), (512, false)];

/// The extern with so many arguments.
fn extern_of(alloc: Global, args: usize) -> Result<Extern, AllocError> {
    let assembly = Vec::from_slice(alloc, b"B")?;
    let class = Vec::from_slice(alloc, b"D")?;
    let name = Vec::from_slice(alloc, b"n")?;
    let args = vec![in alloc; Place::Ints; args]?;
    Ok(Extern {
        assembly,
        namespace: Vec::new(alloc),
        class,
        name,
        result: Place::Bool,
        args,
    })
}

/// Returns whether no assembly is written of a class without methods that cites this extern, as it is too large.
fn is_too_long(alloc: Global, method: Extern) -> Result<bool, AllocError> {
    let plan = class_of(alloc, Vec::new(alloc))?;
    let externs = vec![in alloc; method]?;
    match write_linked(alloc, &plan, b"A", &externs) {
        Ok(_) => Ok(false),
        Err(WriteRefusal::TooLarge) => Ok(true),
        Err(WriteRefusal::NoMemory) => Err(AllocError),
    }
}

#[test]
fn externs_beyond_a_limit_are_not_written(rt: HostRuntime) -> Result<(), Fail> {
    let alloc = rt.alloc();
    for (args, is_within) in EXTERN_LIMITS {
        let method = extern_of(alloc, args)?;
        assert!(rt; is_too_long(alloc, method)? != is_within, "{args}");
    }
    Ok(())
}

/// So many plans of a method without arguments, whose code has one byte.
fn plans(alloc: Global, count: u32) -> Result<Vec<MethodPlan>, AllocError> {
    let mut plans = Vec::new(alloc);
    for _ in 0..count {
        plans.push(plan_of(alloc, 0, 0, 8, 1)?)?;
    }
    Ok(plans)
}

/// Returns whether the last of so many methods is there, by its token, its name and its address.
fn has_last(methods: &[MethodRow], count: usize) -> bool {
    methods.len() == count
        && match methods.last() {
            Some(last) => {
                last.token == Token(0x0601_0000)
                    && last.name.as_slice() == b"C::m()".as_slice()
                    && last.rva == 0x10_2038
            }
            None => false,
        }
}

#[test]
fn indexes_have_four_bytes_in_a_large_file(rt: HostRuntime) -> Result<(), Fail> {
    let alloc = rt.alloc();
    let plan = class_of(alloc, plans(alloc, 65_536)?)?;
    let bytes = write_assembly(alloc, &plan)?;
    // HeapSizes: `#Strings` and `#Blob` have indexes of four bytes.
    assert!(rt; bytes.get(0x10_02ba) == Some(&5));
    assert!(rt; has_last(Assembly::read(alloc, &bytes)?.methods(), 65_536));
    Ok(())
}
