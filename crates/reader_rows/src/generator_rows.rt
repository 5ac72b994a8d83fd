//! The names of the first methods that are generated from a seed, as they are read of the file that is written.

ghost use Rattle.std.specs.Prelude.{IfOk};
ghost use Rattle.written_assemblies.specs.Readable.{IsReadableExtern};

use asm_image::{Assembly, Member};
use asm_writer::{Extern, write_assembly, write_linked};
use cc_base::Token;
use cil_model::Place;
use std::alloc::{AllocError, Global};
use std::test::Fail;
use written_assemblies::{generated_plan, read_linked, read_written, written_image};

/// The printed names of the first seven methods of the seed 7.
const NAMES: [&[u8]; 7] = [
    b"Gen.W::m0(int32)",
    b"Gen.W::m1(int32,int32)",
    b"Gen.W::m2(int32[])",
    b"Gen.W::m3(int32[],int32)",
    b"Gen.W::m4(int32)",
    b"Gen.W::m5()",
    b"Gen.W::m6(int32)",
];

/// Returns whether the methods of an assembly have these names.
fn has_names(assembly: &Assembly<'_>) -> bool {
    for (method, name) in assembly.methods().iter().zip(NAMES.iter()) {
        if method.name.as_slice() != *name {
            return false;
        }
    }
    assembly.methods().len() == NAMES.len()
}

#[test]
fn a_generated_assembly_reads_back(rt: HostRuntime) -> Result<(), Fail> {
    let alloc = rt.alloc();
    let plan = generated_plan(alloc, 7, 7)?;
    let bytes = write_assembly(alloc, &plan)?;
    assert!(rt; written_image(&plan, &bytes).metadata().starts_with(b"BSJB"));
    assert!(rt; has_names(&read_written(alloc, &plan, &bytes)?));
    Ok(())
}

/// The method `bool D::n()` of the assembly `B`.
fn cited(alloc: Global) -> Result<Extern, AllocError>
    ensures { IfOk result IsReadableExtern }
{
    let assembly = Vec::from_slice(alloc, b"B")?;
    let class = Vec::from_slice(alloc, b"D")?;
    let name = Vec::from_slice(alloc, b"n")?;
    Ok(Extern {
        assembly,
        namespace: Vec::new(alloc),
        class,
        name,
        result: Place::Bool,
        args: Vec::new(alloc),
    })
}

/// Returns whether a member is that method, as far as its names go.
fn is_cited(member: &Member<'_>) -> bool {
    member.assembly == b"B".as_slice()
        && member.namespace.is_empty()
        && member.class == b"D".as_slice()
        && member.name == b"n".as_slice()
}

/// Returns whether an assembly is called `A`, and cites that method by the token 0a00000c.
fn cites(assembly: &Assembly<'_>) -> bool {
    match assembly.member_of(Token(0x0a00_000c)) {
        Some(member) => is_cited(&member) && assembly.assembly_name() == Some(b"A".as_slice()),
        None => false,
    }
}

#[test]
fn a_linked_assembly_reads_back(rt: HostRuntime) -> Result<(), Fail> {
    let alloc = rt.alloc();
    let plan = generated_plan(alloc, 7, 7)?;
    let method = cited(alloc)?;
    let externs = vec![in alloc; method]?;
    let bytes = write_linked(alloc, &plan, b"A", &externs)?;
    let assembly = read_linked(alloc, &plan, b"A", &externs, &bytes)?;
    assert!(rt; has_names(&assembly) && cites(&assembly));
    Ok(())
}
