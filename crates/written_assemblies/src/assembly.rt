//! The assembly that is read of a file that was written.

ghost use Rattle.std.specs.Prelude.{◌≡◌, ℕ, None, Some, IsTrue, IfOk};
ghost use Rattle.asm_image.specs.Faults.{FirstBroken};
ghost use Rattle.asm_image.specs.Members.{assembly_name, member_of};
ghost use Rattle.asm_image.specs.Reading.{Reads};
ghost use Rattle.asm_image.specs.Rows.{methods_of};
ghost use Rattle.pe_reader.specs.Addresses.{metadata};
ghost use Rattle.asm_writer.specs.declared.plan.MethodPlan.{MethodPlan};
ghost use Rattle.asm_writer.specs.Assembly.{linked_bytes, assembly_bytes};
ghost use Rattle.asm_writer.specs.Linked.{linked};
ghost use Rattle.asm_writer.specs.Sizes.{fits, linked_fits};
ghost use Rattle.written_assemblies.specs.BodiesRead.{IsMethodAt, ReadsBody};
ghost use Rattle.written_assemblies.specs.Externs.{IsExternAt, extern_token, extern_key};
ghost use Rattle.written_assemblies.specs.Methods.{written_methods};
ghost use Rattle.written_assemblies.specs.Readable.{IsReadable, IsReadableLinked};

use asm_image::Assembly;
use asm_writer::{AsmPlan, Extern};
use cc_base::{NoMemory, Refusal};
use std::alloc::{AllocError, Global};

/// Reads a file that has no fault. It is not refused, unless memory runs out.
///
/// Cost: that of reading the assembly.
pub fn read_accepted<'a>(alloc: Global, bytes: &'a [u8]) -> Result<Assembly<'a>, NoMemory>
    requires accepted { FirstBroken bytes.now ≡ None }
    ensures { IfOk result (Reads bytes.now) }
{
    match Assembly::read(alloc, bytes) {
        Ok(assembly) => Ok(assembly),
        Err(Refusal::NoMemory) => Err(AllocError),
        Err(Refusal::Bad(_)) => unreachable!(),
    }
}

/// Reads the file that was written for a plan, with a name of its assembly and with methods of others that its code may
/// call. It is not refused, unless memory runs out. Its methods are those of the plan, and its name and its references
/// to methods of others are these.
///
/// Cost: that of reading the assembly.
pub fn read_linked<'a>(
    alloc: Global,
    plan: &AsmPlan,
    assembly: &[u8],
    externs: &[Extern],
    bytes: &'a [u8],
) -> Result<Assembly<'a>, NoMemory>
    requires written { bytes.now ≡ linked_bytes (linked plan.now assembly.now externs.now) }
    requires fits { IsTrue (linked_fits (linked plan.now assembly.now externs.now)) }
    requires readable { IsReadableLinked (linked plan.now assembly.now externs.now) }
    // The file has no fault.
    ensures accepted { FirstBroken bytes.now ≡ None }
    // What is read is the file, and its methods are those of the plan, in its order.
    ensures value { IfOk result (Reads bytes.now) }
    ensures methods { methods_of bytes.now ≡ written_methods plan.now }
    // At each one's address stands its body: stack slots, locals and code.
    ensures bodies { (index : ℕ) (m : MethodPlan) → IsMethodAt plan.now index m →
        ReadsBody plan.now bytes.now index m }
    // The assembly has this name.
    ensures name { assembly_name (metadata bytes.now) ≡ Some assembly.now }
    // The token of each extern names it.
    ensures externs { (index : ℕ) (e : Extern) → IsExternAt externs.now index e →
        member_of (metadata bytes.now) (extern_token index) ≡ Some (extern_key e) }
{
    read_accepted(alloc, bytes)
}

/// Reads the file that was written for a plan. It is not refused, unless memory runs out, and its methods are those
/// of the plan.
///
/// Cost: that of reading the assembly.
pub fn read_written<'a>(
    alloc: Global,
    plan: &AsmPlan,
    bytes: &'a [u8],
) -> Result<Assembly<'a>, NoMemory>
    requires written { bytes.now ≡ assembly_bytes plan.now }
    requires fits { IsTrue (fits plan.now) }
    requires readable { IsReadable plan.now }
    // The file has no fault.
    ensures accepted { FirstBroken bytes.now ≡ None }
    // What is read is the file, and its methods are those of the plan, in its order.
    ensures value { IfOk result (Reads bytes.now) }
    ensures methods { methods_of bytes.now ≡ written_methods plan.now }
    // At each one's address stands its body: stack slots, locals and code.
    ensures bodies { (index : ℕ) (m : MethodPlan) → IsMethodAt plan.now index m →
        ReadsBody plan.now bytes.now index m }
    // The assembly has the name of its class.
    ensures name { assembly_name (metadata bytes.now) ≡ Some plan.now.class.items }
{
    read_linked(alloc, plan, &plan.class, &[], bytes)
}
