//! The whole file, and what passes a limit.

ghost use Rattle.std.specs.Prelude.{◌≡◌, ◌++◌, ◌<◌, ◌^◌, All, IfOk, IsErrOf, IsTrue, IsFalse, length};
ghost use Rattle.std.specs.List.{list_all};
ghost use Rattle.asm_writer.specs.Assembly.{section, linked_bytes, assembly_bytes};
ghost use Rattle.asm_writer.specs.Limits.{is_within, is_short_extern};
ghost use Rattle.asm_writer.specs.Linked.{linked};
ghost use Rattle.asm_writer.specs.Sizes.{fits, file_size, linked_fits, linked_size};

use crate::headers::{BODIES_RVA, FILE_ALIGNMENT, append_cli_header, headers};
use crate::layout::Layout;
use crate::metadata::metadata;
use crate::padding::pad;
use crate::plan::{AsmPlan, Extern, MethodPlan, WriteRefusal};
use cil_model::{MAX_CODE_BYTES, MAX_FILE_BYTES, MAX_VARIABLES};
use std::alloc::{AllocError, Global};

/// A token has 24 bits for a row (III.1.9).
const TOO_MANY_ROWS: usize = 1 << 24;

/// Returns whether the method keeps the limits on its code and on its variables.
#[tactic(auto, unfolding(crate::specs::Limits::is_within))]
fn is_within(method: &MethodPlan) -> bool
    ensures { result ≡ is_within method.now }
{
    let args = method.args.len();
    let locals = method.locals.len();
    method.code.len() <= MAX_CODE_BYTES
        && args <= MAX_VARIABLES
        && locals <= MAX_VARIABLES
        && args + locals + method.max_stack as usize <= MAX_VARIABLES
}

/// Returns whether all methods keep their limits.
fn all_within(methods: &[MethodPlan]) -> bool
    ensures { result ≡ list_all is_within methods.now }
{
    methods.iter().all(is_within)
}

/// Returns whether the extern keeps the limit on its arguments.
#[tactic(auto, unfolding(crate::specs::Limits::is_short_extern))]
fn is_short_extern(method: &Extern) -> bool
    ensures { result ≡ is_short_extern method.now }
{
    method.args.len() <= MAX_VARIABLES
}

/// Returns whether all externs keep their limit.
fn all_short(externs: &[Extern]) -> bool
    ensures { result ≡ list_all is_short_extern externs.now }
{
    externs.iter().all(is_short_extern)
}

/// The section (II.25.3), of these bodies and this metadata.
#[tactic(auto, unfolding(crate::specs::Assembly::section, crate::specs::Numbers::numbers_width))]
fn section(alloc: Global, bodies: &[u8], metadata: &[u8]) -> Result<Vec<u8>, AllocError>
    ensures { IfOk result (λ bytes. bytes.items ≡ section bodies.now metadata.now) }
{
    let mut out = Vec::new(alloc);
    let metadata_rva = BODIES_RVA + bodies.len() as u64;
    append_cli_header(&mut out, metadata_rva, metadata.len() as u64)?;
    out.extend_from_slice(bodies)?;
    out.extend_from_slice(metadata)?;
    pad(&mut out, FILE_ALIGNMENT)?;
    Ok(out)
}

/// The bytes of the plan's assembly, whatever its size.
#[tactic(auto, unfolding(crate::specs::Assembly::linked_bytes))]
fn file(
    alloc: Global,
    plan: &AsmPlan,
    assembly: &[u8],
    externs: &[Extern],
) -> Result<Vec<u8>, AllocError>
    requires within { All (λ m. IsTrue (is_within m)) plan.now.methods.items }
    requires short { All (λ e. IsTrue (is_short_extern e)) externs.now }
    requires few { length plan.now.methods.items < 2 ^ 24 }
    requires few_externs { length externs.now < 2 ^ 24 }
    ensures { IfOk result
        (λ file. file.items ≡ linked_bytes (linked plan.now assembly.now externs.now)) }
{
    let layout = Layout::new(alloc, plan, assembly, externs)?;
    let metadata = metadata(alloc, &layout, &plan.methods)?;
    let section = section(alloc, &layout.bodies.bytes, &metadata)?;
    let mut file = headers(alloc, plan.wide, section.len() as u64)?;
    file.extend_from_slice(&section)?;
    Ok(file)
}

/// The bytes of the plan's assembly, with this name, whose code may call these methods of others. The first of them has
/// row 2 of AssemblyRef, row 5 of TypeRef and row 12 of MemberRef, and so the token 0a00000c; each further one has the
/// next row of each. `TooLarge` comes exactly where the file would have more than `MAX_FILE_BYTES`, or a method or an
/// extern passes `MAX_CODE_BYTES` or `MAX_VARIABLES`.
///
/// Cost: linear in the length of the file.
#[tactic(auto, using(crate::proofs::Lengths::length_linked), unfolding(crate::specs::Sizes::linked_fits))]
pub fn write_linked(
    alloc: Global,
    plan: &AsmPlan,
    assembly: &[u8],
    externs: &[Extern],
) -> Result<Vec<u8>, WriteRefusal>
    ensures written { IfOk result
        (λ file. file.items ≡ linked_bytes (linked plan.now assembly.now externs.now)) }
    ensures size { IfOk result
        (λ file. length file.items ≡ linked_size (linked plan.now assembly.now externs.now)) }
    ensures fits { IfOk result
        (λ file. IsTrue (linked_fits (linked plan.now assembly.now externs.now))) }
    ensures too_large { IsErrOf result WriteRefusal.TooLarge →
        IsFalse (linked_fits (linked plan.now assembly.now externs.now)) }
{
    if plan.methods.len() >= TOO_MANY_ROWS || !all_within(&plan.methods) {
        return Err(WriteRefusal::TooLarge);
    }
    if externs.len() >= TOO_MANY_ROWS || !all_short(externs) {
        return Err(WriteRefusal::TooLarge);
    }
    let file = file(alloc, plan, assembly, externs)?;
    if file.len() > MAX_FILE_BYTES as usize {
        return Err(WriteRefusal::TooLarge);
    }
    Ok(file)
}

/// The bytes of the plan's assembly, which has the name of its class and calls no methods of others. `TooLarge` comes
/// exactly where the file would have more than `MAX_FILE_BYTES` or a method passes `MAX_CODE_BYTES` or `MAX_VARIABLES`.
#[tactic(auto, unfolding(crate::specs::Assembly::assembly_bytes, crate::specs::Sizes::file_size, crate::specs::Sizes::fits))]
pub fn write_assembly(alloc: Global, plan: &AsmPlan) -> Result<Vec<u8>, WriteRefusal>
    ensures written { IfOk result (λ file. file.items ≡ assembly_bytes plan.now) }
    ensures size { IfOk result (λ file. length file.items ≡ file_size plan.now) }
    ensures fits { IfOk result (λ file. IsTrue (fits plan.now)) }
    ensures too_large { IsErrOf result WriteRefusal.TooLarge → IsFalse (fits plan.now) }
{
    write_linked(alloc, plan, &plan.class, &[])
}
