//! The locals and the stack size of a method, from the header of its body.

ghost use Rattle.std.specs.Prelude.{◌≡◌, ◌≤◌, ⊤, ℕ, List, length, option_map, Some, IfOk};
ghost use Rattle.cc_base.specs.Tests.{first_of, Judges};
ghost use Rattle.il_decoder.specs.Body.{header_at};
ghost use Rattle.method_code.specs.OfMethods.{args_of};
ghost use Rattle.unit_builder.specs.Bodies.{header_of, locals_named, locals_told};
ghost use Rattle.unit_builder.specs.Reasons.{header_tests};
ghost use Rattle.unit_builder.specs.Rows.{IsRowOf};

use crate::names::check_name;
use crate::reason::Reason;
use asm_image::{Assembly, MethodRow};
use cil_model::{MAX_CODE_BYTES, MAX_VARIABLES};
use il_decoder::{Header, header_at};
use signature_blobs::{LocalSig, Places};

/// The variables of a method besides its arguments.
#[derive(Drop)]
pub(crate) struct Variables {
    /// The types of its locals.
    pub locals: Places,
    /// The number of values that its stack holds at most.
    pub max_stack: u16,
}

/// Returns the types of the locals that a header names. None where these do not read or are outside the profile.
#[tactic(auto, unfolding(crate::specs::Bodies::locals_named))]
fn locals_named(assembly: &Assembly<'_>, header: Header) -> Option<Places>
    ensures { result ≡ locals_named assembly.now header }
{
    match assembly.locals_of(header.local_token) {
        Some(LocalSig::Known(locals)) => Some(locals),
        _ => None,
    }
}

/// Tests a header of a method with so many arguments, and then the method's name.
#[tactic(auto, unfolding(cc_base::specs::Tests::first_of, crate::specs::Reasons::header_tests, crate::specs::Bodies::locals_told))]
fn check_header(
    assembly: &Assembly<'_>,
    method: &MethodRow,
    args: usize,
    header: Header,
) -> Result<Variables, Reason>
    requires row { IsRowOf assembly.now method.now }
    requires args { args ≡ length (args_of method.now.sig.types) }
    requires few { args ≤ 256 }
    ensures judged { Judges result (first_of (header_tests assembly.now method.now (Some header)))
        (λ told. (told.locals ≡ locals_told assembly.now header) × (told.max_stack ≡ header.max_stack)) }
{
    let locals = locals_named(assembly, header).ok_or(Reason::LocalType)?;
    if locals.len() > 0 && !header.init_locals {
        return Err(Reason::LocalsNotZero);
    }
    if header.more_sections {
        return Err(Reason::Section);
    }
    if header.code_len as usize > MAX_CODE_BYTES {
        return Err(Reason::TooLarge);
    }
    if args + locals.len() + usize::from(header.max_stack) > MAX_VARIABLES {
        return Err(Reason::TooLarge);
    }
    check_name(method)?;
    Ok(Variables {
        locals,
        max_stack: header.max_stack,
    })
}

/// Tests the header of a method with so many arguments, and then the method's name. Where no header reads, the method
/// counts
/// as one without locals and with a stack of 8, as a tiny header says.
#[tactic(auto, unfolding(cc_base::specs::Tests::first_of, crate::specs::Reasons::header_tests, crate::specs::Bodies::header_of))]
pub(crate) fn read_variables(
    assembly: &Assembly<'_>,
    method: &MethodRow,
    args: usize,
) -> Result<Variables, Reason>
    requires row { IsRowOf assembly.now method.now }
    requires args { args ≡ length (args_of method.now.sig.types) }
    requires few { args ≤ 256 }
    ensures judged { Judges result (first_of (header_tests assembly.now method.now (header_at assembly.now method.now.rva)))
        (λ told. (told.locals ≡ locals_told assembly.now (header_of assembly.now method.now)) × (told.max_stack ≡ (header_of assembly.now method.now).max_stack)) }
{
    if let Some(header) = header_at(assembly.image(), method.rva) {
        return check_header(assembly, method, args, header);
    }
    check_name(method)?;
    Ok(Variables {
        locals: Places::new(),
        max_stack: 8,
    })
}
