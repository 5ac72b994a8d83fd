//! The names that units have.

ghost use Rattle.std.specs.Prelude.{◌≡◌, ◌++◌, ⊤, ℕ, List};
ghost use Rattle.asm_image.specs.Names.{types_text};
ghost use Rattle.cc_base.specs.Tests.{Judges};
ghost use Rattle.signature_blobs.specs.declared.method.SigTypes.{SigTypes};
ghost use Rattle.unit_builder.specs.Callees.{unit_name};
ghost use Rattle.unit_builder.specs.Reasons.{is_short_name, name_test};
ghost use Rattle.unit_builder.specs.Rows.{IsRowOf};

use crate::reason::Reason;
use asm_image::MethodRow;
use cil_model::MAX_NAME_BYTES;

/// A printed name up to the types of its parameters.
fn up_to_types(name: &[u8]) -> &[u8]
    ensures { (prefix : List ℕ) (types : SigTypes) → name.now ≡ prefix ++ types_text types → result.now ≡ prefix }
{
    match name.iter().rposition(|&byte| byte == b'(') {
        Some(end) => &name[..end],
        None => name,
    }
}

/// The printed name of a method of an assembly up to the types of its parameters.
pub(crate) fn unit_name(method: &MethodRow) -> &[u8]
    requires row { (asm : List ℕ) × IsRowOf asm method.now }
    ensures { result.now ≡ unit_name method.now }
{
    up_to_types(method.name.as_slice())
}

/// Returns whether a name of so many bytes fits a unit.
pub(crate) fn is_short_name(name: &[u8]) -> bool
    ensures { result ≡ is_short_name name.now }
{
    name.len() <= MAX_NAME_BYTES
}

/// Tests that the name of a method fits its unit.
pub(crate) fn check_name(method: &MethodRow) -> Result<(), Reason>
    requires row { (asm : List ℕ) × IsRowOf asm method.now }
    ensures { Judges result (name_test method.now) (λ _. ⊤) }
{
    if is_short_name(unit_name(method)) {
        Ok(())
    } else {
        Err(Reason::TooLarge)
    }
}
