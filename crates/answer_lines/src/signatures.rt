//! Methods with the types of their parameters, as text.

ghost use Rattle.std.specs.Prelude.{◌≡◌, ◌++◌, OnOk};
ghost use Rattle.answer_lines.specs.Signatures.{signature_text};

use cil_model::{Place, append_parameters};
use std::alloc::{AllocError, Global};

/// Appends a method's name with the types of its parameters. An error may leave a part of it.
#[tactic(auto, unfolding(crate::specs::Signatures::signature_text))]
pub fn append_signature(
    alloc: Global,
    line: &mut Vec<u8>,
    name: &[u8],
    types: &[Place],
) -> Result<(), AllocError>
    ensures { OnOk result (line.new.items ≡ line.old.items ++ signature_text name.now types.now) }
{
    line.extend_from_slice(name)?;
    line.extend_from_slice(b"(")?;
    append_parameters(alloc, line, types)?;
    line.extend_from_slice(b")")
}
