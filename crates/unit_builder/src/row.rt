//! The tests of a method's row.

ghost use Rattle.std.specs.Prelude.{◌≡◌, ⊤};
ghost use Rattle.cc_base.specs.Tests.{first_of, Judges};
ghost use Rattle.unit_builder.specs.Reasons.{row_tests};

use crate::callable::is_static;
use crate::reason::Reason;
use asm_image::MethodRow;
use signature_blobs::{SigTypes, Signature};

/// Tests the row of a method, and answers the types of its signature.
#[tactic(auto, unfolding(cc_base::specs::Tests::first_of, crate::specs::Reasons::row_tests))]
pub(crate) fn check_row(method: &MethodRow) -> Result<&Signature, Reason>
    ensures { Judges result (first_of (row_tests method.now)) (λ signature. method.now.sig.types ≡ SigTypes.Known signature.now) }
{
    if !is_static(method) {
        return Err(Reason::Instance);
    }
    if method.sig.generic {
        return Err(Reason::Generic);
    }
    if !method.has_il_body() {
        return Err(Reason::NoBody);
    }
    match &method.sig.types {
        SigTypes::Known(signature) => Ok(signature),
        SigTypes::Other => Err(Reason::SignatureType),
    }
}
