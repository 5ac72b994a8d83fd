//! Methods that units may call.

ghost use Rattle.std.specs.Prelude.{◌≡◌};
ghost use Rattle.unit_builder.specs.Callable.{are_known, is_callable, is_static};

use asm_image::MethodRow;
use signature_blobs::SigTypes;

/// The bit of the column Flags that says that a method is static (II.23.1.10).
const STATIC: u16 = 0x0010;

/// Returns whether the method is static, and has no `this`.
pub(crate) fn is_static(method: &MethodRow) -> bool
    ensures { result ≡ is_static method.now }
{
    method.flags & STATIC != 0 && !method.sig.has_this
}

/// Returns whether each type of the signature is in the profile.
fn are_known(types: &SigTypes) -> bool
    ensures { result ≡ are_known types.now }
{
    matches!(types, SigTypes::Known(_))
}

/// Returns whether units may have an entry of the method among their callees: it is static and not generic, and each
/// type of its signature is in the profile.
pub(crate) fn is_callable(method: &MethodRow) -> bool
    ensures { result ≡ is_callable method.now }
{
    is_static(method) && !method.sig.generic && are_known(&method.sig.types)
}
