//! Prefixes of texts.

ghost use Rattle.std.specs.Prelude.{◌≡◌, option_map};
ghost use Rattle.invariant_reader.specs.Prefixes.{behind};

/// The text behind a prefix. None where it does not begin with it.
pub(crate) fn behind<'a>(text: &'a [u8], prefix: &[u8]) -> Option<&'a [u8]>
    ensures { option_map (λ rest. rest.now) result ≡ behind prefix.now text.now }
{
    text.strip_prefix(prefix)
}
