//! Why bytes are no cache.

ghost use Rattle.std.specs.Prelude.{◌≡◌};
ghost use Rattle.cc_base.specs.declared.refusal.Refusal.TheVariants.{Bad};

use cc_base::Refusal;
use thiserror::Error;

/// The first thing that is wrong with a cache file, with its offset where it has one.
#[derive(Clone, Copy, Debug, PartialEq, Eq, Error)]
pub enum CacheFault {
    /// The file has another version of the form.
    #[error("version")]
    Version,
    /// A field passes the end of the file.
    #[error("short at {0:08x}")]
    Short(u32),
    /// A field breaks the form, or bytes are left after the last entry.
    #[error("form at {0:08x}")]
    Form(u32),
    /// The file has more bytes than a cache may have.
    #[error("too large")]
    Large,
}

/// Why a cache was not read: the first fault of its file, or memory ran out.
pub type CacheRefusal = Refusal<CacheFault>;

impl From<CacheFault> for Refusal<CacheFault> {
    ghost from_gives = { λ fault refusal. refusal ≡ Bad fault };

    fn from(fault: CacheFault) -> Refusal<CacheFault> {
        Refusal::Bad(fault)
    }
}
