//! The files that a program reads and replaces.
//!
//! A read is cut one byte after the largest file that is accepted, so that a larger file is reported as too large and
//! never as something else.

ghost use Rattle.std.specs.Prelude.{◌≡◌, ℕ, Option, None, IsSome, IsErrOf, IfOk, OnOk, ◌⊎◌};
ghost use Rattle.std.specs.Option.{ForSome};
ghost use Rattle.cc_base.specs.declared.files.ReadRefusal.TheVariants as reads;
ghost use Rattle.cc_base.specs.declared.files.ReplaceRefusal.TheVariants as replaces;
ghost use Rattle.cc_base.specs.Counts.{Rose, Kept};
ghost use Rattle.cc_base.specs.Files.{Held, IsRead, ToldReplaced};

use std::alloc::{AllocError, Global};

/// A read gives at most this many bytes: one more than the largest file that is accepted.
pub const READ_LIMIT: usize = 67_108_865;

/// Why a read gave nothing.
#[derive(Clone, Copy, Debug, PartialEq, Eq)]
pub enum ReadRefusal {
    /// Nothing is held under the name.
    Missing,
    /// A device refused.
    Failed,
    /// Memory ran out.
    NoMemory,
}

impl From<AllocError> for ReadRefusal {
    ghost from_gives = { λ _ e. e ≡ reads.NoMemory };

    fn from(_error: AllocError) -> ReadRefusal {
        ReadRefusal::NoMemory
    }
}

/// Why a file was not replaced.
#[derive(Clone, Copy, Debug, PartialEq, Eq)]
pub enum ReplaceRefusal {
    /// A device refused, before or after the new bytes took the name.
    Failed,
    /// Memory ran out, and nothing changed.
    NoMemory,
}

impl From<AllocError> for ReplaceRefusal {
    ghost from_gives = { λ _ e. e ≡ replaces.NoMemory };

    fn from(_error: AllocError) -> ReplaceRefusal {
        ReplaceRefusal::NoMemory
    }
}

/// Files under names.
pub trait Files {
    /// What is held, where the object tells it.
    ghost held: { Self → Option Held };

    /// How often a name was missing.
    ghost missed: { Self → ℕ };

    /// How often a device refused.
    ghost faults: { Self → ℕ };

    /// The bytes under a name, cut to the first `READ_LIMIT`.
    fn read(&mut self, alloc: Global, name: &str) -> Result<Vec<u8>, ReadRefusal>
        ensures unchanged { held self.new ≡ held self.old }
        ensures found { IfOk result (λ bytes. ForSome (held self.old) (λ h. IsRead (h name.now) bytes.items)) }

        // Where the files are told, a missing name is one that they lack, and only a name that they
        // hold is refused.
        ensures missing { IsErrOf result ReadRefusal.Missing → ForSome (held self.old) (λ h. h name.now ≡ None) }
        ensures present { IsErrOf result ReadRefusal.Failed → ForSome (held self.old) (λ h. IsSome (h name.now)) }

        // Each refusal has its cause.
        ensures missing_cause { IsErrOf result ReadRefusal.Missing → Rose (missed self.old) (missed self.new) }
        ensures failed_cause { IsErrOf result ReadRefusal.Failed → Rose (faults self.old) (faults self.new) }
        ensures missed_kept { Kept (missed self.old) (missed self.new) }
        ensures faults_kept { Kept (faults self.old) (faults self.new) };

    /// Puts the bytes under a name, in place of what it held.
    fn replace(&mut self, alloc: Global, name: &str, bytes: &[u8]) -> Result<(), ReplaceRefusal>
        ensures ok { OnOk result (ToldReplaced (held self.old) (held self.new) name.now bytes.now) }
        ensures failed { IsErrOf result ReplaceRefusal.Failed →
            ((held self.new ≡ held self.old) ⊎ ToldReplaced (held self.old) (held self.new) name.now bytes.now) }
        ensures no_memory { IsErrOf result ReplaceRefusal.NoMemory → held self.new ≡ held self.old }
        ensures failed_cause { IsErrOf result ReplaceRefusal.Failed → Rose (faults self.old) (faults self.new) }
        ensures missed_kept { Kept (missed self.old) (missed self.new) }
        ensures faults_kept { Kept (faults self.old) (faults self.new) };
}
