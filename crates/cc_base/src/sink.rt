//! What bytes are written to.

ghost use Rattle.std.specs.Prelude.{◌≡◌, ℕ, List, Option, OnOk, IsErrOf};
ghost use Rattle.cc_base.specs.declared.sink.PutRefusal.TheVariants.{NoMemory};
ghost use Rattle.cc_base.specs.Counts.{Rose, Kept};
ghost use Rattle.cc_base.specs.Sink.{appended, counted, AppendsPrefix};

use std::alloc::{AllocError, Global};

/// Why bytes were not written.
#[derive(Clone, Copy, Debug, PartialEq, Eq)]
pub enum PutRefusal {
    /// A device refused. A prefix of the bytes may have been written.
    Failed,
    /// Memory ran out, and nothing was written.
    NoMemory,
}

impl From<AllocError> for PutRefusal {
    ghost from_gives = { λ _ e. e ≡ NoMemory };

    fn from(_error: AllocError) -> PutRefusal {
        PutRefusal::NoMemory
    }
}

/// What bytes are written to, one after another.
pub trait Sink {
    /// All that was written, where the object tells it.
    ghost written: { Self → Option (List ℕ) };

    /// How often bytes were put, where the object tells it.
    ghost puts: { Self → Option ℕ };

    /// How often a device refused.
    ghost faults: { Self → ℕ };

    /// Writes the bytes, whole.
    fn put(&mut self, alloc: Global, bytes: &[u8]) -> Result<(), PutRefusal>
        ensures ok { OnOk result (written self.new ≡ appended (written self.old) bytes.now) }
        ensures counted { OnOk result (puts self.new ≡ counted 1 (puts self.old)) }
        ensures failed { IsErrOf result PutRefusal.Failed →
            AppendsPrefix (written self.old) (written self.new) bytes.now }
        ensures no_memory { IsErrOf result PutRefusal.NoMemory → written self.new ≡ written self.old }
        ensures failed_cause { IsErrOf result PutRefusal.Failed → Rose (faults self.old) (faults self.new) }
        ensures faults_kept { Kept (faults self.old) (faults self.new) };
}
