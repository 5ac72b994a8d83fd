//! The words for a proof file that is refused.

ghost use Rattle.std.specs.Prelude.{◌≡◌};
ghost use Rattle.answer_lines.specs.LineCounts.{line_count};
ghost use Rattle.check_driver.specs.ProofText.{proof_fault_at, proof_fault_text};

use cil_model::MAX_FILE_BYTES;
use proof_files::ProofFault;

/// The words for a fault of a proof file.
pub fn proof_fault_text(fault: ProofFault) -> &'static [u8]
    ensures { result.now ≡ proof_fault_text fault }
{
    match fault {
        ProofFault::Version => b"proof version",
        ProofFault::Form(_) => b"proof form",
        ProofFault::Large => b"proof too large",
    }
}

/// The offset that is told with them.
pub fn proof_fault_at(fault: ProofFault) -> u32
    ensures { result ≡ proof_fault_at fault }
{
    match fault {
        ProofFault::Version => 0,
        ProofFault::Form(at) => at,
        ProofFault::Large => MAX_FILE_BYTES,
    }
}
