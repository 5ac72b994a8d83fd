//! The words of each fault of a file.
//!
//! The words of faults stand in functions of their own, not in the text that an error type derives: of that the library
//! promises nothing.

ghost use Rattle.std.specs.Prelude.{◌≡◌};
ghost use Rattle.assembly_answers.specs.FaultText.{unit_fault_text, pe_fault_text, table_fault_text, signature_fault_text, assembly_fault_text};

use asm_image::Cause;
use metadata_tables::TableFault;
use method_unit::UnitFault;
use pe_reader::PeFault;
use signature_blobs::SigFault;

/// The words of a unit's fault.
pub fn unit_fault_text(fault: UnitFault) -> &'static [u8]
    ensures { result.now ≡ unit_fault_text fault }
{
    match fault {
        UnitFault::Short(_) => b"unit short",
        UnitFault::Form(_) => b"unit form",
        UnitFault::Version(_) => b"unit version",
    }
}

fn pe_fault_text(fault: PeFault) -> &'static [u8]
    ensures { result.now ≡ pe_fault_text fault }
{
    match fault {
        PeFault::TooShort(_) => b"file too short",
        PeFault::NotPe(_) => b"not a PE file",
        PeFault::NoCli(_) => b"no CLI header",
        PeFault::RvaOutside(_) => b"address outside",
    }
}

fn table_fault_text(fault: TableFault) -> &'static [u8]
    ensures { result.now ≡ table_fault_text fault }
{
    match fault {
        TableFault::BadRoot => b"bad metadata root",
        TableFault::MissingStream => b"missing stream",
        TableFault::BadTables(..) => b"bad tables",
        TableFault::Short(_) => b"tables too short",
        TableFault::IndexOut(..) => b"index out of range",
        TableFault::HeapEnd(_) => b"heap end",
    }
}

fn signature_fault_text(fault: SigFault) -> &'static [u8]
    ensures { result.now ≡ signature_fault_text fault }
{
    match fault {
        SigFault::Short(_) => b"signature too short",
        SigFault::Form(_) => b"signature form",
    }
}

/// The words of what is wrong with an assembly.
pub fn assembly_fault_text(cause: Cause) -> &'static [u8]
    ensures { result.now ≡ assembly_fault_text cause }
{
    match cause {
        Cause::Large => b"file too large",
        Cause::Pe(fault) => pe_fault_text(fault),
        Cause::Table(fault) => table_fault_text(fault),
        Cause::Sig(fault) => signature_fault_text(fault),
    }
}
