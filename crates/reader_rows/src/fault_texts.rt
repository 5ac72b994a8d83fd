//! The words of faults and of refusals, as their types print them.

use asm_image::{AsmFault, AsmRefusal, Cause};
use cc_base::Refusal;
use il_decoder::IlFault;
use metadata_tables::TableFault;
use method_unit::UnitFault;
use pe_reader::PeFault;
use signature_blobs::SigFault;
use std::alloc::{AllocError, Global};
use std::fmt::Display;
use std::test::Fail;

/// Faults of PE files, with their words and their offsets. The words of the others likewise.
const PE_FAULTS: [(PeFault, &str, u32); 4] = [
    (PeFault::TooShort(0x3c), "file too short at 0000003c", 0x3c),
    (PeFault::NotPe(0x80), "not a PE file at 00000080", 0x80),
    (PeFault::NoCli(0x168), "no CLI header at 00000168", 0x168),
    (
        PeFault::RvaOutside(0xffff_ffff),
        "address outside at ffffffff",
        0xffff_ffff,
    ),
];

const TABLE_FAULTS: [(TableFault, &str, u32); 6] = [
    (TableFault::BadRoot, "bad metadata root", 0),
    (TableFault::MissingStream, "missing stream", 0),
    (
        TableFault::BadTables(3, 0x74),
        "bad tables: bit 3 of the field at 00000074",
        0x74,
    ),
    (
        TableFault::Short(0xec),
        "tables too short at 000000ec",
        0xec,
    ),
    (
        TableFault::IndexOut(0x02, 1, 5),
        "index out of range in row 1 of table 02, column 5",
        0,
    ),
    (TableFault::HeapEnd(0xf4), "heap end at 000000f4", 0xf4),
];

const SIGNATURE_FAULTS: [(SigFault, &str, u32); 2] = [
    (SigFault::Short(4), "short at 00000004", 4),
    (SigFault::Form(0), "form at 00000000", 0),
];

const UNIT_FAULTS: [(UnitFault, &str, u32); 3] = [
    (UnitFault::Short(0x15), "unit short at 00000015", 0x15),
    (UnitFault::Form(2), "unit form at 00000002", 2),
    (UnitFault::Version(3), "unit version at 00000003", 3),
];

const IL_FAULTS: [(IlFault, &str, u32); 4] = [
    (IlFault::Short(7), "short at 0007", 7),
    (IlFault::Opcode(0x10, 0xfe03), "opcode fe03 at 0010", 0x10),
    (IlFault::Target(0x20), "target at 0020", 0x20),
    (IlFault::Header(0), "header at 0000", 0),
];

/// Returns whether something is printed so.
fn is_printed(alloc: Global, printed: &impl Display, text: &str) -> Result<bool, AllocError> {
    let found = format!(in alloc; "{printed}")?;
    Ok(found.as_str() == text)
}

#[test]
fn faults_of_pe_files_have_their_words(rt: HostRuntime) -> Result<(), Fail> {
    for (fault, text, at) in PE_FAULTS {
        assert!(rt;
            is_printed(rt.alloc(), &fault, text)? && fault.at() == at,
            "{text}"
        );
    }
    Ok(())
}

#[test]
fn faults_of_tables_have_their_words(rt: HostRuntime) -> Result<(), Fail> {
    for (fault, text, at) in TABLE_FAULTS {
        assert!(rt;
            is_printed(rt.alloc(), &fault, text)? && fault.at() == at,
            "{text}"
        );
    }
    Ok(())
}

#[test]
fn faults_of_signatures_have_their_words(rt: HostRuntime) -> Result<(), Fail> {
    for (fault, text, at) in SIGNATURE_FAULTS {
        assert!(rt;
            is_printed(rt.alloc(), &fault, text)? && fault.at() == at,
            "{text}"
        );
    }
    Ok(())
}

#[test]
fn faults_of_units_have_their_words(rt: HostRuntime) -> Result<(), Fail> {
    for (fault, text, at) in UNIT_FAULTS {
        assert!(rt;
            is_printed(rt.alloc(), &fault, text)? && fault.at() == at,
            "{text}"
        );
    }
    Ok(())
}

#[test]
fn faults_of_code_have_their_words(rt: HostRuntime) -> Result<(), Fail> {
    for (fault, text, at) in IL_FAULTS {
        assert!(rt;
            is_printed(rt.alloc(), &fault, text)? && fault.at() == at,
            "{text}"
        );
    }
    Ok(())
}

/// Refusals of assemblies, with their words.
const ASSEMBLY_REFUSALS: [(AsmRefusal, &str); 3] = [
    (
        AsmRefusal::Bad(AsmFault {
            at: 0,
            cause: Cause::Pe(PeFault::NotPe(0)),
        }),
        "not a PE file at 00000000, in the file at 00000000",
    ),
    (
        AsmRefusal::Bad(AsmFault {
            at: 0x0400_0000,
            cause: Cause::Large,
        }),
        "file too large, in the file at 04000000",
    ),
    (AsmRefusal::NoMemory, "out of memory"),
];

#[test]
fn refusals_have_their_words(rt: HostRuntime) -> Result<(), Fail> {
    for (refusal, text) in ASSEMBLY_REFUSALS {
        assert!(rt; is_printed(rt.alloc(), &refusal, text)?, "{text}");
    }
    let bad: Refusal<SigFault> = Refusal::Bad(SigFault::Form(1));
    assert!(rt; is_printed(rt.alloc(), &bad, "form at 00000001")?);
    Ok(())
}
