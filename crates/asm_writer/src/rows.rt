//! The rows of the tables (ECMA-335 II.22).

ghost use Rattle.std.specs.Prelude.{◌≡◌, ◌<◌, ◌^◌, length};
ghost use Rattle.asm_writer.specs.Rows.{fixed_rows, method_row, locals_fields, extern_assembly_row, extern_type_row, extern_member_row};

use crate::blob::Blob;
use crate::blob::Blob::{Condition, ConditionAndMessage, Nothing};
use crate::field::Field;
use crate::field::Field::{
    Blobs, Coded, ExternName, ExternSignature, Guid, MethodBody, MethodLocals, MethodName,
    MethodSignature, OwnName, Plain, Row, Strings,
};
use crate::name::Name::{Assert, Assume, EndContractBlock, Ensures, Requires};
use crate::name::{ExternPart, Name};
use crate::number::Number::{Four, Two};
use crate::plan::MethodPlan;
use crate::table::CodedIndex::{MemberRefParent, MethodDefOrRef, ResolutionScope, TypeDefOrRef};
use crate::table::Table;

/// Module (II.22.30).
pub const MODULES: [[Field; 5]; 1] = [[
    Plain(Two(0)),
    Strings(Name::File),
    Guid(1),
    Guid(0),
    Guid(0),
]];

/// The row of `mscorlib`.
const MSCORLIB: Field = Coded(ResolutionScope, Table::AssemblyRef, 1);

/// TypeRef (II.22.38).
pub const TYPE_REFS: [[Field; 3]; 4] = [
    [MSCORLIB, Strings(Name::Object), Strings(Name::System)],
    [MSCORLIB, Strings(Name::Int32), Strings(Name::System)],
    [MSCORLIB, Strings(Name::Boolean), Strings(Name::System)],
    [MSCORLIB, Strings(Name::Contract), Strings(Name::Contracts)],
];

/// TypeDef (II.22.37): the class has all methods.
pub const TYPE_DEFS: [[Field; 6]; 2] = [
    [
        Plain(Four(0)),
        Strings(Name::Global),
        Strings(Name::Empty),
        Coded(TypeDefOrRef, Table::TypeDef, 0),
        Row(Table::Field, 1),
        Row(Table::MethodDef, 1),
    ],
    [
        Plain(Four(0)),
        Strings(Name::Class),
        Strings(Name::Namespace),
        Coded(TypeDefOrRef, Table::TypeRef, 1),
        Row(Table::Field, 1),
        Row(Table::MethodDef, 1),
    ],
];

/// The row of `Contract`.
const CONTRACT: Field = Coded(MemberRefParent, Table::TypeRef, 4);

/// MemberRef (II.22.25): the contract calls.
pub const MEMBER_REFS: [[Field; 3]; 11] = [
    [CONTRACT, Strings(Requires), Blobs(Condition)],
    [CONTRACT, Strings(Requires), Blobs(ConditionAndMessage)],
    [CONTRACT, Strings(Ensures), Blobs(Condition)],
    [CONTRACT, Strings(Ensures), Blobs(ConditionAndMessage)],
    [CONTRACT, Strings(Assert), Blobs(Condition)],
    [CONTRACT, Strings(Assert), Blobs(ConditionAndMessage)],
    [CONTRACT, Strings(Assume), Blobs(Condition)],
    [CONTRACT, Strings(Assume), Blobs(ConditionAndMessage)],
    [CONTRACT, Strings(EndContractBlock), Blobs(Nothing)],
    [CONTRACT, Strings(Name::Result), Blobs(Blob::Result)],
    [CONTRACT, Strings(Name::OldValue), Blobs(Blob::OldValue)],
];

/// Assembly (II.22.2).
pub const ASSEMBLIES: [[Field; 9]; 1] = [[
    Plain(Four(0)),
    Plain(Two(0)),
    Plain(Two(0)),
    Plain(Two(0)),
    Plain(Two(0)),
    Plain(Four(0)),
    Blobs(Blob::Empty),
    OwnName,
    Strings(Name::Empty),
]];

/// AssemblyRef (II.22.5).
pub const ASSEMBLY_REFS: [[Field; 9]; 1] = [[
    Plain(Two(0)),
    Plain(Two(0)),
    Plain(Two(0)),
    Plain(Two(0)),
    Plain(Four(0)),
    Blobs(Blob::Empty),
    Strings(Name::Mscorlib),
    Strings(Name::Empty),
    Blobs(Blob::Empty),
]];

/// The rows of `Result` and `OldValue`.
const RESULT: Field = Coded(MethodDefOrRef, Table::MemberRef, 10);

const OLD_VALUE: Field = Coded(MethodDefOrRef, Table::MemberRef, 11);

/// MethodSpec (II.22.29): both by each type.
pub const METHOD_SPECS: [[Field; 2]; 8] = [
    [RESULT, Blobs(Blob::OfBool)],
    [RESULT, Blobs(Blob::OfInt)],
    [RESULT, Blobs(Blob::OfBools)],
    [RESULT, Blobs(Blob::OfInts)],
    [OLD_VALUE, Blobs(Blob::OfBool)],
    [OLD_VALUE, Blobs(Blob::OfInt)],
    [OLD_VALUE, Blobs(Blob::OfBools)],
    [OLD_VALUE, Blobs(Blob::OfInts)],
];

/// Returns how many rows a table has, but for those of methods and externs.
pub fn fixed_count(table: Table) -> usize
    ensures { result ≡ length (fixed_rows table) }
{
    match table {
        Table::Module => MODULES.len(),
        Table::TypeRef => TYPE_REFS.len(),
        Table::TypeDef => TYPE_DEFS.len(),
        Table::MemberRef => MEMBER_REFS.len(),
        Table::Assembly => ASSEMBLIES.len(),
        Table::AssemblyRef => ASSEMBLY_REFS.len(),
        Table::MethodSpec => METHOD_SPECS.len(),
        _ => 0,
    }
}

/// MethodDef (II.22.26): the row of the method of this index.
pub fn method_row(index: u32, method: &MethodPlan) -> [Field; 6]
    ensures { result ≡ method_row index method.now }
{
    let flags = if method.is_static { 0x10 } else { 0 };
    [
        MethodBody(index),
        Plain(Two(0)),
        Plain(Two(flags)),
        MethodName(index),
        MethodSignature(index),
        Row(Table::Param, 1),
    ]
}

/// StandAloneSig (II.22.36): the row of the locals of the method of this index.
pub fn locals_row(index: u32) -> [Field; 1]
    ensures { result ≡ locals_fields index }
{
    [MethodLocals(index)]
}

/// AssemblyRef: the row of the assembly of the extern of this index.
pub fn extern_assembly_row(index: u32) -> [Field; 9]
    ensures { result ≡ extern_assembly_row index }
{
    [
        Plain(Two(0)),
        Plain(Two(0)),
        Plain(Two(0)),
        Plain(Two(0)),
        Plain(Four(0)),
        Blobs(Blob::Empty),
        ExternName(index, ExternPart::Assembly),
        Strings(Name::Empty),
        Blobs(Blob::Empty),
    ]
}

/// TypeRef: the row of its class.
pub fn extern_type_row(index: u32) -> [Field; 3]
    requires { index < 2 ^ 24 }
    ensures { result ≡ extern_type_row index }
{
    [
        Coded(
            ResolutionScope,
            Table::AssemblyRef,
            index + (ASSEMBLY_REFS.len() as u32 + 1),
        ),
        ExternName(index, ExternPart::Class),
        ExternName(index, ExternPart::Namespace),
    ]
}

/// MemberRef: its row.
pub fn extern_member_row(index: u32) -> [Field; 3]
    requires { index < 2 ^ 24 }
    ensures { result ≡ extern_member_row index }
{
    [
        Coded(
            MemberRefParent,
            Table::TypeRef,
            index + (TYPE_REFS.len() as u32 + 1),
        ),
        ExternName(index, ExternPart::Name),
        ExternSignature(index),
    ]
}
