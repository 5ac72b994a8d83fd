//! The columns of each table (ECMA-335 II.22) and the coded indexes (II.24.2.6).

ghost use Rattle.std.specs.Prelude.{◌≡◌, ◌≤◌, [], length, map, slice_index_or};
ghost use Rattle.metadata_tables.specs.Schema.{columns_of, tables_of, tag_bits_of};

/// A number of tables: each table of the schemas has a number below it.
pub const TABLES: usize = 45;

/// The most columns of a table.
pub(crate) const MOST_COLUMNS: usize = 9;

/// The kinds of coded index (II.24.2.6).
#[derive(Clone, Copy, Debug, PartialEq, Eq)]
pub enum CodedIndex {
    TypeDefOrRef,
    HasConstant,
    HasCustomAttribute,
    HasFieldMarshal,
    HasDeclSecurity,
    MemberRefParent,
    HasSemantics,
    MethodDefOrRef,
    MemberForwarded,
    Implementation,
    CustomAttributeType,
    ResolutionScope,
    TypeOrMethodDef,
}

/// What a column holds.
#[derive(Clone, Copy, Debug, PartialEq, Eq)]
pub enum Column {
    /// A number of two bytes.
    Two,
    /// A number of four bytes.
    Four,
    /// A place in the heap `#Strings`.
    Strings,
    /// A number of an entry of the heap `#GUID`.
    Guid,
    /// A place in the heap `#Blob`.
    Blob,
    /// A row of the table of this number.
    Row(u8),
    /// A row of one of several tables.
    Coded(CodedIndex),
}

use crate::table;
use CodedIndex::*;
use Column::*;

/// The columns of each table, by its number. A table without columns is none.
const SCHEMAS: [&[Column]; TABLES] = [
    &[Two, Strings, Guid, Guid, Guid],
    &[Coded(ResolutionScope), Strings, Strings],
    &[
        Four,
        Strings,
        Strings,
        Coded(TypeDefOrRef),
        Row(table::FIELD),
        Row(table::METHOD_DEF),
    ],
    &[],
    &[Two, Strings, Blob],
    &[],
    &[Four, Two, Two, Strings, Blob, Row(table::PARAM)],
    &[],
    &[Two, Two, Strings],
    &[Row(table::TYPE_DEF), Coded(TypeDefOrRef)],
    &[Coded(MemberRefParent), Strings, Blob],
    &[Two, Coded(HasConstant), Blob],
    &[Coded(HasCustomAttribute), Coded(CustomAttributeType), Blob],
    &[Coded(HasFieldMarshal), Blob],
    &[Two, Coded(HasDeclSecurity), Blob],
    &[Two, Four, Row(table::TYPE_DEF)],
    &[Four, Row(table::FIELD)],
    &[Blob],
    &[Row(table::TYPE_DEF), Row(table::EVENT)],
    &[],
    &[Two, Strings, Coded(TypeDefOrRef)],
    &[Row(table::TYPE_DEF), Row(table::PROPERTY)],
    &[],
    &[Two, Strings, Blob],
    &[Two, Row(table::METHOD_DEF), Coded(HasSemantics)],
    &[
        Row(table::TYPE_DEF),
        Coded(MethodDefOrRef),
        Coded(MethodDefOrRef),
    ],
    &[Strings],
    &[Blob],
    &[Two, Coded(MemberForwarded), Strings, Row(table::MODULE_REF)],
    &[Four, Row(table::FIELD)],
    &[],
    &[],
    &[Four, Two, Two, Two, Two, Four, Blob, Strings, Strings],
    &[Four],
    &[Four, Four, Four],
    &[Two, Two, Two, Two, Four, Blob, Strings, Strings, Blob],
    &[Four, Row(table::ASSEMBLY_REF)],
    &[Four, Four, Four, Row(table::ASSEMBLY_REF)],
    &[Four, Strings, Blob],
    &[Four, Four, Strings, Strings, Coded(Implementation)],
    &[Four, Four, Strings, Coded(Implementation)],
    &[Row(table::TYPE_DEF), Row(table::TYPE_DEF)],
    &[Two, Two, Coded(TypeOrMethodDef), Strings],
    &[Coded(MethodDefOrRef), Blob],
    &[Row(table::GENERIC_PARAM), Coded(TypeDefOrRef)],
];

/// The columns of the table of a number, none where there is no such table.
#[tactic(auto, unfolding(crate::specs::Schema::columns_of))]
pub fn columns(table: u8) -> &'static [Column]
    ensures value { result.now ≡ columns_of table }
    ensures few { length result.now ≤ 9 }
{
    schema_at(&SCHEMAS, table)
}

#[tactic(auto, using(crate::proofs::SchemaLemmas::now_at))]
fn schema_at<'a>(schemas: &[&'a [Column]], table: u8) -> &'a [Column]
    ensures { result.now ≡ slice_index_or (map (λ schema. schema.now) schemas.now) table [] }
{
    let table = usize::from(table);
    if table < schemas.len() {
        schemas[table]
    } else {
        &[]
    }
}

impl CodedIndex {
    /// Returns how many of the lowest bits tell the table.
    pub(crate) fn tag_bits(self) -> u8
        ensures { result ≡ tag_bits_of self }
    {
        match self {
            TypeDefOrRef | HasConstant | HasDeclSecurity | Implementation | ResolutionScope => 2,
            HasFieldMarshal | HasSemantics | MethodDefOrRef | MemberForwarded | TypeOrMethodDef =>
                1,
            MemberRefParent | CustomAttributeType => 3,
            HasCustomAttribute => 5,
        }
    }

    /// The tables that it names, in the order of their tags.
    pub(crate) fn tables(self) -> &'static [u8]
        ensures { result.now ≡ tables_of self }
    {
        match self {
            TypeDefOrRef => &[table::TYPE_DEF, table::TYPE_REF, table::TYPE_SPEC],
            HasConstant => &[table::FIELD, table::PARAM, table::PROPERTY],
            HasCustomAttribute => &[
                table::METHOD_DEF,
                table::FIELD,
                table::TYPE_REF,
                table::TYPE_DEF,
                table::PARAM,
                table::INTERFACE_IMPL,
                table::MEMBER_REF,
                table::MODULE,
                table::DECL_SECURITY,
                table::PROPERTY,
                table::EVENT,
                table::STAND_ALONE_SIG,
                table::MODULE_REF,
                table::TYPE_SPEC,
                table::ASSEMBLY,
                table::ASSEMBLY_REF,
                table::FILE,
                table::EXPORTED_TYPE,
                table::MANIFEST_RESOURCE,
                table::GENERIC_PARAM,
                table::GENERIC_PARAM_CONSTRAINT,
                table::METHOD_SPEC,
            ],
            HasFieldMarshal => &[table::FIELD, table::PARAM],
            HasDeclSecurity => &[table::TYPE_DEF, table::METHOD_DEF, table::ASSEMBLY],
            MemberRefParent => &[
                table::TYPE_DEF,
                table::TYPE_REF,
                table::MODULE_REF,
                table::METHOD_DEF,
                table::TYPE_SPEC,
            ],
            HasSemantics => &[table::EVENT, table::PROPERTY],
            MethodDefOrRef => &[table::METHOD_DEF, table::MEMBER_REF],
            MemberForwarded => &[table::FIELD, table::METHOD_DEF],
            Implementation => &[table::FILE, table::ASSEMBLY_REF, table::EXPORTED_TYPE],
            CustomAttributeType => &[table::METHOD_DEF, table::MEMBER_REF],
            ResolutionScope => &[
                table::MODULE,
                table::MODULE_REF,
                table::ASSEMBLY_REF,
                table::TYPE_REF,
            ],
            TypeOrMethodDef => &[table::TYPE_DEF, table::METHOD_DEF],
        }
    }
}
