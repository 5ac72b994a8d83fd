//! Tables, and the indexes that cite their rows (ECMA-335 II.22 and II.24.2.6).

ghost use Rattle.std.specs.Prelude.{◌≡◌, ◌==◌, ◌<◌, ◌≤◌, ◌^◌, length, position, unwrap_or, IfSome};
ghost use Rattle.asm_writer.specs.Tables.{table_number, coded_tables, tag_bits, tag_in, coded_value};

use CodedIndex::*;

/// A table, numbered as in II.22.
#[derive(Clone, Copy)]
pub enum Table {
    Module = 0x00,
    TypeRef = 0x01,
    TypeDef = 0x02,
    Field = 0x04,
    MethodDef = 0x06,
    Param = 0x08,
    MemberRef = 0x0a,
    StandAloneSig = 0x11,
    ModuleRef = 0x1a,
    TypeSpec = 0x1b,
    Assembly = 0x20,
    AssemblyRef = 0x23,
    MethodSpec = 0x2b,
}

/// The tables in the order of their rows in the stream `#~`.
pub const TABLES: [Table; 13] = [
    Table::Module,
    Table::TypeRef,
    Table::TypeDef,
    Table::Field,
    Table::MethodDef,
    Table::Param,
    Table::MemberRef,
    Table::StandAloneSig,
    Table::ModuleRef,
    Table::TypeSpec,
    Table::Assembly,
    Table::AssemblyRef,
    Table::MethodSpec,
];

impl Table {
    /// The number of the table.
    pub fn number(self) -> u8
        ensures is { result ≡ table_number self }
        ensures bound { result ≤ 0x2b }
    {
        self as u8
    }
}

/// A kind of coded index: a row of one of several tables.
#[derive(Clone, Copy)]
pub enum CodedIndex {
    TypeDefOrRef,
    MemberRefParent,
    MethodDefOrRef,
    ResolutionScope,
}

impl CodedIndex {
    /// The tables, by their tags.
    pub fn tables(self) -> &'static [Table]
        ensures is { result.now ≡ coded_tables self }
        ensures few { length result.now ≤ 5 }
    {
        match self {
            TypeDefOrRef => &[Table::TypeDef, Table::TypeRef, Table::TypeSpec],
            MemberRefParent => &[
                Table::TypeDef,
                Table::TypeRef,
                Table::ModuleRef,
                Table::MethodDef,
                Table::TypeSpec,
            ],
            MethodDefOrRef => &[Table::MethodDef, Table::MemberRef],
            ResolutionScope => &[
                Table::Module,
                Table::ModuleRef,
                Table::AssemblyRef,
                Table::TypeRef,
            ],
        }
    }

    /// Returns how many of the low bits tell the table.
    pub fn tag_bits(self) -> u8
        ensures is { result ≡ tag_bits self }
        ensures bound { result ≤ 3 }
    {
        match self {
            TypeDefOrRef => 2,
            MemberRefParent => 3,
            MethodDefOrRef => 1,
            ResolutionScope => 2,
        }
    }

    /// The index of a row of the table, which is one of this kind's.
    pub fn value(self, table: Table, row: u32) -> u64
        ensures { result ≡ coded_value self table row }
    {
        u64::from(row) * (1 << self.tag_bits()) + tag_in(self.tables(), table) as u64
    }
}

/// Which of the tables has the number.
fn position_of(tables: &[Table], number: u8) -> Option<usize>
    ensures is { result ≡ position (λ table. table_number table == number) tables.now }
    ensures bound { IfSome result (λ tag. tag < length tables.now) }
{
    tables.iter().position(|table| table.number() == number)
}

/// Which of the tables it is, 0 where it is none of them.
fn tag_in(tables: &[Table], table: Table) -> usize
    requires { length tables.now ≤ 5 }
    ensures is { result ≡ tag_in tables.now table }
    ensures bound { result ≤ 5 }
{
    position_of(tables, table.number()).unwrap_or(0)
}
