//! Columns of rows.

use crate::blob::Blob;
use crate::name::{ExternPart, Name};
use crate::number::Number;
use crate::table::{CodedIndex, Table};

/// A column of a row (ECMA-335 II.22). Methods and externs are cited by their index, from 0, and rows
/// are counted from 1.
#[derive(Clone, Copy)]
pub enum Field {
    /// A number.
    Plain(Number),
    /// A name in `#Strings`.
    Strings(Name),
    /// The name of a method, in `#Strings`.
    MethodName(u32),
    /// The name of the assembly that is written, in `#Strings`.
    OwnName,
    /// A name of an extern, in `#Strings`.
    ExternName(u32, ExternPart),
    /// A GUID in `#GUID`, counted from 1, or none.
    Guid(u64),
    /// A blob in `#Blob`.
    Blobs(Blob),
    /// The signature of a method, in `#Blob`.
    MethodSignature(u32),
    /// The locals of a method, in `#Blob`.
    MethodLocals(u32),
    /// The signature of an extern, in `#Blob`.
    ExternSignature(u32),
    /// The RVA of the body of a method.
    MethodBody(u32),
    /// A row of a table.
    Row(Table, u32),
    /// A row of one of several tables.
    Coded(CodedIndex, Table, u32),
}
