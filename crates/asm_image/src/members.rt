//! The names by which an assembly cites the methods of others (II.22.25), and by which others cite its own.

#![tactic(auto, using(metadata_tables::proofs::ColumnLemmas::known_columns))]

ghost use Rattle.std.specs.Prelude.{◌≡◌, ◌≤◌, option_map, IfSome};
ghost use Rattle.metadata_tables.specs.Numbers.{type_ref, member_ref};
ghost use Rattle.asm_image.specs.Calls.{class_row};
ghost use Rattle.asm_image.specs.Cells.{HasRow, RunsRise, type_count};
ghost use Rattle.asm_image.specs.Members.{assembly_name, scope_name, member_signature, key_of, member_at, member_of, class_at, class_of, name_of_method};

use crate::calls::tagged_row;
use crate::metadata::Metadata;
use crate::tokens::row_in;
use crate::types::found_owner;
use cc_base::Token;
use metadata_tables::column::{
    ASSEMBLY_NAME, ASSEMBLY_REF_NAME, MEMBER_REF_CLASS, MEMBER_REF_NAME, MEMBER_REF_SIGNATURE,
    METHOD_DEF_NAME, TYPE_DEF_NAME, TYPE_DEF_NAMESPACE, TYPE_REF_NAME, TYPE_REF_NAMESPACE,
    TYPE_REF_SCOPE,
};
use metadata_tables::table::{ASSEMBLY, ASSEMBLY_REF, MEMBER_REF, METHOD_DEF, TYPE_DEF, TYPE_REF};
use signature_blobs::{MethodSig, method_sig};

/// The tag of AssemblyRef in a ResolutionScope (II.24.2.6).
const SCOPE_ASSEMBLY_REF: u32 = 2;

/// The number of values that the tag of a ResolutionScope has.
const SCOPE_TAGS: u32 = 4;

/// The tag of TypeRef in a MemberRefParent.
const PARENT_TYPE_REF: u32 = 1;

/// The number of values that the tag of a MemberRefParent has.
const PARENT_TAGS: u32 = 8;

/// A method of an assembly that is cited by its name: what a row of the table MemberRef says. The names are as they
/// are stored, without escapes.
#[derive(Drop)]
pub struct Member<'a> {
    /// The name of the assembly.
    pub assembly: &'a [u8],
    /// The namespace of the class, which may be empty.
    pub namespace: &'a [u8],
    /// The name of the class.
    pub class: &'a [u8],
    /// The name of the method.
    pub name: &'a [u8],
    /// What the method takes and gives (II.23.2.2).
    pub sig: MethodSig,
}

/// The name of the assembly, that of the first row of the table Assembly. None where there is no such row or no such
/// text.
#[tactic(auto, using(metadata_tables::proofs::ColumnLemmas::known_columns), unfolding(crate::specs::Members::assembly_name))]
pub fn assembly_name<'a>(metadata: &Metadata<'a>) -> Option<&'a [u8]>
    ensures { option_map (λ name. name.now) result ≡ assembly_name metadata.now.bytes }
{
    if metadata.row_count(ASSEMBLY) == 0 {
        return None;
    }
    metadata.text_at(ASSEMBLY, 1, ASSEMBLY_NAME)
}

/// The row of the table TypeRef that is the parent of a member.
fn class_row(metadata: &Metadata<'_>, row: u32) -> Option<u32>
    requires { HasRow metadata.now.bytes member_ref row }
    ensures row { result ≡ class_row metadata.now.bytes row }
    ensures there { IfSome result (λ row. HasRow metadata.now.bytes type_ref row) }
{
    let class = metadata.cell(MEMBER_REF, row, MEMBER_REF_CLASS);
    tagged_row(metadata, TYPE_REF, PARENT_TYPE_REF, PARENT_TAGS, class)
}

/// The name of the assembly that has the class of a row of the table TypeRef, where the row is cited from an
/// AssemblyRef.
#[tactic(auto, using(metadata_tables::proofs::ColumnLemmas::known_columns), unfolding(crate::specs::Members::scope_name))]
fn scope_name<'a>(metadata: &Metadata<'a>, row: u32) -> Option<&'a [u8]>
    requires { HasRow metadata.now.bytes type_ref row }
    ensures { option_map (λ name. name.now) result ≡ scope_name metadata.now.bytes row }
{
    let scope = metadata.cell(TYPE_REF, row, TYPE_REF_SCOPE);
    let assembly = tagged_row(
        metadata,
        ASSEMBLY_REF,
        SCOPE_ASSEMBLY_REF,
        SCOPE_TAGS,
        scope,
    )?;
    metadata.text_at(ASSEMBLY_REF, assembly, ASSEMBLY_REF_NAME)
}

/// The signature of a member, where it reads.
#[tactic(auto, using(metadata_tables::proofs::ColumnLemmas::known_columns, crate::proofs::BlobLemmas::blob_short), unfolding(crate::specs::Members::member_signature))]
fn member_signature(metadata: &Metadata<'_>, row: u32) -> Option<MethodSig>
    requires { HasRow metadata.now.bytes member_ref row }
    ensures { result ≡ member_signature metadata.now.bytes row }
{
    let index = metadata.cell(MEMBER_REF, row, MEMBER_REF_SIGNATURE);
    let blob = metadata.tables().blob_at(index)?;
    method_sig(blob).ok()
}

/// The method that a row of the table MemberRef names.
#[tactic(auto, using(metadata_tables::proofs::ColumnLemmas::known_columns), unfolding(crate::specs::Members::member_at))]
fn member_at<'a>(metadata: &Metadata<'a>, row: u32) -> Option<Member<'a>>
    requires { HasRow metadata.now.bytes member_ref row }
    ensures { option_map key_of result ≡ member_at metadata.now.bytes row }
{
    let class = class_row(metadata, row)?;
    Some(Member {
        assembly: scope_name(metadata, class)?,
        namespace: metadata.text_at(TYPE_REF, class, TYPE_REF_NAMESPACE)?,
        class: metadata.text_at(TYPE_REF, class, TYPE_REF_NAME)?,
        name: metadata.text_at(MEMBER_REF, row, MEMBER_REF_NAME)?,
        sig: member_signature(metadata, row)?,
    })
}

/// The method of another assembly that a token names.
#[tactic(auto, unfolding(crate::specs::Members::member_of))]
pub fn member_of<'a>(metadata: &Metadata<'a>, token: Token) -> Option<Member<'a>>
    ensures { option_map key_of result ≡ member_of metadata.now.bytes token.0 }
{
    member_at(metadata, row_in(metadata, MEMBER_REF, token)?)
}

/// Namespace and name of the type of a row, two empty names for row 0.
fn class_at<'a>(metadata: &Metadata<'a>, owner: u32) -> (&'a [u8], &'a [u8])
    requires { owner ≤ type_count metadata.now.bytes }
    ensures namespace { result.0.now ≡ (class_at metadata.now.bytes owner).namespace }
    ensures name { result.1.now ≡ (class_at metadata.now.bytes owner).name }
{
    if owner == 0 {
        return (&[], &[]);
    }
    let namespace = metadata.text(TYPE_DEF, owner, TYPE_DEF_NAMESPACE);
    let name = metadata.text(TYPE_DEF, owner, TYPE_DEF_NAME);
    (namespace, name)
}

/// Namespace and name of the type that owns the method of a token.
#[tactic(auto, unfolding(crate::specs::Members::class_of))]
pub fn class_of<'a>(metadata: &Metadata<'a>, token: Token) -> (&'a [u8], &'a [u8])
    requires { RunsRise metadata.now.bytes }
    ensures namespace { result.0.now ≡ (class_of metadata.now.bytes token.0).namespace }
    ensures name { result.1.now ≡ (class_of metadata.now.bytes token.0).name }
{
    match row_in(metadata, METHOD_DEF, token) {
        Some(row) => class_at(metadata, found_owner(metadata, row)),
        None => (&[], &[]),
    }
}

/// The name of the method of a token.
#[tactic(auto, using(metadata_tables::proofs::ColumnLemmas::known_columns), unfolding(crate::specs::Members::name_of_method))]
pub fn method_name<'a>(metadata: &Metadata<'a>, token: Token) -> &'a [u8]
    ensures { result.now ≡ name_of_method metadata.now.bytes token.0 }
{
    match row_in(metadata, METHOD_DEF, token) {
        Some(row) => metadata.text(METHOD_DEF, row, METHOD_DEF_NAME),
        None => &[],
    }
}
