//! What the tokens of calls name (III.3.19).

#![tactic(auto, using(metadata_tables::proofs::ColumnLemmas::known_columns))]

ghost use Rattle.std.specs.Prelude.{◌≡◌, ◌≤◌, map, IfSome};
ghost use Rattle.metadata_tables.specs.Numbers.{type_ref, member_ref, method_spec};
ghost use Rattle.asm_image.specs.Calls.{tagged_row, is_contract_class, is_contract_method, listed, plain_methods, generic_methods, number_among, member_number, argument_number, instance_number, numbered, callee_of};
ghost use Rattle.asm_image.specs.Cells.{HasRow};

use crate::callee::Callee;
use crate::contract_op::ContractOp;
use crate::metadata::Metadata;
use crate::tokens::row_in;
use cc_base::Token;
use metadata_tables::column::{
    MEMBER_REF_CLASS, MEMBER_REF_NAME, MEMBER_REF_SIGNATURE, METHOD_SPEC_INSTANTIATION,
    METHOD_SPEC_METHOD, TYPE_REF_NAME, TYPE_REF_NAMESPACE,
};
use metadata_tables::table::{MEMBER_REF, METHOD_DEF, METHOD_SPEC, TYPE_REF};
use signature_blobs::spec_sig;

/// The tag of TypeRef in a MemberRefParent (II.24.2.6).
const PARENT_TYPE_REF: u32 = 1;

/// The number of values that the tag of a MemberRefParent has.
const PARENT_TAGS: u32 = 8;

/// The tag of MemberRef in a MethodDefOrRef.
const METHOD_MEMBER_REF: u32 = 1;

/// The number of values that the tag of a MethodDefOrRef has.
const METHOD_TAGS: u32 = 2;

/// A method of the class `Contract`.
struct ContractMethod {
    name: &'static [u8],
    signature: &'static [u8],
    /// The number of a call of it.
    number: u8,
}

/// The signature `void (bool)` of a row of MemberRef (II.23.2.2).
const CONDITION: &[u8] = b"\x00\x01\x01\x02";

/// `void (bool, string)`.
const CONDITION_AND_TEXT: &[u8] = b"\x00\x02\x01\x02\x0e";

/// `void ()`.
const NOTHING: &[u8] = b"\x00\x00\x01";

/// `T <T>()`.
const GENERIC: &[u8] = b"\x10\x01\x00\x1e\x00";

/// `T <T>(T)`.
const GENERIC_OF_ONE: &[u8] = b"\x10\x01\x01\x1e\x00\x1e\x00";

/// The methods that are not generic.
const PLAIN_METHODS: [ContractMethod; 9] = [
    ContractMethod {
        name: b"Requires",
        signature: CONDITION,
        number: 1,
    },
    ContractMethod {
        name: b"Requires",
        signature: CONDITION_AND_TEXT,
        number: 2,
    },
    ContractMethod {
        name: b"Ensures",
        signature: CONDITION,
        number: 3,
    },
    ContractMethod {
        name: b"Ensures",
        signature: CONDITION_AND_TEXT,
        number: 4,
    },
    ContractMethod {
        name: b"Assert",
        signature: CONDITION,
        number: 5,
    },
    ContractMethod {
        name: b"Assert",
        signature: CONDITION_AND_TEXT,
        number: 6,
    },
    ContractMethod {
        name: b"Assume",
        signature: CONDITION,
        number: 7,
    },
    ContractMethod {
        name: b"Assume",
        signature: CONDITION_AND_TEXT,
        number: 8,
    },
    ContractMethod {
        name: b"EndContractBlock",
        signature: NOTHING,
        number: 9,
    },
];

/// The generic ones. To their numbers that of the type argument is added.
const GENERIC_METHODS: [ContractMethod; 2] = [
    ContractMethod {
        name: b"Result",
        signature: GENERIC,
        number: 10,
    },
    ContractMethod {
        name: b"OldValue",
        signature: GENERIC_OF_ONE,
        number: 20,
    },
];

/// The number of the first method with a name and a signature.
fn number_among(methods: &[ContractMethod], name: &[u8], signature: &[u8]) -> Option<u8>
    ensures { result ≡ number_among (map listed methods.now) name.now signature.now }
{
    for method in methods {
        if method.name == name && method.signature == signature {
            return Some(method.number);
        }
    }
    None
}

/// Returns whether a row of the table TypeRef is the class `Contract`.
#[tactic(auto, using(metadata_tables::proofs::ColumnLemmas::known_columns), unfolding(crate::specs::Calls::is_contract_class))]
fn is_contract_class(metadata: &Metadata<'_>, row: u32) -> bool
    requires { HasRow metadata.now.bytes type_ref row }
    ensures { result ≡ is_contract_class metadata.now.bytes row }
{
    metadata.text_is(TYPE_REF, row, TYPE_REF_NAME, b"Contract")
        && metadata.text_is(
            TYPE_REF,
            row,
            TYPE_REF_NAMESPACE,
            b"System.Diagnostics.Contracts",
        )
}

/// The row of a table that a coded index names.
#[tactic(auto, unfolding(crate::specs::Calls::tagged_row))]
pub fn tagged_row(
    metadata: &Metadata<'_>,
    table: u8,
    tag: u32,
    tags: u32,
    index: u32,
) -> Option<u32>
    requires { 1 ≤ tags }
    ensures row { result ≡ tagged_row metadata.now.bytes table tag tags index }
    ensures there { IfSome result (λ row. HasRow metadata.now.bytes table row) }
{
    let row = index / tags;
    if index % tags == tag && row >= 1 && row <= metadata.row_count(table) {
        Some(row)
    } else {
        None
    }
}

/// Returns whether a row of the table MemberRef is a method of the class `Contract`.
#[tactic(auto, using(metadata_tables::proofs::ColumnLemmas::known_columns), unfolding(crate::specs::Calls::is_contract_method))]
fn is_contract_method(metadata: &Metadata<'_>, row: u32) -> bool
    requires { HasRow metadata.now.bytes member_ref row }
    ensures { result ≡ is_contract_method metadata.now.bytes row }
{
    let class = metadata.cell(MEMBER_REF, row, MEMBER_REF_CLASS);
    match tagged_row(metadata, TYPE_REF, PARENT_TYPE_REF, PARENT_TAGS, class) {
        Some(class) => is_contract_class(metadata, class),
        None => false,
    }
}

/// The number of the method of the class `Contract` that a row of the table MemberRef names, if it is
/// one of some methods.
#[tactic(auto, using(metadata_tables::proofs::ColumnLemmas::known_columns), unfolding(crate::specs::Calls::member_number))]
fn member_number(metadata: &Metadata<'_>, methods: &[ContractMethod], row: u32) -> Option<u8>
    requires { HasRow metadata.now.bytes member_ref row }
    ensures { result ≡ member_number metadata.now.bytes (map listed methods.now) row }
{
    if !is_contract_method(metadata, row) {
        return None;
    }
    let name = metadata.text(MEMBER_REF, row, MEMBER_REF_NAME);
    let signature = metadata.blob(MEMBER_REF, row, MEMBER_REF_SIGNATURE);
    number_among(methods, name, signature)
}

/// The number of a method that is not generic.
fn plain_number(metadata: &Metadata<'_>, row: u32) -> Option<u8>
    requires { HasRow metadata.now.bytes member_ref row }
    ensures { result ≡ member_number metadata.now.bytes plain_methods row }
{
    member_number(metadata, &PLAIN_METHODS, row)
}

/// The number of a generic method.
fn generic_number(metadata: &Metadata<'_>, row: u32) -> Option<u8>
    requires { HasRow metadata.now.bytes member_ref row }
    ensures { result ≡ member_number metadata.now.bytes generic_methods row }
{
    member_number(metadata, &GENERIC_METHODS, row)
}

/// The number of the type argument that a row of the table MethodSpec gives.
fn argument_number(metadata: &Metadata<'_>, row: u32) -> Option<u8>
    requires { HasRow metadata.now.bytes method_spec row }
    ensures { result ≡ argument_number metadata.now.bytes row }
{
    match spec_sig(metadata.blob(METHOD_SPEC, row, METHOD_SPEC_INSTANTIATION)) {
        Ok(Some(place)) => Some(place.number()),
        Ok(None) | Err(_) => None,
    }
}

/// The number of the generic method that a row of the table MethodSpec names, with its type argument.
#[tactic(auto, using(metadata_tables::proofs::ColumnLemmas::known_columns), unfolding(crate::specs::Calls::instance_number))]
fn instance_number(metadata: &Metadata<'_>, row: u32) -> Option<u32>
    requires { HasRow metadata.now.bytes method_spec row }
    ensures { result ≡ instance_number metadata.now.bytes row }
{
    let method = metadata.cell(METHOD_SPEC, row, METHOD_SPEC_METHOD);
    let member = tagged_row(metadata, MEMBER_REF, METHOD_MEMBER_REF, METHOD_TAGS, method)?;
    let number = generic_number(metadata, member)?;
    let argument = argument_number(metadata, row)?;
    Some(u32::from(number) + u32::from(argument))
}

/// The call of a number.
fn numbered(number: Option<u32>) -> Callee
    ensures { result ≡ numbered number }
{
    match number {
        Some(number) => Callee::ContractCall(ContractOp(number)),
        None => Callee::Outside,
    }
}

/// Returns what a row of the table MemberRef calls.
fn plain_callee(metadata: &Metadata<'_>, row: u32) -> Callee
    requires { HasRow metadata.now.bytes member_ref row }
    ensures { result ≡ numbered (member_number metadata.now.bytes plain_methods row) }
{
    match plain_number(metadata, row) {
        Some(number) => numbered(Some(u32::from(number))),
        None => Callee::Outside,
    }
}

/// Returns what a token calls.
#[tactic(auto, unfolding(crate::specs::Calls::callee_of))]
pub fn callee_of(metadata: &Metadata<'_>, token: Token) -> Callee
    ensures { result ≡ callee_of metadata.now.bytes token.0 }
{
    if row_in(metadata, METHOD_DEF, token).is_some() {
        return Callee::Method(token);
    }
    if let Some(row) = row_in(metadata, MEMBER_REF, token) {
        return plain_callee(metadata, row);
    }
    match row_in(metadata, METHOD_SPEC, token) {
        Some(row) => numbered(instance_number(metadata, row)),
        None => Callee::Outside,
    }
}
