//! The printed names of methods.

#![tactic(auto, using(metadata_tables::proofs::ColumnLemmas::known_columns))]

ghost use Rattle.std.specs.Prelude.{◌≡◌, ◌≤◌, ◌++◌, [], OnOk, OnErr};
ghost use Rattle.asm_image.specs.Cells.{type_count};
ghost use Rattle.cil_model.specs.Places.{parameters_text};
ghost use Rattle.asm_image.specs.Names.{parameter_text, qualified, owner_text, types_text};

use crate::metadata::Metadata;
use cc_base::append_escaped;
use cil_model::Place;
use metadata_tables::column::{TYPE_DEF_NAME, TYPE_DEF_NAMESPACE};
use metadata_tables::table::TYPE_DEF;
use signature_blobs::{Places, SigTypes};
use std::alloc::{AllocError, Global};

/// Appends the name of a type after its namespace.
fn append_qualified(
    alloc: Global,
    line: &mut Vec<u8>,
    namespace: &[u8],
    name: &[u8],
) -> Result<(), AllocError>
    ensures { OnOk result (line.new.items ≡ line.old.items ++ qualified namespace.now name.now) }
{
    if !namespace.is_empty() {
        append_escaped(alloc, line, namespace)?;
        line.push(b'.')?;
    }
    append_escaped(alloc, line, name)
}

/// Appends the type of the parameter of an index from 0 on, after a comma where it is not the first.
fn append_place(line: &mut Vec<u8>, index: usize, place: Place) -> Result<(), AllocError>
    ensures { OnOk result (line.new.items ≡ line.old.items ++ parameter_text index place) }
{
    if index > 0 {
        line.push(b',')?;
    }
    line.extend_from_slice(place.text())
}

/// Appends the types of a method's parameters, with commas between.
fn append_places(line: &mut Vec<u8>, places: &Places) -> Result<(), AllocError>
    ensures { OnOk result (line.new.items ≡ line.old.items ++ parameters_text places.now) }
{
    for index in 0..places.len() {
        let Some(place) = places.get(index) else {
            break;
        };
        append_place(line, index, place)?;
    }
    Ok(())
}

/// Appends the types of a method's parameters in parentheses.
pub fn append_types(line: &mut Vec<u8>, types: &SigTypes) -> Result<(), AllocError>
    ensures { OnOk result (line.new.items ≡ line.old.items ++ types_text types.now) }
{
    match types {
        SigTypes::Known(signature) => {
            line.push(b'(')?;
            append_places(line, &signature.args)?;
            line.push(b')')?;
            Ok(())
        }
        SigTypes::Other => line.extend_from_slice(b"(?)"),
    }
}

/// Appends the name of the type of a row, nothing for row 0.
fn append_owner(
    alloc: Global,
    line: &mut Vec<u8>,
    metadata: &Metadata<'_>,
    owner: u32,
) -> Result<(), AllocError>
    requires { owner ≤ type_count metadata.now.bytes }
    ensures { OnOk result (line.new.items ≡ line.old.items ++ owner_text metadata.now.bytes owner) }
{
    if owner == 0 {
        return Ok(());
    }
    let namespace = metadata.text(TYPE_DEF, owner, TYPE_DEF_NAMESPACE);
    let name = metadata.text(TYPE_DEF, owner, TYPE_DEF_NAME);
    append_qualified(alloc, line, namespace, name)
}

/// Puts the name of the type of a row in place of what a text has, nothing for row 0. Where memory runs
/// out, the text is empty.
pub fn replace_owner(
    alloc: Global,
    text: &mut Vec<u8>,
    metadata: &Metadata<'_>,
    owner: u32,
) -> Result<(), AllocError>
    requires { owner ≤ type_count metadata.now.bytes }
    ensures ok { OnOk result (text.new.items ≡ owner_text metadata.now.bytes owner) }
    ensures err { OnErr result (text.new.items ≡ []) }
{
    text.clear();
    let appended = append_owner(alloc, text, metadata, owner);
    if appended.is_err() {
        text.clear();
    }
    appended
}
