//! What tokens name (III.1.9).

#![tactic(auto, using(metadata_tables::proofs::ColumnLemmas::known_columns))]

ghost use Rattle.std.specs.Prelude.{◌≡◌, IfSome};
ghost use Rattle.metadata_tables.specs.Numbers.{stand_alone_sig, type_ref};
ghost use Rattle.asm_image.specs.Cells.{HasRow};
ghost use Rattle.asm_image.specs.Tokens.{row_in, locals_at, locals_of, element_at, element_of};

use crate::metadata::Metadata;
use cc_base::Token;
use cil_model::Place;
use metadata_tables::column::{STAND_ALONE_SIG_SIGNATURE, TYPE_REF_NAME, TYPE_REF_NAMESPACE};
use metadata_tables::table::{STAND_ALONE_SIG, TYPE_REF};
use signature_blobs::{LocalSig, Places, local_sig};

/// The row of a table that a token names, none where it names no row of it.
#[tactic(auto, unfolding(crate::specs::Tokens::row_in))]
pub fn row_in(metadata: &Metadata<'_>, table: u8, token: Token) -> Option<u32>
    ensures row { result ≡ row_in metadata.now.bytes table token.0 }
    ensures there { IfSome result (λ row. HasRow metadata.now.bytes table row) }
{
    let row = token.row();
    if token.table() == table && row >= 1 && row <= metadata.row_count(table) {
        Some(row)
    } else {
        None
    }
}

/// The locals that a row of the table StandAloneSig says.
#[tactic(auto, using(metadata_tables::proofs::ColumnLemmas::known_columns, crate::proofs::BlobLemmas::blob_short), unfolding(crate::specs::Tokens::locals_at))]
fn locals_at(metadata: &Metadata<'_>, row: u32) -> Option<LocalSig>
    requires { HasRow metadata.now.bytes stand_alone_sig row }
    ensures { result ≡ locals_at metadata.now.bytes row }
{
    let tables = metadata.tables();
    let index = metadata.cell(STAND_ALONE_SIG, row, STAND_ALONE_SIG_SIGNATURE);
    let blob = tables.blob_at(index)?;
    local_sig(blob).ok()
}

/// The locals that a token names.
#[tactic(auto, unfolding(crate::specs::Tokens::locals_of))]
pub fn locals_of(metadata: &Metadata<'_>, token: Token) -> Option<LocalSig>
    ensures { result ≡ locals_of metadata.now.bytes token.0 }
{
    if token.0 == 0 {
        return Some(LocalSig::Known(Places::new()));
    }
    locals_at(metadata, row_in(metadata, STAND_ALONE_SIG, token)?)
}

/// The type that a row of the table TypeRef names.
#[tactic(auto, using(metadata_tables::proofs::ColumnLemmas::known_columns), unfolding(crate::specs::Tokens::element_at))]
fn element_at(metadata: &Metadata<'_>, row: u32) -> Option<Place>
    requires { HasRow metadata.now.bytes type_ref row }
    ensures { result ≡ element_at metadata.now.bytes row }
{
    if !metadata.text_is(TYPE_REF, row, TYPE_REF_NAMESPACE, b"System") {
        return None;
    }
    if metadata.text_is(TYPE_REF, row, TYPE_REF_NAME, b"Int32") {
        Some(Place::Int)
    } else if metadata.text_is(TYPE_REF, row, TYPE_REF_NAME, b"Boolean") {
        Some(Place::Bool)
    } else {
        None
    }
}

/// The type of an array's elements, which a token names.
#[tactic(auto, unfolding(crate::specs::Tokens::element_of))]
pub fn element_of(metadata: &Metadata<'_>, token: Token) -> Option<Place>
    ensures { result ≡ element_of metadata.now.bytes token.0 }
{
    element_at(metadata, row_in(metadata, TYPE_REF, token)?)
}
