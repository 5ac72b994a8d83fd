//! The signatures of methods and locals (ECMA-335 II.23.2), and their blobs (II.24.2.4).

ghost use Rattle.std.specs.Prelude.{◌≡◌, ◌+◌, ◌*◌, ◌<◌, ◌≤◌, ◌++◌, length, flat_map, OnOk, true};
ghost use Rattle.cil_model.specs.Limits.{MAX_VARIABLES};
ghost use Rattle.asm_writer.specs.Signatures.{compressed, blob, type_bytes, signature_of, local_signature, local_blob};

use cil_model::Place;
use std::alloc::AllocError;

/// Types as they stand in signatures (II.23.1.16).
pub const VOID: u8 = 0x01;

pub const BOOLEAN: u8 = 0x02;

pub const I4: u8 = 0x08;

pub const STRING: u8 = 0x0e;

pub const SZARRAY: u8 = 0x1d;

pub const MVAR: u8 = 0x1e;

/// The bytes of a type.
fn type_bytes(place: Place) -> &'static [u8]
    ensures { result.now ≡ type_bytes place }
{
    match place {
        Place::Void => &[VOID],
        Place::Bool => &[BOOLEAN],
        Place::Int => &[I4],
        Place::Bools => &[SZARRAY, BOOLEAN],
        Place::Ints => &[SZARRAY, I4],
    }
}

/// Returns how many bytes types have together.
fn types_size(places: &[Place]) -> usize
    requires { length places.now ≤ MAX_VARIABLES }
    ensures is { result ≡ length (flat_map type_bytes places.now) }
    ensures bound { result ≤ 2 * length places.now }
{
    let mut size = 0;
    for place in places {
        size += type_bytes(*place).len();
    }
    size
}

/// Returns how many bytes a compressed number has.
#[tactic(auto, unfolding(crate::specs::Signatures::compressed))]
fn compressed_size(n: usize) -> usize
    requires { n < 0x4000 }
    ensures is { result ≡ length (compressed n) }
    ensures bound { result ≤ 2 }
{
    if n < 0x80 { 1 } else { 2 }
}

/// Appends a compressed number.
#[tactic(auto, unfolding(crate::specs::Signatures::compressed))]
pub fn append_compressed(out: &mut Vec<u8>, n: usize) -> Result<(), AllocError>
    requires { n < 0x4000 }
    ensures { OnOk result (out.new.items ≡ out.old.items ++ compressed n) }
{
    if n < 0x80 {
        out.push(n as u8)?;
    } else {
        out.push((0x80 + n / 256) as u8)?;
        out.push((n % 256) as u8)?;
    }
    Ok(())
}

/// Appends the bytes of types.
fn append_types(out: &mut Vec<u8>, places: &[Place]) -> Result<(), AllocError>
    ensures { OnOk result (out.new.items ≡ out.old.items ++ flat_map type_bytes places.now) }
{
    for place in places {
        out.extend_from_slice(type_bytes(*place))?;
    }
    Ok(())
}

/// Returns how many bytes the signature of a method has that returns this and has these arguments, whether it is static
/// or not.
fn signature_size(gives: Place, args: &[Place]) -> usize
    requires { length args.now ≤ MAX_VARIABLES }
    ensures is { result ≡ length (signature_of true gives args.now) }
    ensures bound { result ≤ 517 }
{
    1 + compressed_size(args.len()) + type_bytes(gives).len() + types_size(args)
}

/// Appends the blob of the signature of a method that returns this and has these arguments.
#[tactic(auto, unfolding(crate::specs::Signatures::blob))]
pub fn append_signature_blob(
    out: &mut Vec<u8>,
    is_static: bool,
    gives: Place,
    args: &[Place],
) -> Result<(), AllocError>
    requires { length args.now ≤ MAX_VARIABLES }
    ensures { OnOk result
        (out.new.items ≡ out.old.items ++ blob (signature_of is_static gives args.now)) }
{
    append_compressed(out, signature_size(gives, args))?;
    out.push(if is_static { 0x00 } else { 0x20 })?;
    append_compressed(out, args.len())?;
    out.extend_from_slice(type_bytes(gives))?;
    append_types(out, args)
}

/// Appends the blob of local variables, where there are any.
#[tactic(auto, unfolding(crate::specs::Signatures::local_signature, crate::specs::Signatures::local_blob, crate::specs::Signatures::blob))]
pub fn append_local_blob(out: &mut Vec<u8>, locals: &[Place]) -> Result<(), AllocError>
    requires { length locals.now ≤ MAX_VARIABLES }
    ensures { OnOk result (out.new.items ≡ out.old.items ++ local_blob locals.now) }
{
    if locals.is_empty() {
        return Ok(());
    }
    append_compressed(out, 1 + compressed_size(locals.len()) + types_size(locals))?;
    out.push(0x07)?;
    append_compressed(out, locals.len())?;
    append_types(out, locals)
}
