//! The blobs in the heap `#Blob` (ECMA-335 II.24.2.4).

ghost use Rattle.std.specs.Prelude.{◌≡◌, ◌<◌, ◌≤◌, map, flat_map, length, slice_get, Some, All, IsTrue, OnOk, IfOk};
ghost use Rattle.asm_writer.specs.Blobs.{cited_blobs, blob_content, blob_index, signature_index, locals_index, extern_signature_index, blob_item, method_blob_items, blob_heap};
ghost use Rattle.asm_writer.specs.Limits.{is_within, is_short_extern};
ghost use Rattle.asm_writer.specs.Packing.{pushed, pushed_all};
ghost use Rattle.asm_writer.specs.Signatures.{extern_blob};

use crate::packed::Packed;
use crate::plan::{Extern, MethodPlan};
use crate::signature::{
    BOOLEAN, I4, MVAR, STRING, SZARRAY, VOID, append_compressed, append_local_blob,
    append_signature_blob,
};
use std::alloc::{AllocError, Global};

/// A blob that a row cites, but those of the methods.
#[derive(Clone, Copy)]
pub enum Blob {
    /// The empty blob.
    Empty,
    /// The signature of a call with a condition.
    Condition,
    /// The same with a message after the condition.
    ConditionAndMessage,
    /// The signature of a call with no arguments.
    Nothing,
    /// The signature of `Result`.
    Result,
    /// The signature of `OldValue`.
    OldValue,
    /// The instantiation by bool.
    OfBool,
    /// The instantiation by int32.
    OfInt,
    /// The instantiation by bool[].
    OfBools,
    /// The instantiation by int32[].
    OfInts,
}

/// The blobs, in the order of the heap.
const BLOBS: [Blob; 10] = [
    Blob::Empty,
    Blob::Condition,
    Blob::ConditionAndMessage,
    Blob::Nothing,
    Blob::Result,
    Blob::OldValue,
    Blob::OfBool,
    Blob::OfInt,
    Blob::OfBools,
    Blob::OfInts,
];

impl Blob {
    /// Which of the blobs of the heap it is.
    pub fn index(self) -> usize
        ensures is { result ≡ blob_index self }
        ensures cited { slice_get cited_blobs result ≡ Some self }
    {
        self as usize
    }

    /// Its bytes, without the length before them.
    fn content(self) -> &'static [u8]
        ensures is { result.now ≡ blob_content self }
        ensures few { length result.now ≤ 7 }
    {
        match self {
            Blob::Empty => &[],
            Blob::Condition => &[0x00, 1, VOID, BOOLEAN],
            Blob::ConditionAndMessage => &[0x00, 2, VOID, BOOLEAN, STRING],
            Blob::Nothing => &[0x00, 0, VOID],
            Blob::Result => &[0x10, 1, 0, MVAR, 0],
            Blob::OldValue => &[0x10, 1, 1, MVAR, 0, MVAR, 0],
            Blob::OfBool => &[0x0a, 1, BOOLEAN],
            Blob::OfInt => &[0x0a, 1, I4],
            Blob::OfBools => &[0x0a, 1, SZARRAY, BOOLEAN],
            Blob::OfInts => &[0x0a, 1, SZARRAY, I4],
        }
    }
}

/// The index of the blob of the signature of the method of this index.
pub fn signature_index(method: u32) -> usize
    ensures { result ≡ signature_index method }
{
    BLOBS.len() + 2 * method as usize
}

/// The index of the blob of the locals of the method of this index.
pub fn locals_index(method: u32) -> usize
    ensures { result ≡ locals_index method }
{
    BLOBS.len() + 2 * method as usize + 1
}

/// The index of the blob of the signature of the extern of this index, after so many methods.
pub fn extern_signature_index(methods: u32, index: u32) -> usize
    ensures { result ≡ extern_signature_index methods index }
{
    signature_index(methods) + index as usize
}

/// Appends a blob.
#[tactic(auto, unfolding(crate::specs::Signatures::blob))]
fn push_blob(heap: &mut Packed, blob: Blob) -> Result<(), AllocError>
    ensures { OnOk result (heap.new ≡ pushed heap.old (blob_item blob)) }
{
    let content = blob.content();
    heap.begin()?;
    append_compressed(&mut heap.bytes, content.len())?;
    heap.bytes.extend_from_slice(content)
}

/// Appends blobs.
#[tactic(auto, unfolding(crate::specs::Packing::pushed_all))]
fn push_blobs(heap: &mut Packed, blobs: &[Blob]) -> Result<(), AllocError>
    ensures { OnOk result (heap.new ≡ pushed_all heap.old (map blob_item blobs.now)) }
{
    for blob in blobs {
        push_blob(heap, *blob)?;
    }
    Ok(())
}

/// Appends the blobs of a method.
#[tactic(auto, unfolding(crate::specs::Limits::is_within, crate::specs::Packing::pushed_all, crate::specs::Signatures::signature, crate::specs::Signatures::signature_blob))]
fn push_method(heap: &mut Packed, method: &MethodPlan) -> Result<(), AllocError>
    requires { IsTrue (is_within method.now) }
    ensures { OnOk result (heap.new ≡ pushed_all heap.old (method_blob_items method.now)) }
{
    heap.begin()?;
    append_signature_blob(
        &mut heap.bytes,
        method.is_static,
        method.result,
        &method.args,
    )?;
    heap.begin()?;
    append_local_blob(&mut heap.bytes, &method.locals)
}

/// Appends the blobs of methods.
#[tactic(auto, unfolding(crate::specs::Packing::pushed_all))]
fn push_methods(heap: &mut Packed, methods: &[MethodPlan]) -> Result<(), AllocError>
    requires { All (λ m. IsTrue (is_within m)) methods.now }
    ensures { OnOk result
        (heap.new ≡ pushed_all heap.old (flat_map method_blob_items methods.now)) }
{
    for method in methods {
        push_method(heap, method)?;
    }
    Ok(())
}

/// Appends the blob of an extern.
#[tactic(auto, unfolding(crate::specs::Limits::is_short_extern, crate::specs::Signatures::extern_signature, crate::specs::Signatures::extern_blob))]
fn push_extern(heap: &mut Packed, method: &Extern) -> Result<(), AllocError>
    requires { IsTrue (is_short_extern method.now) }
    ensures { OnOk result (heap.new ≡ pushed heap.old (extern_blob method.now)) }
{
    heap.begin()?;
    append_signature_blob(&mut heap.bytes, true, method.result, &method.args)
}

/// Appends the blobs of externs.
#[tactic(auto, unfolding(crate::specs::Packing::pushed_all))]
fn push_externs(heap: &mut Packed, externs: &[Extern]) -> Result<(), AllocError>
    requires { All (λ e. IsTrue (is_short_extern e)) externs.now }
    ensures { OnOk result (heap.new ≡ pushed_all heap.old (map extern_blob externs.now)) }
{
    for method in externs {
        push_extern(heap, method)?;
    }
    Ok(())
}

/// The heap `#Blob`.
pub fn blob_heap(
    alloc: Global,
    methods: &[MethodPlan],
    externs: &[Extern],
) -> Result<Packed, AllocError>
    requires methods { All (λ m. IsTrue (is_within m)) methods.now }
    requires externs { All (λ e. IsTrue (is_short_extern e)) externs.now }
    ensures { IfOk result (λ heap. heap ≡ blob_heap methods.now externs.now) }
{
    let mut heap = Packed::new(alloc);
    push_blobs(&mut heap, &BLOBS)?;
    push_methods(&mut heap, methods)?;
    push_externs(&mut heap, externs)?;
    heap.fill()?;
    Ok(heap)
}
