//! The metadata (ECMA-335 II.24.2).

ghost use Rattle.std.specs.Prelude.{◌≡◌, ◌++◌, ◌<◌, ◌^◌, length, IfOk, OnOk};
ghost use Rattle.asm_writer.specs.Metadata.{added, joined, streams, root_prefix, metadata};

use crate::layout::Layout;
use crate::number::Number::{Four, Two, Zeros};
use crate::number::append_numbers;
use crate::plan::MethodPlan;
use crate::tables::tables_stream;
use std::alloc::{AllocError, Global};
use std::marker::Model;

/// The number of bytes that the root has, with the headers of the five streams.
const ROOT_SIZE: u64 = 108;

/// The heap `#US`, which has the one message `contract`.
const USER_STRINGS: &[u8] = b"\0\x11c\0o\0n\0t\0r\0a\0c\0t\0\0\0";

/// The heap `#GUID`.
const GUIDS: &[u8] = &[1, 2, 3, 4, 5, 6, 7, 8, 9, 10, 11, 12, 13, 14, 15, 16];

/// Streams as they are added: their headers, and their bytes.
#[derive(Drop)]
struct Streams {
    headers: Vec<u8>,
    bytes: Vec<u8>,
}

impl Model for Streams {
    ghost use Rattle.asm_writer.specs.Metadata.{Joined};

    ghost Value = { Joined };

    ghost view = { λ s. record { headers = s.headers.items; bytes = s.bytes.items } };
}

impl Streams {
    /// Adds a stream, whose name has its zeros (II.24.2.2).
    fn add(&mut self, name: &[u8], bytes: &[u8]) -> Result<(), AllocError>
        ensures { OnOk result
            (self.new ≡ added ROOT_SIZE self.old (record { name = name.now; bytes = bytes.now })) }
    {
        let offset = ROOT_SIZE + self.bytes.len() as u64;
        append_numbers(&mut self.headers, &[Four(offset), Four(bytes.len() as u64)])?;
        self.headers.extend_from_slice(name)?;
        self.bytes.extend_from_slice(bytes)
    }
}

/// The five streams, of which the first is `#~`.
#[tactic(auto, unfolding(crate::specs::Metadata::joined, crate::specs::Metadata::padded_text, crate::specs::Padding::padded, crate::specs::Padding::round_up, crate::specs::Names::zero_ended))]
fn join(alloc: Global, layout: &Layout, tables: &[u8]) -> Result<Streams, AllocError>
    ensures { IfOk result (λ all. all ≡ joined ROOT_SIZE (streams tables.now layout.now)) }
{
    let mut streams = Streams {
        headers: Vec::new(alloc),
        bytes: Vec::new(alloc),
    };
    streams.add(b"#~\0\0", tables)?;
    streams.add(b"#Strings\0\0\0\0", &layout.strings.bytes)?;
    streams.add(b"#US\0", USER_STRINGS)?;
    streams.add(b"#GUID\0\0\0", GUIDS)?;
    streams.add(b"#Blob\0\0\0", &layout.blobs.bytes)?;
    Ok(streams)
}

/// Appends what stands before the stream headers (II.24.2.1).
#[tactic(auto, unfolding(crate::specs::Metadata::root_prefix, crate::specs::Metadata::padded_text, crate::specs::Padding::padded, crate::specs::Padding::round_up, crate::specs::Names::zero_ended))]
fn append_root_prefix(out: &mut Vec<u8>) -> Result<(), AllocError>
    ensures { OnOk result (out.new.items ≡ out.old.items ++ root_prefix 5) }
{
    append_numbers(out, &[Four(0x424a_5342), Zeros(8), Four(12)])?;
    out.extend_from_slice(b"v4.0.30319\0\0")?;
    append_numbers(out, &[Two(0), Two(5)])
}

/// The metadata.
#[tactic(auto, using(crate::proofs::MetadataLemmas::metadata_parts))]
pub fn metadata(
    alloc: Global,
    layout: &Layout,
    methods: &[MethodPlan],
) -> Result<Vec<u8>, AllocError>
    requires few { length methods.now < 2 ^ 24 }
    requires few_externs { layout.now.externs < 2 ^ 24 }
    ensures { IfOk result (λ bytes. bytes.items ≡ metadata layout.now methods.now) }
{
    let tables = tables_stream(alloc, layout, methods)?;
    let streams = join(alloc, layout, &tables)?;
    let mut out = Vec::new(alloc);
    append_root_prefix(&mut out)?;
    out.extend_from_slice(&streams.headers)?;
    out.extend_from_slice(&streams.bytes)?;
    Ok(out)
}
