//! The metadata root and its streams (ECMA-335 II.24.2.1 and II.24.2.2).

ghost use Rattle.std.specs.Prelude.{◌≡◌, ◌+◌, ◌^◌, ◌<◌, ◌≤◌, ⊤, length, IfOk, IfErr, Some, None, if◌then◌else◌, codes};
ghost use Rattle.std.specs.Option.{option_or};
ghost use Rattle.std.specs.Str.{bytes_eq};
ghost use Rattle.cc_base.specs.Tests.{first_of, Judges};
ghost use Rattle.metadata_tables.specs.Root.{headers_at, root_tests, name_of, next_header, stream_of, header_tests, headers_tests, stream_among, stream, presence_of, streams_tests};
ghost use Rattle.metadata_tables.specs.Tests.{offset_of};

use crate::fault::TableFault;
use crate::heaps::zero_ended;
use cc_base::{u16_at, u32_at};

/// The bytes `BSJB`, with which the root begins.
const SIGNATURE: u32 = 0x424a_5342;

/// A stream: where it begins in the metadata, and how many bytes it has.
#[derive(Clone, Copy, Debug, PartialEq, Eq)]
pub(crate) struct Stream {
    pub(crate) at: u32,
    pub(crate) size: u32,
}

/// The streams that were found, the first of each name.
#[derive(Clone, Copy)]
struct Found {
    tables: Option<Stream>,
    strings: Option<Stream>,
    blob: Option<Stream>,
    user_strings: Option<Stream>,
}

/// The streams of metadata, of which `#US` may be missing.
#[derive(Clone, Copy)]
pub(crate) struct Streams {
    pub(crate) tables: Stream,
    pub(crate) strings: Stream,
    pub(crate) blob: Stream,
    pub(crate) user_strings: Option<Stream>,
}

/// A stream header.
#[derive(Clone, Copy)]
struct Header<'a> {
    stream: Stream,
    name: &'a [u8],
    /// Where the next one stands.
    next: usize,
}

/// Where the first stream header stands.
fn read_root(md: &[u8]) -> Result<usize, TableFault>
    requires { length md.now < 2 ^ 31 }
    ensures fault_at_prefix { IfErr result (λ fault. offset_of fault ≡ 0) }
    ensures judged { Judges result (first_of (root_tests md.now)) (λ _. ⊤) }
    ensures place { IfOk result (λ at. at ≡ headers_at md.now) }
    ensures within { IfOk result (λ at. at ≤ length md.now) }
    ensures behind { IfOk result (λ at. 20 ≤ at) }
{
    if md.len() < 16 || u32_at(md, 0) != SIGNATURE {
        return Err(TableFault::BadRoot);
    }
    let first = 20 + u32_at(md, 12) as usize;
    if md.len() < first {
        return Err(TableFault::BadRoot);
    }
    Ok(first)
}

/// The stream header at a place.
#[tactic(auto, unfolding(crate::specs::Root::stream_of))]
fn read_header(md: &[u8], at: usize) -> Result<Header<'_>, TableFault>
    requires length { length md.now < 2 ^ 31 }
    requires place { at ≤ length md.now }
    ensures fault_at_prefix { IfErr result (λ fault. offset_of fault ≡ 0) }
    ensures judged { Judges result (first_of (header_tests md.now at)) (λ _. ⊤) }
    ensures stream { IfOk result (λ header. header.stream ≡ stream_of md.now at) }
    ensures name { IfOk result (λ header. name_of md.now at ≡ Some header.name.now) }
    ensures next { IfOk result (λ header. header.next ≡ next_header md.now at) }
    ensures within { IfOk result (λ header. header.next ≤ length md.now) }
{
    if md.len() - at < 8 {
        return Err(TableFault::BadRoot);
    }
    let stream = Stream {
        at: u32_at(md, at),
        size: u32_at(md, at + 4),
    };
    let Some(name) = zero_ended(&md[at + 8..]) else {
        return Err(TableFault::BadRoot);
    };
    let next = at + 8 + (name.len() + 4) / 4 * 4;
    if md.len() < next || (md.len() as u64) < u64::from(stream.at) + u64::from(stream.size) {
        return Err(TableFault::BadRoot);
    }
    Ok(Header { stream, name, next })
}

/// The stream that was found before, else this one where it has the name.
fn first_named(found: Option<Stream>, wanted: &[u8], name: &[u8], stream: Stream) -> Option<Stream>
    ensures { result ≡ option_or found (if bytes_eq name.now wanted.now then Some stream else None) }
{
    if found.is_none() && name == wanted {
        Some(stream)
    } else {
        found
    }
}

/// The streams of these stream headers.
fn read_headers(md: &[u8], first: usize, count: u16) -> Result<Found, TableFault>
    requires length { length md.now < 2 ^ 31 }
    requires place { first ≤ length md.now }
    ensures fault_at_prefix { IfErr result (λ fault. offset_of fault ≡ 0) }
    ensures judged { Judges result (first_of (headers_tests md.now count first)) (λ _. ⊤) }
    ensures tables { IfOk result (λ found. found.tables ≡ stream_among md.now (codes "#~") count first) }
    ensures strings { IfOk result
        (λ found. found.strings ≡ stream_among md.now (codes "#Strings") count first) }
    ensures blob { IfOk result (λ found. found.blob ≡ stream_among md.now (codes "#Blob") count first) }
    ensures user_strings { IfOk result
        (λ found. found.user_strings ≡ stream_among md.now (codes "#US") count first) }
{
    let mut found = Found {
        tables: None,
        strings: None,
        blob: None,
        user_strings: None,
    };
    let mut at = first;
    for _ in 0..count {
        let header = read_header(md, at)?;
        found = Found {
            tables: first_named(found.tables, b"#~", header.name, header.stream),
            strings: first_named(found.strings, b"#Strings", header.name, header.stream),
            blob: first_named(found.blob, b"#Blob", header.name, header.stream),
            user_strings: first_named(found.user_strings, b"#US", header.name, header.stream),
        };
        at = header.next;
    }
    Ok(found)
}

/// The streams that have to be there, and `#US` where it is.
#[tactic(auto, unfolding(crate::specs::Root::presence_of, cc_base::specs::Tests::first_of))]
fn all_present(found: Found) -> Result<Streams, TableFault>
    ensures fault_at_prefix { IfErr result (λ fault. offset_of fault ≡ 0) }
    ensures judged { Judges result (first_of (presence_of found.tables found.strings found.blob)) (λ _. ⊤) }
    ensures tables { IfOk result (λ streams. found.tables ≡ Some streams.tables) }
    ensures strings { IfOk result (λ streams. found.strings ≡ Some streams.strings) }
    ensures blob { IfOk result (λ streams. found.blob ≡ Some streams.blob) }
    ensures user_strings { IfOk result (λ streams. found.user_strings ≡ streams.user_strings) }
{
    let Some(tables) = found.tables else {
        return Err(TableFault::MissingStream);
    };
    let Some(strings) = found.strings else {
        return Err(TableFault::MissingStream);
    };
    let Some(blob) = found.blob else {
        return Err(TableFault::MissingStream);
    };
    let user_strings = found.user_strings;
    Ok(Streams {
        tables,
        strings,
        blob,
        user_strings,
    })
}

/// The streams of metadata.
pub(crate) fn read_streams(md: &[u8]) -> Result<Streams, TableFault>
    requires { length md.now < 2 ^ 31 }
    ensures fault_at_prefix { IfErr result (λ fault. offset_of fault ≡ 0) }
    ensures judged { Judges result (first_of (streams_tests md.now)) (λ _. ⊤) }
    ensures tables { IfOk result (λ streams. stream md.now (codes "#~") ≡ Some streams.tables) }
    ensures strings { IfOk result (λ streams. stream md.now (codes "#Strings") ≡ Some streams.strings) }
    ensures blob { IfOk result (λ streams. stream md.now (codes "#Blob") ≡ Some streams.blob) }
    ensures user_strings { IfOk result (λ streams. stream md.now (codes "#US") ≡ streams.user_strings) }
{
    let first = read_root(md)?;
    let found = read_headers(md, first, u16_at(md, first - 2))?;
    all_present(found)
}
