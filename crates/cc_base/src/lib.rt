//! Numbers, files and sinks: what every other crate of cccheck stands on.
#![tactic(auto)]

mod compressed;
mod digits;
mod escapes;
mod files;
mod little_endian;
mod map_files;
mod offset;
mod refusal;
mod sink;
mod token;
mod vec_sink;
mod wrap;

pub use compressed::{Compressed, CompressedFault, compressed_number};
pub use digits::{put_hex, put_number};
pub use escapes::append_escaped;
pub use files::{Files, READ_LIMIT, ReadRefusal, ReplaceRefusal};
pub use little_endian::{little_endian_law, u16_at, u32_at, u64_at};
pub use map_files::{MapFiles, NamedFile};
pub use offset::Offset;
pub use refusal::Refusal;
pub use sink::{PutRefusal, Sink};
use std::alloc::AllocError;
pub use token::Token;
pub use vec_sink::VecSink;
pub use wrap::wrap32;

/// Memory ran out.
pub type NoMemory = AllocError;
