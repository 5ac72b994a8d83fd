//! What is wrong with metadata.

ghost use Rattle.std.specs.Prelude.{◌≡◌};
ghost use Rattle.metadata_tables.specs.Tests.{offset_of};

use thiserror::Error;

/// Why metadata is refused: the first fault in reading order. Offsets are counted in bytes from the
/// start of the metadata.
#[derive(Clone, Copy, Debug, PartialEq, Eq, Error)]
pub enum TableFault {
    /// The metadata root is none, or a field, a stream header or a stream of it passes the end (II.24.2.1).
    #[error("bad metadata root")]
    BadRoot,
    /// One of the streams `#~`, `#Strings` and `#Blob` is missing.
    #[error("missing stream")]
    MissingStream,
    /// This bit of the field Valid, which stands at this offset, is that of a table that there is not (II.24.2.6).
    #[error("bad tables: bit {0} of the field at {1:08x}")]
    BadTables(u8, u32),
    /// The header field, row count or row at this offset passes the end of the stream `#~`.
    #[error("tables too short at {0:08x}")]
    Short(u32),
    /// The cell of this table, row and column names a row that there is not.
    #[error("index out of range in row {1} of table {0:02x}, column {2}")]
    IndexOut(u8, u32, u8),
    /// The cell at this offset names no item of its heap.
    #[error("heap end at {0:08x}")]
    HeapEnd(u32),
}

impl TableFault {
    /// The offset in the metadata that the fault names, 0 where it names none.
    pub fn at(self) -> u32
        ensures { result ≡ offset_of self }
    {
        match self {
            TableFault::BadTables(_, at) | TableFault::Short(at) | TableFault::HeapEnd(at) => at,
            TableFault::BadRoot | TableFault::MissingStream | TableFault::IndexOut(..) => 0,
        }
    }
}
