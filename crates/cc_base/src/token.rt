//! Metadata tokens.

ghost use Rattle.std.specs.Prelude.{◌≡◌, ◌<◌, ◌^◌};
ghost use Rattle.cc_base.specs.Tokens.{token_of, table_of, row_of};

/// A metadata token: its table in the high byte, and its row in the low three bytes
/// (ECMA-335 III.1.9).
#[derive(Clone, Copy, Debug, PartialEq, Eq, PartialOrd, Ord, Hash)]
pub struct Token(pub u32);

impl Token {
    /// The token of a row of a table. Rows are counted from 1.
    pub fn new(table: u8, row: u32) -> Token
        requires { row < 2 ^ 24 }
        ensures value { result.0 ≡ token_of table row }
        ensures table { table_of result.0 ≡ table }
        ensures row { row_of result.0 ≡ row }
    {
        Token((u32::from(table) << 24) + row)
    }

    /// The number of the table.
    pub fn table(self) -> u8
        ensures { result ≡ table_of self.0 }
    {
        (self.0 >> 24) as u8
    }

    /// The row in the table.
    pub fn row(self) -> u32
        ensures value { result ≡ row_of self.0 }
        ensures small { result < 2 ^ 24 }
        // The table and the row are the whole token.
        ensures whole { token_of (table_of self.0) result ≡ self.0 }
    {
        self.0 & 0x00ff_ffff
    }
}
