//! Where an entry stands.

ghost use Rattle.std.specs.Prelude.{◌≡◌};
ghost use Rattle.result_cache.specs.Rows.{IsWithin, key_in, value_in};

use crate::link::Link;

/// Where an entry stands in bytes: its key from `start` to `middle`, its value from there to `end`.
#[derive(Clone, Copy)]
pub struct Row {
    pub(crate) start: u32,
    pub(crate) middle: u32,
    pub(crate) end: u32,
    /// The entry before it in its bucket.
    pub(crate) next: Link,
}

impl Row {
    /// The key.
    pub(crate) fn key<'a>(&self, bytes: &'a [u8]) -> &'a [u8]
        requires { IsWithin bytes.now self.now }
        ensures { result.now ≡ key_in bytes.now self.now }
    {
        &bytes[self.start as usize..self.middle as usize]
    }

    /// The value.
    pub(crate) fn value<'a>(&self, bytes: &'a [u8]) -> &'a [u8]
        requires { IsWithin bytes.now self.now }
        ensures { result.now ≡ value_in bytes.now self.now }
    {
        &bytes[self.middle as usize..self.end as usize]
    }
}
