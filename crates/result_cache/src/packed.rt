//! Values by keys, all in one vector of bytes.
//!
//! A map of vectors takes some 110 bytes for each entry beside its own, and two allocations: ten times the size of a
//! cache file of the shortest entries. Here an entry takes 20 bytes, 16 for its row and 4 for a bucket, while entries
//! are no more than was asked for; where they are added one by one, the vectors have up to twice the room.

ghost use Rattle.std.specs.Prelude.{◌≡◌, ◌+◌, ◌<◌, ◌^◌, ◌++◌, [], ◌∷◌, false, length, option_map, slice_get, IfOk, IfSome, IfNone, OnErr, OnOk, vec_len, vec_capacity};
ghost use Rattle.cc_base.specs.Sink.{IsPrefix};
ghost use Rattle.result_cache.specs.Buckets.{AreRows, hash_of, head_of, with_head};
ghost use Rattle.result_cache.specs.Entries.{invariant_of, is_among, keys_of, with_entry, IsKeyAt};
ghost use Rattle.result_cache.specs.Links.{no_link};
ghost use Rattle.result_cache.specs.Rows.{entries_in, row_after, with_next};

use crate::buckets::{buckets, chain, empty_buckets, find, hash_of};
use crate::link::Link;
use crate::row::Row;
use cc_base::NoMemory;
use std::alloc::{AllocError, Global};
use std::marker::Model;

/// The buckets of the first entries that are added one by one.
const FEWEST: usize = 8;

/// The most entries: those that a link can name.
const MOST: usize = (1 << 23) - 1;

/// Values by keys, in the order in which the keys came. The bytes of all stand in one vector, which also keeps those of
/// an entry whose value was replaced.
#[derive(Drop)]
pub struct Packed {
    bytes: Vec<u8>,
    rows: Vec<Row>,
    /// For each bucket of hashes its last entry.
    heads: Vec<Link>,
}

impl Model for Packed {
    ghost use Rattle.std.specs.Prelude.{List};
    ghost use Rattle.result_cache.specs.Entries.{Entry};
    ghost use Rattle.result_cache.specs.Rows.{entries_in};
    ghost use Rattle.result_cache.specs.Buckets.{AreRows};

    ghost Value = { List Entry };

    ghost view = { λ packed. entries_in packed.bytes.items packed.rows.items };

    ghost invariant = { λ packed. AreRows packed.bytes.items packed.rows.items packed.heads.items };
}

/// Appends the bytes of an entry, where they end below 2^32.
fn append(bytes: &mut Vec<u8>, key: &[u8], value: &[u8]) -> Result<Row, NoMemory>
    ensures bytes { OnOk result (bytes.new.items ≡ bytes.old.items ++ (key.now ++ value.now)) }
    ensures row { IfOk result (λ row. row ≡ row_after bytes.old.items key.now value.now no_link) }
    ensures err { OnErr result (IsPrefix bytes.old.items bytes.new.items) }
{
    let start = bytes.len();
    let Ok(end) = u32::try_from(start.saturating_add(key.len()).saturating_add(value.len())) else {
        return Err(AllocError);
    };
    bytes.extend_from_slice(key)?;
    bytes.extend_from_slice(value)?;
    Ok(Row {
        start: start as u32,
        middle: (start + key.len()) as u32,
        end,
        next: Link::NONE,
    })
}

/// Makes room for one entry more, and for its bucket.
fn make_room(bytes: &[u8], rows: &mut Vec<Row>, heads: &mut Vec<Link>) -> Result<(), NoMemory>
    requires { AreRows bytes.now rows.old.items heads.old.items }
    ensures rows { AreRows bytes.now rows.new.items heads.new.items }
    ensures entries { entries_in bytes.now rows.new.items ≡ entries_in bytes.now rows.old.items }
    ensures room { OnOk result (vec_len rows.new < vec_capacity rows.new) }
    ensures bucket { OnOk result (length rows.new.items < length heads.new.items) }
    ensures number { OnOk result (length rows.new.items + 1 < 2 ^ 23) }
{
    let count = rows.len();
    if count >= MOST {
        return Err(AllocError);
    }
    rows.reserve(1)?;
    if count < heads.len() {
        return Ok(());
    }
    let alloc = *rows.allocator();
    *heads = buckets(alloc, bytes, rows, FEWEST.max(2 * count))?;
    Ok(())
}

/// Adds the row of an entry whose key has this hash as the last one of its bucket, where there is room.
fn add_row(rows: &mut Vec<Row>, heads: &mut Vec<Link>, hash: u64, row: Row)
    requires room { vec_len rows.old < vec_capacity rows.old }
    requires number { length rows.old.items + 1 < 2 ^ 23 }
    requires some { 0 < length heads.old.items }
    ensures rows { rows.new.items ≡ rows.old.items ++ with_next row (head_of heads.old.items hash) ∷ [] }
    ensures heads { heads.new.items ≡ with_head heads.old.items hash (length rows.old.items + 1) }
{
    let next = chain(heads, hash, rows.len() as u32 + 1);
    rows.push_reserved(Row { next, ..row });
}

impl Packed {
    /// No entry.
    pub fn new(alloc: Global) -> Packed
        ensures { result ≡ [] }
    {
        Packed {
            bytes: Vec::new(alloc),
            rows: Vec::new(alloc),
            heads: Vec::new(alloc),
        }
    }

    /// No entry, and room for so many, with so many bytes together.
    pub fn with_capacity(alloc: Global, count: usize, bytes: usize) -> Result<Packed, NoMemory>
        ensures { IfOk result (λ packed. packed ≡ []) }
    {
        Ok(Packed {
            bytes: Vec::with_capacity(alloc, bytes)?,
            rows: Vec::with_capacity(alloc, count)?,
            heads: empty_buckets(alloc, count)?,
        })
    }

    /// The number of entries.
    pub fn len(&self) -> usize
        ensures { result ≡ length self.now }
    {
        self.rows.len()
    }

    /// The entry at an index.
    pub fn entry(&self, index: usize) -> Option<(&[u8], &[u8])>
        ensures { option_map (λ e. (e.0.now, e.1.now)) result ≡ slice_get self.now index }
    {
        match self.rows.get(index) {
            Some(row) => Some((row.key(&self.bytes), row.value(&self.bytes))),
            None => None,
        }
    }

    /// The index of the entry that has a key of this hash.
    ///
    /// Cost: a look at the row of each entry of its bucket, of which there is one on average at most, and at the key of
    /// one in 256 of them, beside that of the entry that is found.
    pub fn find(&self, key: &[u8], hash: u64) -> Option<usize>
        requires { hash ≡ hash_of key.now }
        ensures found { IfSome result (λ index. IsKeyAt self.now index key.now) }
        ensures absent { IfNone result (is_among (keys_of self.now) key.now ≡ false) }
    {
        find(&self.heads, &self.bytes, &self.rows, key, hash)
    }

    /// The value of a key.
    pub fn get(&self, key: &[u8]) -> Option<&[u8]>
        ensures { option_map (λ found. found.now) result ≡ invariant_of self.now key.now }
    {
        match self.find(key, hash_of(key)) {
            Some(index) => Some(self.rows[index].value(&self.bytes)),
            None => None,
        }
    }

    /// Adds an entry of a new key of this hash, which is not looked for.
    pub fn push(&mut self, key: &[u8], hash: u64, value: &[u8]) -> Result<(), NoMemory>
        requires new { is_among (keys_of self.old) key.now ≡ false }
        requires hash { hash ≡ hash_of key.now }
        ensures ok { OnOk result (self.new ≡ self.old ++ (key.now, value.now) ∷ []) }
        ensures err { OnErr result (self.new ≡ self.old) }
    {
        make_room(&self.bytes, &mut self.rows, &mut self.heads)?;
        let row = append(&mut self.bytes, key, value)?;
        add_row(&mut self.rows, &mut self.heads, hash, row);
        Ok(())
    }

    /// Gives the key at an index another value.
    fn replace(&mut self, index: usize, key: &[u8], value: &[u8]) -> Result<(), NoMemory>
        requires { IsKeyAt self.old index key.now }
        ensures ok { OnOk result (self.new ≡ with_entry self.old key.now value.now) }
        ensures err { OnErr result (self.new ≡ self.old) }
    {
        let row = append(&mut self.bytes, key, value)?;
        let next = self.rows[index].next;
        self.rows[index] = Row { next, ..row };
        Ok(())
    }

    /// Gives a key a value: in its place where it has one, else after all others. After an error nothing has changed.
    ///
    /// Cost: linear in the bytes of the entry, with one hash of the key. When the entries come to be as many as the
    /// buckets, these are doubled, and all keys are hashed again.
    pub fn insert(&mut self, key: &[u8], value: &[u8]) -> Result<(), NoMemory>
        ensures ok { OnOk result (self.new ≡ with_entry self.old key.now value.now) }
        ensures err { OnErr result (self.new ≡ self.old) }
    {
        let hash = hash_of(key);
        match self.find(key, hash) {
            Some(index) => self.replace(index, key, value),
            None => self.push(key, hash, value),
        }
    }
}
