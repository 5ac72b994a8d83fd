//! Entries in buckets, by the hashes of their keys.
//!
//! The hash is SipHash-1-3 with fixed keys: whoever makes a file can find keys of one bucket by trying, and each of
//! them costs as many tries as there are buckets.

ghost use Rattle.std.specs.Prelude.{◌≡◌, ℕ, ◌+◌, ◌<◌, ◌≤◌, ◌^◌, List, [], length, get_or, false, if◌then◌else◌, IfOk, IfSome, IfNone, OnErr};
ghost use Rattle.std.specs.Str.{bytes_eq};
ghost use Rattle.result_cache.specs.Buckets.{AreChained, AreRows, bucket_of, hash_of, head_of, with_head};
ghost use Rattle.result_cache.specs.Entries.{IsKeyAt, is_among};
ghost use Rattle.result_cache.specs.Links.{is_first_in, mark_in, mark_of, no_link};
ghost use Rattle.result_cache.specs.Rows.{AreWithin, IsWithin, entries_in, key_in, keys_in};

use crate::link::Link;
use crate::row::Row;
use cc_base::NoMemory;
use std::alloc::Global;
use std::hash::{DefaultHasher, Hasher};

/// A hash of a key.
#[tactic(auto, unfolding(crate::specs::Buckets::hash_of))]
pub(crate) fn hash_of(key: &[u8]) -> u64
    ensures { result ≡ hash_of key.now }
{
    let mut hasher = DefaultHasher::new();
    hasher.write(key);
    hasher.finish()
}

/// The bucket of a hash, of so many. A division of 32 bits takes half the time of one of 64.
#[tactic(auto, unfolding(crate::specs::Buckets::bucket_of))]
fn bucket_of(hash: u64, count: usize) -> usize
    requires { 0 < count }
    ensures value { result ≡ bucket_of count hash }
    ensures bound { result < count }
{
    ((hash >> 32) % count as u64) as usize
}

/// Makes the entry of this number, whose key has this hash, the last of its bucket, and gives the one before it.
pub(crate) fn chain(heads: &mut [Link], hash: u64, number: u32) -> Link
    requires room { 0 < length heads.old }
    requires few { number < 2 ^ 23 }
    ensures value { result ≡ head_of heads.old hash }
    ensures heads { heads.new ≡ with_head heads.old hash number }
{
    let bucket = bucket_of(hash, heads.len());
    let before = heads[bucket];
    heads[bucket] = Link::new(number, before, hash);
    before
}

/// Puts each entry into its bucket, where all are empty.
fn chain_all(heads: &mut [Link], bytes: &[u8], rows: &mut [Row])
    requires room { 0 < length heads.old }
    requires few { length rows.old < 2 ^ 23 }
    requires within { AreWithin bytes.now rows.old }
    requires empty { (bucket : ℕ) → get_or heads.old bucket no_link ≡ no_link }
    ensures count { length heads.new ≡ length heads.old }
    ensures length { length rows.new ≡ length rows.old }
    ensures within { AreWithin bytes.now rows.new }
    ensures entries { entries_in bytes.now rows.new ≡ entries_in bytes.now rows.old }
    ensures chained { AreChained (length heads.new) (keys_in bytes.now rows.new) heads.new rows.new (length rows.new) }
{
    for index in 0..rows.len() {
        let hash = hash_of(rows[index].key(bytes));
        rows[index].next = chain(heads, hash, index as u32 + 1);
    }
}

/// So many buckets, all empty.
pub(crate) fn empty_buckets(alloc: Global, count: usize) -> Result<Vec<Link>, NoMemory>
    ensures count { IfOk result (λ heads. length heads.items ≡ count) }
    ensures empty { IfOk result (λ heads. (bucket : ℕ) → get_or heads.items bucket no_link ≡ no_link) }
{
    vec![in alloc; Link::NONE; count]
}

/// So many buckets, with each entry in its own.
pub(crate) fn buckets(
    alloc: Global,
    bytes: &[u8],
    rows: &mut [Row],
    count: usize,
) -> Result<Vec<Link>, NoMemory>
    requires some { 0 < count }
    requires few { length rows.old < 2 ^ 23 }
    requires within { AreWithin bytes.now rows.old }
    ensures count { IfOk result (λ heads. length heads.items ≡ count) }
    ensures within { AreWithin bytes.now rows.new }
    ensures length { length rows.new ≡ length rows.old }
    ensures entries { entries_in bytes.now rows.new ≡ entries_in bytes.now rows.old }
    ensures chained { IfOk result (λ heads. AreChained count (keys_in bytes.now rows.new) heads.items rows.new (length rows.new)) }
    ensures err { OnErr result (rows.new ≡ rows.old) }
{
    let mut heads = empty_buckets(alloc, count)?;
    chain_all(&mut heads, bytes, rows);
    Ok(heads)
}

/// The last entry of the bucket of a hash; none where no bucket is there.
fn head(heads: &[Link], hash: u64) -> Link
    ensures { result ≡ head_of heads.now hash }
{
    if heads.is_empty() {
        return Link::NONE;
    }
    heads[bucket_of(hash, heads.len())]
}

/// Returns whether the entry of a link, which stands at a row, has a key of this hash.
fn has_key(link: Link, row: &Row, bytes: &[u8], key: &[u8], hash: u64) -> bool
    requires within { IsWithin bytes.now row.now }
    requires hash { hash ≡ hash_of key.now }
    requires marked { mark_in link ≡ mark_of (hash_of (key_in bytes.now row.now)) }
    ensures { result ≡ bytes_eq (key_in bytes.now row.now) key.now }
{
    if link.is_marked(hash) {
        row.key(bytes) == key
    } else {
        false
    }
}

/// The entry before the one of a link, which stands at a row. Where that is the first of its bucket, the row is not
/// read.
fn before(link: Link, row: &Row) -> Link
    ensures { result ≡ if is_first_in link then no_link else row.now.next }
{
    if link.is_first() {
        Link::NONE
    } else {
        row.next
    }
}

/// The index of the entry that has a key of this hash.
pub(crate) fn find(
    heads: &[Link],
    bytes: &[u8],
    rows: &[Row],
    key: &[u8],
    hash: u64,
) -> Option<usize>
    requires rows { AreRows bytes.now rows.now heads.now }
    requires hash { hash ≡ hash_of key.now }
    ensures found { IfSome result (λ index. IsKeyAt (entries_in bytes.now rows.now) index key.now) }
    ensures absent { IfNone result (is_among (keys_in bytes.now rows.now) key.now ≡ false) }
{
    let mut link = head(heads, hash);
    while link.number() != 0 {
        let index = link.number() as usize - 1;
        let row = &rows[index];
        if has_key(link, row, bytes, key, hash) {
            return Some(index);
        }
        link = before(link, row);
    }
    None
}
