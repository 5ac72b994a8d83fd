//! What a bucket, or an entry of one, goes on with.

ghost use Rattle.std.specs.Prelude.{◌≡◌, ◌<◌, ◌==◌, ◌^◌};
ghost use Rattle.result_cache.specs.Links.{is_first_in, link_to, mark_of, mark_in, no_link, number_in};

/// The numbers of entries, and 0.
const NUMBERS: u32 = 1 << 23;

/// The number of an entry, counted from 1, in 23 bits; whether it is the first of its bucket; and the last 8 bits of
/// the hash of its key. The number is 0 where there is no entry.
///
/// A look at an entry costs a cache miss for its row and one for its key. Of an entry with other bits than those of the
/// key that is looked for the key need not be read; and where it is the first of its bucket, its row neither.
#[derive(Clone, Copy)]
pub(crate) struct Link {
    packed: u32,
}

/// The bits of a hash that a link keeps.
#[tactic(auto, unfolding(crate::specs::Links::mark_of))]
fn mark_of(hash: u64) -> u32
    ensures value { result ≡ mark_of hash }
    ensures bound { result < 256 }
{
    (hash % 256) as u32
}

impl Link {
    /// No entry.
    pub(crate) const NONE: Link = Link { packed: 0 };

    /// The entry of this number, whose key has this hash, where this one was the last of its bucket.
    pub(crate) fn new(number: u32, before: Link, hash: u64) -> Link
        requires { number < 2 ^ 23 }
        ensures { result ≡ link_to number before hash }
    {
        let first = if before.number() == 0 { 1 } else { 0 };
        Link {
            packed: (mark_of(hash) * 2 + first) * NUMBERS + number,
        }
    }

    /// The number of the entry; 0 where there is none.
    #[tactic(auto, unfolding(crate::specs::Links::number_in))]
    pub(crate) fn number(self) -> u32
        ensures { result ≡ number_in self }
    {
        self.packed % NUMBERS
    }

    /// Returns whether the entry is the first of its bucket.
    #[tactic(auto, unfolding(crate::specs::Links::is_first_in))]
    pub(crate) fn is_first(self) -> bool
        ensures { result ≡ is_first_in self }
    {
        self.packed / NUMBERS % 2 == 1
    }

    /// Returns whether the bits that it keeps are those of a hash.
    #[tactic(auto, unfolding(crate::specs::Links::mark_in))]
    pub(crate) fn is_marked(self, hash: u64) -> bool
        ensures { result ≡ (mark_in self == mark_of hash) }
    {
        self.packed / NUMBERS / 2 == mark_of(hash)
    }
}
