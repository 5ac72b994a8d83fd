//! Lists of pairs of references, in order.

ghost use Rattle.std.specs.Prelude.{◌≡◌, ◌≤◌, length, OnErr, OnOk};
ghost use Rattle.std.specs.List.{prefix_len};
ghost use Rattle.alias_facts.specs.KeptPairs.{turned};
ghost use Rattle.alias_facts.specs.PairsOf.{AreInOrder, comes_before, contains, inserted, is_proper, ordered, same_pair};

use domain_api::NoMemory;

/// Two references, lower first.
pub(crate) fn ordered(r: u32, q: u32) -> (u32, u32)
    ensures { result ≡ ordered r q }
{
    if q < r { (q, r) } else { (r, q) }
}

/// A pair with its references exchanged.
pub(crate) fn turned(pair: (u32, u32)) -> (u32, u32)
    ensures { result ≡ turned pair }
{
    (pair.1, pair.0)
}

/// Returns whether the pair is one of different references other than 0, lower first.
pub(crate) fn is_proper(pair: (u32, u32)) -> bool
    ensures { result ≡ is_proper pair }
{
    0 < pair.0 && pair.0 < pair.1
}

/// Returns whether both are the same pair.
fn is_same(a: (u32, u32), b: (u32, u32)) -> bool
    ensures { result ≡ same_pair a b }
{
    a.0 == b.0 && a.1 == b.1
}

/// Returns whether a pair comes before another: by the first reference, then by the second.
pub(crate) fn comes_before(a: (u32, u32), b: (u32, u32)) -> bool
    ensures { result ≡ comes_before a b }
{
    a.0 < b.0 || (a.0 == b.0 && a.1 < b.1)
}

/// The number of pairs that come before one.
fn place_of(pairs: &[(u32, u32)], pair: (u32, u32)) -> usize
    requires { AreInOrder pairs.now }
    ensures place { result ≡ prefix_len (λ p. comes_before p pair) pairs.now }
    ensures within { result ≤ length pairs.now }
{
    pairs.partition_point(|p| comes_before(*p, pair))
}

/// Returns whether the pair is one of these. It is found by halving.
pub(crate) fn has(pairs: &[(u32, u32)], pair: (u32, u32)) -> bool
    requires { AreInOrder pairs.now }
    ensures { result ≡ contains pairs.now pair }
{
    let place = place_of(pairs, pair);
    place < pairs.len() && is_same(pair, pairs[place])
}

/// Puts a pair in its place, unless it is there. Want of memory leaves the pairs.
pub(crate) fn insert(pairs: &mut Vec<(u32, u32)>, pair: (u32, u32)) -> Result<(), NoMemory>
    requires { AreInOrder pairs.old.items }
    ensures ok { OnOk result (pairs.new.items ≡ inserted pair pairs.old.items) }
    ensures in_order { AreInOrder pairs.new.items }
    ensures err { OnErr result (pairs.new.items ≡ pairs.old.items) }
{
    if has(pairs.as_slice(), pair) {
        return Ok(());
    }
    let place = place_of(pairs.as_slice(), pair);
    pairs.insert(place, pair)?;
    Ok(())
}
