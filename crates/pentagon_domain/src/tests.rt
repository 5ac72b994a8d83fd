//! Two domains side by side.

use crate::Bounds;
use domain_api::{Order, Paired};
use std::test::Fail;

/// The gap by any knowledge of differences.
fn gap_of<O: Order>(order: &O, s: u32, t: u32) -> Option<i64> {
    order.gap(s, t)
}

#[test]
fn two_sets_of_bounds_tell_what_either_tells(rt: HostRuntime) -> Result<(), Fail> {
    let mut first = Bounds::new(rt.alloc());
    first.add_bound(1, 2, 3)?;
    first.add_bound(2, 3, 4)?;
    let mut second = Bounds::with_capacity(rt.alloc(), 2)?;
    second.add_bound(1, 3, 5)?;
    second.add_bound(3, 1, -9)?;
    let both = Paired { first, second };
    assert_eq!(rt; gap_of(&both, 1, 3), Some(7));
    assert_eq!(rt; gap_of(&both, 3, 1), Some(-9));
    assert_eq!(rt; gap_of(&both, 2, 1), None);
    Ok(())
}
