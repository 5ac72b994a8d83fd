//! Expressions and bounds, and how they lie to each other, as far as an order shows.

ghost use Rattle.std.specs.Prelude.{◌≡◌, ◌≤ℤ◌, ◌<ℤ◌, ◌-ℤ◌, ◌*ℤ◌, pos, negsuc};
ghost use Rattle.array_segments.specs.Comparing.{at_most, below, equal, starts_by, starts_before, ends_behind, meets};

use domain_api::{Expr, Order, gap_is_at_least};

/// Tells whether a is shown to be at most b.
pub(crate) fn is_at_most<O: Order>(order: &O, a: Expr, b: Expr) -> bool
    ensures { result ≡ at_most (O.gap order.now) a b }
{
    gap_is_at_least(order.gap(a.sym, b.sym), i128::from(a.k) - i128::from(b.k))
}

/// Tells whether a is shown to be below b.
pub(crate) fn is_below<O: Order>(order: &O, a: Expr, b: Expr) -> bool
    ensures { result ≡ below (O.gap order.now) a b }
{
    gap_is_at_least(
        order.gap(a.sym, b.sym),
        i128::from(a.k) - i128::from(b.k) + 1,
    )
}

/// Tells whether a and b are shown to be equal.
pub(crate) fn is_equal<O: Order>(order: &O, a: Expr, b: Expr) -> bool
    ensures { result ≡ equal (O.gap order.now) a b }
{
    is_at_most(order, a, b) && is_at_most(order, b, a)
}

/// Tells whether the bound is shown to be at most the index.
pub(crate) fn starts_by<O: Order>(order: &O, bound: &[Expr], at: Expr) -> bool
    ensures { result ≡ starts_by (O.gap order.now) at bound.now }
{
    bound.iter().any(|expr| is_at_most(order, *expr, at))
}

/// Tells whether the bound is shown to be below the index.
pub(crate) fn starts_before<O: Order>(order: &O, bound: &[Expr], at: Expr) -> bool
    ensures { result ≡ starts_before (O.gap order.now) at bound.now }
{
    bound.iter().any(|expr| is_below(order, *expr, at))
}

/// Tells whether the bound is shown to be above the index.
pub(crate) fn ends_behind<O: Order>(order: &O, bound: &[Expr], at: Expr) -> bool
    ensures { result ≡ ends_behind (O.gap order.now) at bound.now }
{
    bound.iter().any(|expr| is_below(order, at, *expr))
}

/// Tells whether the bound is shown to be equal to the index.
pub(crate) fn meets<O: Order>(order: &O, bound: &[Expr], at: Expr) -> bool
    ensures { result ≡ meets (O.gap order.now) at bound.now }
{
    bound.iter().any(|expr| is_equal(order, *expr, at))
}
