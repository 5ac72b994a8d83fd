//! Values that say more or less of something.

ghost use Rattle.std.specs.Prelude.{◌≡◌, Bool, true, IfOk};

use crate::NoMemory;
use std::alloc::Global;

/// Values of which some say more than others. What a value says, it says of points.
pub trait Lattice {
    /// What a value may hold of.
    type Point;

    /// The value holds of the point.
    ghost holds: { Self → Self.Point → Type 0 };

    /// The two values speak of the same things, so they may be joined, widened and compared.
    ghost like: { Self → Self → Type 0 };

    /// A value that holds wherever one of two does.
    ghost join: { Self → Self → Self };

    /// Another one, which is made of a value and of its next one.
    ghost widen: { Self → Self → Self };

    /// Whether the first value is shown to say at least as much as the second.
    ghost leq: { Self → Self → Bool };

    /// A value that holds wherever one of the two does.
    fn join(&self, alloc: Global, other: &Self) -> Result<Self, NoMemory>
        requires { like self.now other.now }
        ensures { IfOk result (λ joined. joined ≡ join self.now other.now) };

    /// A value that holds wherever one of the two does, and that settles where it is made again and again.
    fn widen(&self, alloc: Global, other: &Self) -> Result<Self, NoMemory>
        requires { like self.now other.now }
        ensures { IfOk result (λ widened. widened ≡ widen self.now other.now) };

    /// Returns whether this value is shown to say at least as much as the other.
    fn leq(&self, alloc: Global, other: &Self) -> Result<bool, NoMemory>
        requires { like self.now other.now }
        ensures { IfOk result (λ less. less ≡ leq self.now other.now) };

    ghost join_left: { (a b : Self) (p : Self.Point) → like a b → holds a p → holds (join a b) p };

    ghost join_right: { (a b : Self) (p : Self.Point) → like a b → holds b p → holds (join a b) p };

    ghost widen_left: { (a b : Self) (p : Self.Point) → like a b → holds a p → holds (widen a b) p };

    ghost widen_right: { (a b : Self) (p : Self.Point) → like a b → holds b p → holds (widen a b) p };

    ghost leq_holds: { (a b : Self) (p : Self.Point) → like a b → leq a b ≡ true → holds a p → holds b p };
}
