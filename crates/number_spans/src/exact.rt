//! Exact sums, differences and products.

ghost use Rattle.std.specs.Prelude.{◌≡◌, pos, ◌^◌, ◌+ℤ◌, ◌-ℤ◌, ◌*ℤ◌, ◌≤ℤ◌, unsigned_abs, int_le, FitsSigned};
ghost use Rattle.std.specs.Int.{w64, int_max};
ghost use Rattle.cil_model.specs.Arithmetic as arithmetic;
ghost use Rattle.number_spans.specs.Shifts.{IsAmount};
ghost use Rattle.number_spans.specs.Sizes.{IsEnd, IsWide, IsBounded};
ghost use Rattle.number_spans.specs.Spans.{is_int32};

/// The sum of two numbers of 64 bits.
pub fn sum_of(a: i64, b: i64) -> i128
    ensures value { result ≡ a +ℤ b }
    ensures bound { IsWide result }
{
    i128::from(a) + i128::from(b)
}

/// A number with a constant added.
pub fn more_by(n: i128, k: i64) -> i128
    requires { IsWide n }
    ensures value { result ≡ n +ℤ k }
    ensures bound { IsBounded result }
{
    n + i128::from(k)
}

/// A number less a constant.
pub fn less_by(n: i128, k: i64) -> i128
    requires { IsWide n }
    ensures value { result ≡ n -ℤ k }
    ensures bound { IsBounded result }
{
    n - i128::from(k)
}

/// A number less a constant, and no bound on it.
pub fn below(n: i128, k: i64) -> i128
    requires { IsBounded n }
    ensures { result ≡ n -ℤ k }
{
    n - i128::from(k)
}

/// The sum of two ends.
pub fn plus(a: i128, b: i128) -> i128
    requires first { IsEnd a }
    requires second { IsEnd b }
    ensures value { result ≡ a +ℤ b }
    ensures bound { IsBounded result }
{
    a + b
}

/// The difference of two ends.
pub fn minus(a: i128, b: i128) -> i128
    requires first { IsEnd a }
    requires second { IsEnd b }
    ensures value { result ≡ a -ℤ b }
    ensures bound { IsBounded result }
{
    a - b
}

/// How far an int32 lies from another one.
fn distance(from: i32, to: i32) -> i128
    ensures value { result ≡ to -ℤ from }
    ensures bound { IsEnd result }
{
    i128::from(to) - i128::from(from)
}

/// A number that moves by a distance.
fn moved_by(n: i128, distance: i128) -> i128
    requires number { IsBounded n }
    requires end { IsEnd distance }
    ensures { result ≡ n +ℤ distance }
{
    n + distance
}

/// Returns whether a number is at least the least int32 where it is moved along as a range moves whose lowest number
/// goes to `lo`.
fn stays_above(lo: i32, from: i128, to: i128) -> bool
    requires { IsBounded from }
    ensures { result ≡ int_le arithmetic.LEAST (lo +ℤ (to -ℤ from)) }
{
    moved_by(from, distance(lo, i32::MIN)) <= to
}

/// Returns whether it is at most the greatest int32.
fn stays_below(lo: i32, from: i128, to: i128) -> bool
    requires { IsBounded from }
    ensures { result ≡ int_le (lo +ℤ (to -ℤ from)) arithmetic.GREATEST }
{
    to <= moved_by(from, distance(lo, i32::MAX))
}

/// Returns whether it is an int32 then.
pub(crate) fn stays_int32(lo: i32, from: i128, to: i128) -> bool
    requires { IsBounded from }
    ensures { result ≡ is_int32 (lo +ℤ (to -ℤ from)) }
{
    stays_above(lo, from, to) && stays_below(lo, from, to)
}

/// The number that is moved along, no farther than an int32 goes.
pub(crate) fn moved_along(lo: i32, from: i128, to: i128) -> i128
    requires { IsEnd (to -ℤ from) }
    ensures { result ≡ lo +ℤ (to -ℤ from) }
{
    i128::from(lo) + (to - from)
}

/// The sum of two constants that has 64 bits.
pub fn constants_sum(a: i64, b: i64) -> i64
    requires { FitsSigned w64 (a +ℤ b) }
    ensures { result ≡ a +ℤ b }
{
    a + b
}

/// The product of two ends.
#[tactic(auto, using(crate::proofs::Products::product_bounded))]
pub fn times(m: i128, n: i128) -> i128
    requires first { IsEnd m }
    requires second { IsEnd n }
    ensures value { result ≡ m *ℤ n }
    ensures bound { IsBounded result }
{
    m * n
}

/// The greater of two ends.
#[tactic(auto, using(crate::proofs::Products::greater_end))]
pub fn greater(a: i128, b: i128) -> i128
    requires first { IsEnd a }
    requires second { IsEnd b }
    ensures value { result ≡ int_max a b }
    ensures bound { IsEnd result }
{
    a.max(b)
}

/// A power of 2.
#[tactic(auto, using(crate::proofs::Products::power_upto))]
pub fn power(n: i64) -> i64
    requires { IsAmount n }
    ensures value { result ≡ pos (2 ^ unsigned_abs n) }
    ensures bound { result ≤ℤ pos 2147483648 }
    ensures some { pos 1 ≤ℤ result }
{
    1i64 << n as u32
}
