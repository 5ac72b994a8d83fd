//! Sets of numbers.

ghost use Rattle.std.specs.Prelude.{◌≡◌, ◌≢◌, ◌↔◌, ℤ, pos, ◌+ℤ◌, ◌-ℤ◌, ◌*ℤ◌, Bool, true, FitsSigned, IsTrue, int_div, int_rem};
ghost use Rattle.std.specs.Int.{w32, w64, int_bit_and};

/// Sets of numbers of 64 bits, each with what it is known to contain. Nothing takes memory.
pub trait Values: Copy {
    /// The set has the number.
    ghost contains: { Self → ℤ → Type 0 };

    /// The set of one number.
    ghost constant: { ℤ → Self };

    /// The set of all int32.
    ghost full: { Self };

    /// A set that has what either has.
    ghost hull: { Self → Self → Self };

    /// Another one, which is made of a set and of its next one.
    ghost widened: { Self → Self → Self };

    /// Whether the second set has each number that the first has.
    ghost within: { Self → Self → Bool };

    /// The sums of a number of each set, and so on: those that fit 64 bits.
    ghost add: { Self → Self → Self };

    ghost sub: { Self → Self → Self };

    ghost mul: { Self → Self → Self };

    ghost div: { Self → Self → Self };

    ghost rem: { Self → Self → Self };

    ghost and: { Self → Self → Self };

    /// The set of one number.
    fn constant(n: i64) -> Self
        ensures { result ≡ constant n };

    /// The set of all int32.
    fn full() -> Self
        ensures { result ≡ full };

    /// A set that has what either has.
    fn hull(&self, other: &Self) -> Self
        ensures { result ≡ hull self.now other.now };

    /// A set that has what either has, and that settles where it is made again and again.
    fn widened(&self, other: &Self) -> Self
        ensures { result ≡ widened self.now other.now };

    /// Returns whether the other set has each number that this one has.
    fn within(&self, other: &Self) -> bool
        ensures value { result ≡ within self.now other.now }
        ensures exact { IsTrue result ↔ ((n : ℤ) → contains self.now n → contains other.now n) };

    /// The sums of a number of each set.
    fn add(&self, other: &Self) -> Self
        ensures { result ≡ add self.now other.now };

    /// The differences.
    fn sub(&self, other: &Self) -> Self
        ensures { result ≡ sub self.now other.now };

    /// The products.
    fn mul(&self, other: &Self) -> Self
        ensures { result ≡ mul self.now other.now };

    /// The truncated quotients.
    fn div(&self, other: &Self) -> Self
        ensures { result ≡ div self.now other.now };

    /// The remainders, with the sign of the dividend.
    fn rem(&self, other: &Self) -> Self
        ensures { result ≡ rem self.now other.now };

    /// The bits that both numbers have.
    fn and(&self, other: &Self) -> Self
        ensures { result ≡ and self.now other.now };

    ghost constant_contains: { (n : ℤ) → FitsSigned w64 n → contains (constant n) n };

    ghost full_contains: { (n : ℤ) → FitsSigned w32 n → contains full n };

    ghost hull_left: { (a b : Self) (n : ℤ) → contains a n → contains (hull a b) n };

    ghost hull_right: { (a b : Self) (n : ℤ) → contains b n → contains (hull a b) n };

    ghost widened_left: { (a b : Self) (n : ℤ) → contains a n → contains (widened a b) n };

    ghost widened_right: { (a b : Self) (n : ℤ) → contains b n → contains (widened a b) n };

    ghost within_contains: { (a b : Self) (n : ℤ) → within a b ≡ true → contains a n → contains b n };

    ghost add_contains: { (a b : Self) (m n : ℤ) → contains a m → contains b n →
        FitsSigned w64 (m +ℤ n) → contains (add a b) (m +ℤ n) };

    ghost sub_contains: { (a b : Self) (m n : ℤ) → contains a m → contains b n →
        FitsSigned w64 (m -ℤ n) → contains (sub a b) (m -ℤ n) };

    ghost mul_contains: { (a b : Self) (m n : ℤ) → contains a m → contains b n →
        FitsSigned w64 (m *ℤ n) → contains (mul a b) (m *ℤ n) };

    ghost div_contains: { (a b : Self) (m n : ℤ) → contains a m → contains b n → n ≢ pos 0 →
        FitsSigned w64 (int_div m n) → contains (div a b) (int_div m n) };

    ghost rem_contains: { (a b : Self) (m n : ℤ) → contains a m → contains b n → n ≢ pos 0 →
        contains (rem a b) (int_rem m n) };

    ghost and_contains: { (a b : Self) (m n : ℤ) → contains a m → contains b n →
        contains (and a b) (int_bit_and w64 m n) };
}
