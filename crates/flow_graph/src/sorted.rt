//! Lists of numbers that rise.

ghost use Rattle.std.specs.Prelude.{◌≡◌, ◌==◌};
ghost use Rattle.std.specs.List.{list_any};
ghost use Rattle.std.specs.List.Sorted.{IsNonDecreasing, IsPermutation};

/// Returns whether the number is one of these, which rise.
pub(crate) fn is_among(sorted: &[u32], number: u32) -> bool
    requires { IsNonDecreasing sorted.now }
    ensures { result ≡ list_any (λ n. n == number) sorted.now }
{
    sorted.binary_search(&number).is_ok()
}

/// The numbers, in order.
pub(crate) fn sorted(mut numbers: Vec<u32>) -> Vec<u32>
    ensures rise { IsNonDecreasing result.items }
    ensures same { IsPermutation numbers.items result.items }
{
    numbers.sort_unstable();
    numbers
}
