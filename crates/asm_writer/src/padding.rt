//! Zeros that fill up to a multiple of a unit.

ghost use Rattle.std.specs.Prelude.{◌≡◌, ◌++◌, ◌+◌, ◌<◌, ◌≤◌, ◌^◌, length, OnOk};
ghost use Rattle.asm_writer.specs.Padding.{round_up, padded, fill};

use std::alloc::AllocError;

/// The least multiple of the unit that is not below n.
#[tactic(auto, using(crate::proofs::Rounding::rounded_below, crate::proofs::Rounding::rounded_above), unfolding(crate::specs::Padding::round_up))]
fn round_up(unit: usize, n: usize) -> usize
    requires some { 1 ≤ unit }
    requires few { unit ≤ 512 }
    requires small { n ≤ 2 ^ 63 }
    ensures is { result ≡ round_up unit n }
    ensures above { n ≤ result }
    ensures near { result < n + unit }
{
    (n + (unit - 1)) / unit * unit
}

/// Appends the zeros that fill up so many bytes to a multiple of the unit.
pub fn append_fill(out: &mut Vec<u8>, unit: usize, size: usize) -> Result<(), AllocError>
    requires some { 1 ≤ unit }
    requires few { unit ≤ 512 }
    requires small { size ≤ 2 ^ 63 }
    ensures { OnOk result (out.new.items ≡ out.old.items ++ fill unit size) }
{
    let len = out.len() + (round_up(unit, size) - size);
    out.resize(len, 0)
}

/// Fills the bytes up to a multiple of the unit.
#[tactic(auto, unfolding(crate::specs::Padding::padded))]
pub fn pad(out: &mut Vec<u8>, unit: usize) -> Result<(), AllocError>
    requires some { 1 ≤ unit }
    requires few { unit ≤ 512 }
    ensures { OnOk result (out.new.items ≡ padded unit out.old.items) }
{
    let size = out.len();
    append_fill(out, unit, size)
}
