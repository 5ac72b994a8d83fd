//! Numbers in headers and in columns of rows.

ghost use Rattle.std.specs.Prelude.{◌≡◌, ◌++◌, OnOk};
ghost use Rattle.cc_base.specs.LittleEndian.{little_bytes};
ghost use Rattle.asm_writer.specs.Numbers.{number_bytes, numbers_bytes};

use std::alloc::AllocError;

/// A number as so many of its lowest bytes, the lowest first.
#[derive(Clone, Copy)]
pub enum Number {
    /// This many bytes of zeros.
    Zeros(u8),
    /// Two bytes.
    Two(u64),
    /// Four bytes.
    Four(u64),
    /// Eight bytes.
    Eight(u64),
}

/// Appends the lowest two bytes of the number, the lowest first.
fn append_two(out: &mut Vec<u8>, n: u64) -> Result<(), AllocError>
    ensures { OnOk result (out.new.items ≡ out.old.items ++ little_bytes 2 n) }
{
    out.extend_from_slice(&n.to_le_bytes()[..2])
}

/// Appends the lowest four bytes of the number, the lowest first.
fn append_four(out: &mut Vec<u8>, n: u64) -> Result<(), AllocError>
    ensures { OnOk result (out.new.items ≡ out.old.items ++ little_bytes 4 n) }
{
    out.extend_from_slice(&n.to_le_bytes()[..4])
}

/// Appends the bytes of a number.
pub fn append_number(out: &mut Vec<u8>, number: Number) -> Result<(), AllocError>
    ensures { OnOk result (out.new.items ≡ out.old.items ++ number_bytes number) }
{
    match number {
        Number::Zeros(count) => {
            let len = out.len() + usize::from(count);
            out.resize(len, 0)
        }
        Number::Two(n) => append_two(out, n),
        Number::Four(n) => append_four(out, n),
        Number::Eight(n) => out.extend_from_slice(&n.to_le_bytes()),
    }
}

/// Appends the bytes of numbers, one after another.
#[tactic(auto, unfolding(crate::specs::Numbers::numbers_bytes))]
pub fn append_numbers(out: &mut Vec<u8>, numbers: &[Number]) -> Result<(), AllocError>
    ensures { OnOk result (out.new.items ≡ out.old.items ++ numbers_bytes numbers.now) }
{
    for number in numbers {
        append_number(out, *number)?;
    }
    Ok(())
}
