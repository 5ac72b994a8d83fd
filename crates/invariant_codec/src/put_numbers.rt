//! Numbers, expressions and ranges, written.

ghost use Rattle.std.specs.Prelude.{◌≡◌, ◌++◌, length, FitsSigned, IfSome, OnOk};
ghost use Rattle.std.specs.Int.{w32};
ghost use Rattle.std.specs.List.{flat_map, AllByRecursion};
ghost use Rattle.cc_base.specs.LittleEndian.{little_bytes};
ghost use Rattle.invariant_codec.specs.Spelling.{bound_bytes, counted_bytes, expr_bytes, flag_bytes, hole_bytes};
ghost use Rattle.invariant_codec.specs.Spelling.{int32_bytes, int64_bytes, range_bytes};
ghost use Rattle.number_spans.specs.Stored.{IsNarrow};

use domain_api::{Expr, NoMemory};
use interval_domain::Range;
use number_spans::unsigned;

/// Appends the lowest byte of a number.
pub(crate) fn put_byte(out: &mut Vec<u8>, n: u64) -> Result<(), NoMemory>
    ensures { OnOk result (out.new.items ≡ out.old.items ++ little_bytes 1 n) }
{
    out.extend_from_slice(&n.to_le_bytes()[..1])
}

/// Appends the lowest two bytes of a number.
pub(crate) fn put_u16(out: &mut Vec<u8>, n: u64) -> Result<(), NoMemory>
    ensures { OnOk result (out.new.items ≡ out.old.items ++ little_bytes 2 n) }
{
    out.extend_from_slice(&n.to_le_bytes()[..2])
}

/// Appends the lowest four bytes of a number.
pub(crate) fn put_u32(out: &mut Vec<u8>, n: u64) -> Result<(), NoMemory>
    ensures { OnOk result (out.new.items ≡ out.old.items ++ little_bytes 4 n) }
{
    out.extend_from_slice(&n.to_le_bytes()[..4])
}

/// Appends a number of 32 bits.
fn put_i32(out: &mut Vec<u8>, n: i64) -> Result<(), NoMemory>
    requires { FitsSigned w32 n }
    ensures { OnOk result (out.new.items ≡ out.old.items ++ int32_bytes n) }
{
    out.extend_from_slice(&unsigned(n).to_le_bytes())
}

/// Appends a number of 64 bits.
pub(crate) fn put_i64(out: &mut Vec<u8>, n: i64) -> Result<(), NoMemory>
    ensures { OnOk result (out.new.items ≡ out.old.items ++ int64_bytes n) }
{
    out.extend_from_slice(&n.cast_unsigned().to_le_bytes())
}

/// Appends 1 where something is so, and else 0.
pub(crate) fn put_flag(out: &mut Vec<u8>, is: bool) -> Result<(), NoMemory>
    ensures { OnOk result (out.new.items ≡ out.old.items ++ flag_bytes is) }
{
    put_byte(out, u64::from(is))
}

/// Appends an expression.
#[tactic(auto, unfolding(crate::specs::Spelling::expr_bytes))]
pub(crate) fn put_expr(out: &mut Vec<u8>, e: Expr) -> Result<(), NoMemory>
    ensures { OnOk result (out.new.items ≡ out.old.items ++ expr_bytes e) }
{
    put_u16(out, u64::from(e.sym))?;
    put_i64(out, e.k)
}

/// Appends expressions.
fn put_exprs(out: &mut Vec<u8>, exprs: &[Expr]) -> Result<(), NoMemory>
    ensures { OnOk result (out.new.items ≡ out.old.items ++ flat_map expr_bytes exprs.now) }
{
    for e in exprs {
        put_expr(out, *e)?;
    }
    Ok(())
}

/// Appends the expressions at a bound, after their count.
#[tactic(auto, unfolding(crate::specs::Spelling::bound_bytes))]
pub(crate) fn put_bound(out: &mut Vec<u8>, exprs: &[Expr]) -> Result<(), NoMemory>
    ensures { OnOk result (out.new.items ≡ out.old.items ++ bound_bytes exprs.now) }
{
    put_byte(out, exprs.len() as u64)?;
    put_exprs(out, exprs)
}

/// Appends the hole of a range, if it has one.
fn put_hole(out: &mut Vec<u8>, hole: Option<i64>) -> Result<(), NoMemory>
    requires { IfSome hole (λ n. FitsSigned w32 n) }
    ensures { OnOk result (out.new.items ≡ out.old.items ++ hole_bytes hole) }
{
    match hole {
        None => put_byte(out, 0),
        Some(hole) => {
            put_byte(out, 1)?;
            put_i32(out, hole)
        }
    }
}

/// Appends a range of numbers of 32 bits.
#[tactic(auto, using(crate::proofs::Narrow::narrow_ends), unfolding(crate::specs::Spelling::range_bytes))]
pub(crate) fn put_range(out: &mut Vec<u8>, range: &Range) -> Result<(), NoMemory>
    requires narrow { IsNarrow range.now }
    ensures { OnOk result (out.new.items ≡ out.old.items ++ range_bytes range.now) }
{
    put_i32(out, range.lo())?;
    put_i32(out, range.hi())?;
    put_hole(out, range.hole())
}

/// Appends ranges.
fn put_each_range(out: &mut Vec<u8>, ranges: &[Range]) -> Result<(), NoMemory>
    requires narrow { AllByRecursion IsNarrow ranges.now }
    ensures { OnOk result (out.new.items ≡ out.old.items ++ flat_map range_bytes ranges.now) }
{
    for range in ranges {
        put_range(out, range)?;
    }
    Ok(())
}

/// Appends ranges, after their count.
pub(crate) fn put_ranges(out: &mut Vec<u8>, ranges: &[Range]) -> Result<(), NoMemory>
    requires narrow { AllByRecursion IsNarrow ranges.now }
    ensures { OnOk result (out.new.items ≡ out.old.items ++ counted_bytes 2 range_bytes ranges.now) }
{
    put_u16(out, ranges.len() as u64)?;
    put_each_range(out, ranges)
}
