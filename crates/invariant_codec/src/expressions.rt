//! Names of symbols and references, and expressions.

ghost use Rattle.std.specs.Prelude.{◌≡◌, ◌+◌, ◌≤◌, length};
ghost use Rattle.cc_base.specs.Tests.{first_of, Judges};
ghost use Rattle.invariant_codec.specs.Formats.{tested};
ghost use Rattle.invariant_codec.specs.Numbers.{expr, int64, is_near, name, near_expr, proper_name};
ghost use Rattle.invariant_codec.specs.Parses.{IsRead};

use crate::fault::InvFault;
use crate::numbers::{read_i64, read_u16};
use domain_api::Expr;

/// The number of a symbol or a reference, or 0, where there are so many.
#[tactic(auto, using(cc_base::proofs::TestLemmas::appended, cc_base::proofs::TestLemmas::first_tests), unfolding(crate::specs::Numbers::name))]
pub(crate) fn read_name(bytes: &[u8], at: u32, count: usize) -> Result<u32, InvFault>
    ensures { Judges result (first_of ((name count).read bytes.now at).tests)
        (λ n. IsRead bytes.now ((name count).read bytes.now at) n (at + 2)) }
{
    let n = read_u16(bytes, at)?;
    if usize::from(n) > count {
        return Err(InvFault::Form(at));
    }
    Ok(u32::from(n))
}

/// The number of a symbol or a reference, from 1 on, where there are so many.
#[tactic(auto, using(cc_base::proofs::TestLemmas::appended, cc_base::proofs::TestLemmas::first_tests), unfolding(crate::specs::Numbers::proper_name))]
pub(crate) fn read_proper_name(bytes: &[u8], at: u32, count: usize) -> Result<u32, InvFault>
    ensures { Judges result (first_of ((proper_name count).read bytes.now at).tests)
        (λ n. IsRead bytes.now ((proper_name count).read bytes.now at) n (at + 2)) }
{
    let n = read_u16(bytes, at)?;
    if n < 1 || usize::from(n) > count {
        return Err(InvFault::Form(at));
    }
    Ok(u32::from(n))
}

/// The expression at this offset, where there are so many symbols. It takes ten bytes.
#[tactic(auto, using(cc_base::proofs::TestLemmas::appended), unfolding(crate::specs::Numbers::expr))]
pub(crate) fn read_expr(bytes: &[u8], at: u32, symbols: usize) -> Result<Expr, InvFault>
    requires short { length bytes.now ≤ 2147483647 }
    ensures { Judges result (first_of ((expr symbols).read bytes.now at).tests)
        (λ e. IsRead bytes.now ((expr symbols).read bytes.now at) e (at + 10)) }
{
    let sym = read_name(bytes, at, symbols)?;
    let k = read_i64(bytes, at + 2)?;
    Ok(Expr { sym, k })
}

/// The number of eight bytes at this offset, which is one of -2^32 to 2^32.
#[tactic(auto, using(cc_base::proofs::TestLemmas::appended, cc_base::proofs::TestLemmas::first_tests))]
fn read_near(bytes: &[u8], at: u32) -> Result<i64, InvFault>
    ensures { Judges result (first_of ((tested is_near int64).read bytes.now at).tests)
        (λ n. IsRead bytes.now ((tested is_near int64).read bytes.now at) n (at + 8)) }
{
    let k = read_i64(bytes, at)?;
    if k < -4_294_967_296 || 4_294_967_296 < k {
        return Err(InvFault::Form(at));
    }
    Ok(k)
}

/// The expression at this offset, whose constant is one of -2^32 to 2^32, where there are so many symbols. It takes ten
/// bytes.
#[tactic(auto, using(cc_base::proofs::TestLemmas::appended), unfolding(crate::specs::Numbers::near_expr))]
pub(crate) fn read_near_expr(bytes: &[u8], at: u32, symbols: usize) -> Result<Expr, InvFault>
    requires short { length bytes.now ≤ 2147483647 }
    ensures { Judges result (first_of ((near_expr symbols).read bytes.now at).tests)
        (λ e. IsRead bytes.now ((near_expr symbols).read bytes.now at) e (at + 10)) }
{
    let sym = read_name(bytes, at, symbols)?;
    let k = read_near(bytes, at + 2)?;
    Ok(Expr { sym, k })
}
