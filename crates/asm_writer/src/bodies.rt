//! Fat method bodies (ECMA-335 II.25.4.3).

ghost use Rattle.std.specs.Prelude.{◌≡◌, ◌++◌, ◌<◌, ◌≤◌, ◌^◌, length, All, OnOk, IfOk, IsTrue};
ghost use Rattle.asm_writer.specs.Bodies.{locals_rows, locals_token, body, bodies};
ghost use Rattle.asm_writer.specs.Limits.{is_within};
ghost use Rattle.asm_writer.specs.Packing.{pushed};

use crate::number::Number::{Four, Two};
use crate::number::append_numbers;
use crate::packed::Packed;
use crate::padding::append_fill;
use crate::plan::MethodPlan;
use crate::table::Table;
use cc_base::Token;
use std::alloc::{AllocError, Global};

/// The number of bytes that stand before the code.
const HEADER_SIZE: usize = 12;

/// The token of the method's locals, where it has any, in this row of StandAloneSig.
fn locals_token(row: u32, method: &MethodPlan) -> u32
    requires { row < 2 ^ 24 }
    ensures { result ≡ locals_token row method.now }
{
    if method.locals.is_empty() {
        0
    } else {
        Token::new(Table::StandAloneSig.number(), row).0
    }
}

/// Appends the body of a method, whose locals have this row of StandAloneSig where there are any.
#[tactic(auto, unfolding(crate::specs::Bodies::body, crate::specs::Limits::is_within, crate::specs::Numbers::numbers_width))]
fn append_body(out: &mut Vec<u8>, row: u32, method: &MethodPlan) -> Result<(), AllocError>
    requires within { IsTrue (is_within method.now) }
    requires row { row < 2 ^ 24 }
    ensures { OnOk result (out.new.items ≡ out.old.items ++ body row method.now) }
{
    let max_stack = u64::from(method.max_stack);
    let code_size = method.code.len() as u64;
    let token = u64::from(locals_token(row, method));
    append_numbers(
        out,
        &[Two(0x3013), Two(max_stack), Four(code_size), Four(token)],
    )?;
    out.extend_from_slice(&method.code)?;
    append_fill(out, 4, HEADER_SIZE + method.code.len())
}

/// Returns how many rows of StandAloneSig the method has.
#[tactic(auto, unfolding(crate::specs::Bodies::locals_rows))]
pub fn locals_rows(method: &MethodPlan) -> u32
    ensures is { result ≡ locals_rows method.now }
    ensures bound { result ≤ 1 }
{
    if method.locals.is_empty() { 0 } else { 1 }
}

/// Appends the body of a method as an item.
fn push_body(bodies: &mut Packed, row: u32, method: &MethodPlan) -> Result<(), AllocError>
    requires within { IsTrue (is_within method.now) }
    requires row { row < 2 ^ 24 }
    ensures { OnOk result (bodies.new ≡ pushed bodies.old (body row method.now)) }
{
    bodies.begin()?;
    append_body(&mut bodies.bytes, row, method)
}

/// The bodies of the methods.
#[tactic(auto, using(crate::proofs::BodyLemmas::bodies_none, crate::proofs::BodyLemmas::bodies_more), unfolding(crate::specs::Bodies::bodies))]
pub fn bodies(alloc: Global, methods: &[MethodPlan]) -> Result<Packed, AllocError>
    requires within { All (λ m. IsTrue (is_within m)) methods.now }
    requires few { length methods.now < 2 ^ 24 }
    ensures { IfOk result (λ packed. packed ≡ bodies methods.now) }
{
    let mut bodies = Packed::new(alloc);
    let mut row = 1;
    for method in methods {
        push_body(&mut bodies, row, method)?;
        row += locals_rows(method);
    }
    Ok(bodies)
}
