//! Expressions.

ghost use Rattle.std.specs.Prelude.{◌≡◌, option_map};
ghost use Rattle.invariant_text.proofs.DefReading.{is_constant};
ghost use Rattle.invariant_reader.specs.Expressions.{read_added, read_constant, read_expr, read_first_added};
ghost use Rattle.invariant_reader.specs.Expressions.{read_first_expr, read_first_sum, read_sum};

use crate::digits::{
    begins_digit, read_negative, read_positive, read_short, read_signed, skip_digits,
};
use crate::prefixes::behind;
use domain_api::Expr;

/// What is added to a symbol, and the text behind it. Nothing is 0.
#[tactic(auto, unfolding(crate::specs::Expressions::read_added))]
fn read_added(text: &[u8]) -> Option<(i64, &[u8])>
    ensures { option_map (λ read. (read.0, read.1.now)) result ≡ read_added text.now }
{
    if let Some(more) = behind(text, b" + ") {
        return read_positive(more);
    }
    match behind(text, b" - ") {
        Some(less) => read_negative(less),
        None => Some((0, text)),
    }
}

/// Returns whether the text is that of a number and goes on with a space.
fn is_constant(text: &[u8]) -> bool
    ensures { result ≡ is_constant text.now }
{
    begins_digit(text) && matches!(skip_digits(text), [b' ', ..])
}

/// What is added to the symbol of the first of two expressions, and the text behind it. A number that ends the line is
/// the second expression of a difference.
#[tactic(auto, unfolding(crate::specs::Expressions::read_first_added))]
fn read_first_added(text: &[u8]) -> Option<(i64, &[u8])>
    ensures { option_map (λ read. (read.0, read.1.now)) result ≡ read_first_added text.now }
{
    match behind(text, b" - ") {
        Some(less) if is_constant(less) => read_negative(less),
        Some(_) => Some((0, text)),
        None => read_added(text),
    }
}

/// A number alone, and the text behind it.
#[tactic(auto, unfolding(crate::specs::Expressions::read_constant))]
fn read_constant(text: &[u8]) -> Option<(Expr, &[u8])>
    ensures { option_map (λ read. (read.0, read.1.now)) result ≡ read_constant text.now }
{
    let (k, rest) = read_signed(text)?;
    Some((Expr { sym: 0, k }, rest))
}

/// The expression that goes on behind the letter of its symbol, and the text behind it.
#[tactic(auto, unfolding(crate::specs::Expressions::read_sum))]
fn read_sum(text: &[u8]) -> Option<(Expr, &[u8])>
    ensures { option_map (λ read. (read.0, read.1.now)) result ≡ read_sum text.now }
{
    let (sym, added) = read_short(text)?;
    let (k, rest) = read_added(added)?;
    Some((Expr { sym, k }, rest))
}

/// The same of the first of two expressions.
#[tactic(auto, unfolding(crate::specs::Expressions::read_first_sum))]
fn read_first_sum(text: &[u8]) -> Option<(Expr, &[u8])>
    ensures { option_map (λ read. (read.0, read.1.now)) result ≡ read_first_sum text.now }
{
    let (sym, added) = read_short(text)?;
    let (k, rest) = read_first_added(added)?;
    Some((Expr { sym, k }, rest))
}

/// The expression at the start of a text, and the text behind it.
#[tactic(auto, unfolding(crate::specs::Expressions::read_expr))]
pub(crate) fn read_expr(text: &[u8]) -> Option<(Expr, &[u8])>
    ensures { option_map (λ read. (read.0, read.1.now)) result ≡ read_expr text.now }
{
    match behind(text, b"s") {
        Some(sum) => read_sum(sum),
        None => read_constant(text),
    }
}

/// The first of two expressions with an operator between them, and the text behind it.
#[tactic(auto, unfolding(crate::specs::Expressions::read_first_expr))]
pub(crate) fn read_first_expr(text: &[u8]) -> Option<(Expr, &[u8])>
    ensures { option_map (λ read. (read.0, read.1.now)) result ≡ read_first_expr text.now }
{
    match behind(text, b"s") {
        Some(sum) => read_first_sum(sum),
        None => read_constant(text),
    }
}
