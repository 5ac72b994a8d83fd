//! The lines of definitions.

ghost use Rattle.std.specs.Prelude.{◌≡◌, option_map};
ghost use Rattle.invariant_reader.specs.Definitions.{def_of, read_both, read_def, read_definition_line};
ghost use Rattle.invariant_reader.specs.Definitions.{read_null_test, read_nullness, read_operator};

use crate::digits::read_short;
use crate::expressions::{read_expr, read_first_expr};
use crate::prefixes::behind;
use crate::references::{begins_reference, read_reference};
use domain_api::Expr;
use symbolic_values::Def;

/// What stands between two expressions.
#[derive(Clone, Copy)]
enum Operator {
    Equal,
    Less,
    LessUnsigned,
    Minus,
}

impl Operator {
    /// What it says of two expressions.
    fn of(self, a: Expr, b: Expr) -> Def
        ensures { result ≡ def_of self a b }
    {
        match self {
            Operator::Equal => Def::Eq(a, b),
            Operator::Less => Def::Lt(a, b),
            Operator::LessUnsigned => Def::LtUn(a, b),
            Operator::Minus => Def::Sub(a, b),
        }
    }
}

/// The operator at the start of a text, and the text behind it.
#[tactic(auto, unfolding(crate::specs::Definitions::read_operator))]
fn read_operator(text: &[u8]) -> Option<(Operator, &[u8])>
    ensures { option_map (λ read. (read.0, read.1.now)) result ≡ read_operator text.now }
{
    if let Some(rest) = behind(text, b" == ") {
        return Some((Operator::Equal, rest));
    }
    if let Some(rest) = behind(text, b" < ") {
        return Some((Operator::Less, rest));
    }
    if let Some(rest) = behind(text, b" <u ") {
        return Some((Operator::LessUnsigned, rest));
    }
    match behind(text, b" - ") {
        Some(rest) => Some((Operator::Minus, rest)),
        None => None,
    }
}

/// Two expressions with an operator between them, and the text behind them.
#[tactic(auto, unfolding(crate::specs::Definitions::read_both))]
fn read_both(text: &[u8]) -> Option<(Def, &[u8])>
    ensures { option_map (λ read. (read.0, read.1.now)) result ≡ read_both text.now }
{
    let (a, text) = read_first_expr(text)?;
    let (operator, text) = read_operator(text)?;
    let (b, rest) = read_expr(text)?;
    Some((operator.of(a, b), rest))
}

/// Whether a reference is null, and the text behind it.
#[tactic(auto, unfolding(crate::specs::Definitions::read_nullness))]
fn read_nullness(text: &[u8]) -> Option<(bool, &[u8])>
    ensures { option_map (λ read. (read.0, read.1.now)) result ≡ read_nullness text.now }
{
    match behind(text, b" is null") {
        Some(rest) => Some((true, rest)),
        None => Some((false, behind(text, b" is not null")?)),
    }
}

/// That a reference is null, or is not, and the text behind it.
#[tactic(auto, unfolding(crate::specs::Definitions::read_null_test))]
fn read_null_test(text: &[u8]) -> Option<(Def, &[u8])>
    ensures { option_map (λ read. (read.0, read.1.now)) result ≡ read_null_test text.now }
{
    let (r, text) = read_reference(text)?;
    let (is_null, rest) = read_nullness(text)?;
    Some((Def::NullTest(r, is_null), rest))
}

/// What a symbol is, and the text behind it.
#[tactic(auto, unfolding(crate::specs::Definitions::read_def))]
fn read_def(text: &[u8]) -> Option<(Def, &[u8])>
    ensures { option_map (λ read. (read.0, read.1.now)) result ≡ read_def text.now }
{
    if begins_reference(text) {
        read_null_test(text)
    } else {
        read_both(text)
    }
}

/// The line of a definition at the start of a text, and the text behind it.
#[tactic(auto, unfolding(crate::specs::Definitions::read_definition_line))]
pub(crate) fn read_definition_line(text: &[u8]) -> Option<((u32, Def), &[u8])>
    ensures { option_map (λ read. (read.0, read.1.now)) result ≡ read_definition_line text.now }
{
    let (symbol, equals) = read_short(behind(text, b"    s")?)?;
    let (def, end) = read_def(behind(equals, b" = ")?)?;
    Some(((symbol, def), behind(end, b"\n")?))
}
