//! What is known of the result of an operator.

use domain_api::Expr;
use number_spans::Span;

/// What is known of the result of an operator.
#[derive(Clone, Copy)]
pub enum Outcome {
    /// It is the number of the expression.
    Is(Expr),
    /// It is a number of the span.
    Within(Span),
}
