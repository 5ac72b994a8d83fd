//! Ranges of exact numbers, which may be empty, and their arithmetic.
#![tactic(auto)]

mod addition;
mod bits;
mod constants;
mod exact;
mod product;
mod quotient;
mod remainder;
mod shifts;
mod span;
mod stored;

pub use addition::{differences, negated, sums, takes, with_constant};
pub use bits::{bits_of_either, common_bits};
pub use constants::{constant, is_constant, of_constants, unsigned};
pub use exact::{below, less_by, minus, more_by, plus, power, sum_of};
pub use product::{corners, is_the_constant};
pub use quotient::quotients;
pub use remainder::remainders;
pub use shifts::shifted_right;
pub use span::{Span, is_one_excluded, wrap};
pub use stored::{nearest, range_but_for, range_from, range_upto, range_within, range_without};
