//! Ranges as sets of numbers.

ghost use Rattle.std.specs.Prelude.{◌≡◌};
ghost use Rattle.interval_domain.specs.Laws.JoinsContain as of_joins;
ghost use Rattle.interval_domain.specs.Laws.SumContains as of_sums;
ghost use Rattle.interval_domain.specs.Laws.ProductContains as of_products;
ghost use Rattle.interval_domain.specs.Laws.QuotientContains as of_quotients;
ghost use Rattle.interval_domain.specs.Laws.RemainderContains as of_remainders;
ghost use Rattle.interval_domain.specs.Laws.BitsContain as of_bits;
ghost use Rattle.interval_domain.specs.Interval.{Contains, one};
ghost use Rattle.interval_domain.specs.Joins as join;
ghost use Rattle.interval_domain.specs.Arithmetic as arithmetic;

use crate::range::{GREATEST_32, LEAST_32, Range};
use crate::{bits, joins, products, quotients, remainders, sums};
use domain_api::Values;

impl Values for Range {
    ghost contains = { Contains };

    ghost constant = { one };

    ghost full = { join.full };

    ghost hull = { join.hull };

    ghost widened = { join.widened };

    ghost within = { join.within };

    ghost add = { arithmetic.sum };

    ghost sub = { arithmetic.difference };

    ghost mul = { arithmetic.product };

    ghost div = { arithmetic.quotient };

    ghost rem = { arithmetic.remainder };

    ghost and = { arithmetic.common_bits };

    fn constant(n: i64) -> Range {
        Range::between(n, n)
    }

    fn full() -> Range {
        Range::between(LEAST_32, GREATEST_32)
    }

    fn hull(&self, other: &Range) -> Range {
        joins::hull(*self, *other)
    }

    fn widened(&self, other: &Range) -> Range {
        joins::widened(*self, *other)
    }

    fn within(&self, other: &Range) -> bool {
        Range::within(self, other)
    }

    fn add(&self, other: &Range) -> Range {
        sums::sum(*self, *other)
    }

    fn sub(&self, other: &Range) -> Range {
        sums::difference(*self, *other)
    }

    fn mul(&self, other: &Range) -> Range {
        products::product(*self, *other)
    }

    fn div(&self, other: &Range) -> Range {
        quotients::quotient(*self, *other)
    }

    fn rem(&self, other: &Range) -> Range {
        remainders::remainder(*self, *other)
    }

    fn and(&self, other: &Range) -> Range {
        bits::common_bits(*self, *other)
    }

    ghost constant_contains = { of_joins.one_contains };

    ghost full_contains = { of_joins.full_contains };

    ghost hull_left = { of_joins.hull_left };

    ghost hull_right = { of_joins.hull_right };

    ghost widened_left = { of_joins.widened_left };

    ghost widened_right = { of_joins.widened_right };

    ghost within_contains = { of_joins.within_contains };

    ghost add_contains = { of_sums.sum_contains };

    ghost sub_contains = { of_sums.difference_contains };

    ghost mul_contains = { of_products.product_contains };

    ghost div_contains = { of_quotients.quotient_contains };

    ghost rem_contains = { of_remainders.remainder_contains };

    ghost and_contains = { of_bits.bits_contain };
}
