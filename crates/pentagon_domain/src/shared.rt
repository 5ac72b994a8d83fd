//! Rows that several bounds share.

ghost use Rattle.std.specs.Prelude.{◌≡◌, IfOk, OnOk, OnErr, option_map};
ghost use Rattle.pentagon_domain.specs.Rows.{rows_in, with_bounds};

use crate::bound_row::BoundRow;
use crate::orders::Orders;
use domain_api::NoMemory;
use std::alloc::Global;
use std::rc::Rc;

/// How many bounds a copy of rows has room for, beside those that are added at once.
const SPARE: usize = 4;

/// The rows again, with room for so many more.
fn copied(alloc: Global, orders: &Option<Rc<Orders>>, more: usize) -> Result<Orders, NoMemory>
    ensures { IfOk result (λ again. again ≡ rows_in (option_map (λ orders. orders.value) orders.now)) }
{
    match orders {
        None => Orders::with_capacity(alloc, more),
        Some(orders) => orders.as_ref().copy(alloc, more),
    }
}

/// Adds bounds to rows. Where other bounds share these, they are copied first. After an error nothing has changed.
pub(crate) fn change(
    alloc: Global,
    orders: &mut Option<Rc<Orders>>,
    bounds: &[BoundRow],
) -> Result<(), NoMemory>
    ensures value { OnOk result (rows_in (option_map (λ orders. orders.value) orders.new) ≡
        with_bounds (rows_in (option_map (λ orders. orders.value) orders.old)) bounds.now) }
    ensures unchanged { OnErr result (rows_in (option_map (λ orders. orders.value) orders.new) ≡
        rows_in (option_map (λ orders. orders.value) orders.old)) }
{
    if let Some(shared) = orders {
        if let Some(own) = Rc::get_mut(shared) {
            return own.add_all(bounds);
        }
    }
    let mut own = copied(alloc, orders, bounds.len().saturating_add(SPARE))?;
    own.add_all(bounds)?;
    *orders = Some(Rc::new(alloc, own)?);
    Ok(())
}
