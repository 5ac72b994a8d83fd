//! Rows by the symbol to which they go.

ghost use Rattle.std.specs.Prelude.{IfOk};
ghost use Rattle.pentagon_domain.specs.Rows.{AreBounds};
ghost use Rattle.pentagon_domain.specs.Targets.{AreTargets};

use crate::bound_row::BoundRow;
use domain_api::NoMemory;
use std::alloc::Global;

/// The same rows, rising by the second symbol, then by the first.
pub(crate) fn by_target(alloc: Global, rows: &[BoundRow]) -> Result<Vec<BoundRow>, NoMemory>
    requires { AreBounds rows.now }
    ensures { IfOk result (λ targets. AreTargets targets.items rows.now) }
{
    let mut targets = Vec::from_slice(alloc, rows)?;
    targets.sort_by_key(|row| row.t)?;
    Ok(targets)
}
