//! Methods that are called, as they stand in a unit file.

ghost use Rattle.std.specs.Prelude.{◌≡◌, ◌≤◌, length};
ghost use Rattle.cc_base.specs.Tests.{first_of, JudgesOrNoMemory};
ghost use Rattle.unit_form.specs.Callees.{callee_field, callee_fields, callee_offsets};
ghost use Rattle.unit_form.specs.Parses.{IsRead};

use crate::clause_list::ClauseList;
use crate::clauses::read_clauses;
use crate::form::UnitForm;
use crate::names::read_name;
use crate::places::{read_place, read_variables};
use crate::unit_fault::UnitRefusal;
use cil_model::{CalleeInfo, List};
use std::alloc::Global;

/// The callee at this offset, and the offset after it.
#[tactic(auto, using(cc_base::proofs::TestLemmas::appended, cc_base::proofs::TestLemmas::carried), unfolding(crate::specs::Callees::callee_field))]
fn read_callee(
    alloc: Global,
    form: UnitForm,
    bytes: &[u8],
    at: u32,
) -> Result<(CalleeInfo, u32), UnitRefusal>
    requires short { length bytes.now ≤ 2147483647 }
    ensures { JudgesOrNoMemory result (first_of (callee_field form bytes.now at).tests) (λ read. IsRead bytes.now (callee_field form bytes.now at) read.0 read.1) }
{
    let (name, at) = read_name(bytes, at)?;
    let result = read_place(bytes, at)?;
    let (args, at) = read_variables(alloc, form, bytes, at + 1, 0)?;
    let (clauses, at) = read_clauses(alloc, ClauseList::Contract, form, bytes, at, &args, result)?;
    let callee = CalleeInfo {
        name: List::from_vec(Vec::from_slice(alloc, name)?),
        result,
        args: List::from_vec(args),
        clauses: List::from_vec(clauses),
    };
    Ok((callee, at))
}

/// So many callees from this offset on, the offsets at which they begin, and the offset after them.
#[tactic(auto, using(crate::proofs::Counted::none_read, crate::proofs::Counted::all_read, crate::proofs::CalleesRead::offsets_left))]
pub fn read_callees(
    alloc: Global,
    form: UnitForm,
    bytes: &[u8],
    start: u32,
    count: u16,
) -> Result<(Vec<CalleeInfo>, Vec<u32>, u32), UnitRefusal>
    requires short { length bytes.now ≤ 2147483647 }
    requires inside { start ≤ length bytes.now }
    ensures { JudgesOrNoMemory result (first_of (callee_fields form count bytes.now start).tests)
        (λ read. IsRead bytes.now (callee_fields form count bytes.now start) read.0.items read.2 × (read.1.items ≡ callee_offsets form count bytes.now start)) }
{
    let mut callees = Vec::new(alloc);
    let mut offsets = Vec::new(alloc);
    let mut at = start;
    for _callee in 0..count {
        let (callee, next) = read_callee(alloc, form, bytes, at)?;
        callees.push(callee)?;
        offsets.push(at)?;
        at = next;
    }
    Ok((callees, offsets, at))
}
