//! The verdicts on a unit, with the text of the invariant that they rest on.

ghost use Rattle.std.specs.Prelude.{◌≡◌, IfOk, if◌then◌else◌, []};
ghost use Rattle.unit_flow.specs.Flow.{IsLawful};
ghost use Rattle.unit_verdicts.specs.Picks.{states_text};
ghost use Rattle.unit_verdicts.specs.Verdicts.{AreVerdictsUnder};

use abs_state::Invariant;
use invariant_checker::{Verdict, judge};
use invariant_text::invariant_text;
use std::alloc::{AllocError, Global};
use transfer_rules::has_shape;
use unit_flow::UnitFlow;

/// The verdicts on a unit.
#[derive(Drop)]
pub struct UnitVerdicts {
    /// Those on its obligations, in their order.
    pub verdicts: Vec<Verdict>,
    /// The text of the invariant that they rest on, where it is asked for.
    pub shown: Vec<u8>,
}

impl UnitVerdicts {
    /// A copy.
    pub fn copy(&self, alloc: Global) -> Result<UnitVerdicts, AllocError>
        ensures verdicts { IfOk result (λ copy. copy.verdicts.items ≡ self.now.verdicts.items) }
        ensures shown { IfOk result (λ copy. copy.shown.items ≡ self.now.shown.items) }
    {
        Ok(UnitVerdicts {
            verdicts: Vec::from_slice(alloc, &self.verdicts)?,
            shown: Vec::from_slice(alloc, &self.shown)?,
        })
    }
}

/// The text of an invariant of a unit. One that has not the unit's shape has none.
fn states_text(alloc: Global, code: &UnitFlow, invariant: &Invariant) -> Result<Vec<u8>, AllocError>
    requires lawful { IsLawful code.now }
    ensures { IfOk result (λ text. text.items ≡ states_text code.now invariant.now.states.items) }
{
    if !has_shape(code, &invariant.states) {
        return Ok(Vec::new(alloc));
    }
    let blocks = code.graph.blocks.as_slice();
    invariant_text(alloc, &code.unit, blocks, &invariant.states)
}

/// The same, where it is asked for.
fn shown_text(
    alloc: Global,
    code: &UnitFlow,
    invariant: &Invariant,
    show: bool,
) -> Result<Vec<u8>, AllocError>
    requires lawful { IsLawful code.now }
    ensures { IfOk result
        (λ text. text.items ≡ (if show then states_text code.now invariant.now.states.items else [])) }
{
    if show {
        states_text(alloc, code, invariant)
    } else {
        Ok(Vec::new(alloc))
    }
}

/// The verdicts on a unit under an invariant.
pub fn judge_under(
    alloc: Global,
    code: &UnitFlow,
    invariant: &Invariant,
    show: bool,
) -> Result<UnitVerdicts, AllocError>
    requires lawful { IsLawful code.now }
    ensures { IfOk result (AreVerdictsUnder show code.now invariant.now.states.items) }
{
    let verdicts = judge(alloc, code, invariant)?;
    let shown = shown_text(alloc, code, invariant, show)?;
    Ok(UnitVerdicts { verdicts, shown })
}
