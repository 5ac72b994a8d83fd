//! The text of verdicts.

use cil_model::{FaultKind, List};
use invariant_checker::Verdict;
use std::alloc::{AllocError, Global};

/// The name of a fault. That of a clause has a number behind it.
fn fault_name(kind: FaultKind) -> &'static str {
    match kind {
        FaultKind::Requires(_) => "requires",
        FaultKind::Ensures(_) => "ensures",
        FaultKind::Assert => "assert",
        FaultKind::NullUse => "null-use",
        FaultKind::Lower => "lower-bound",
        FaultKind::Upper => "upper-bound",
        FaultKind::DivZero => "division-by-zero",
        FaultKind::DivOverflow => "division-overflow",
        FaultKind::Overflow => "overflow",
        FaultKind::Shift => "shift-amount",
        FaultKind::ArraySize => "array-size",
    }
}

/// Appends `9 overflow proved`, or `9 requires 1 of 0 unproved` for a clause of a callee.
fn append_verdict(text: &mut String, verdict: &Verdict) -> Result<(), AllocError> {
    let obligation = verdict.obligation;
    write!(text, "{} ", obligation.at)?;
    text.push_str(fault_name(obligation.kind))?;
    if let FaultKind::Requires(clause) | FaultKind::Ensures(clause) = obligation.kind {
        write!(text, " {clause}")?;
    }
    if let Some(callee) = obligation.callee {
        write!(text, " of {callee}")?;
    }
    text.push_str(if verdict.proved {
        " proved"
    } else {
        " unproved"
    })
}

/// The text of verdicts, in their order, or `none`.
pub fn verdicts_text(alloc: Global, verdicts: &[Verdict]) -> Result<String, AllocError> {
    let mut text = String::new(alloc);
    for verdict in verdicts {
        if !text.is_empty() {
            text.push_str(", ")?;
        }
        append_verdict(&mut text, verdict)?;
    }
    if text.is_empty() {
        text.push_str("none")?;
    }
    Ok(text)
}

/// The same of each unit of a world, with ` | ` between them.
pub fn world_text(alloc: Global, world: &[List<Verdict>]) -> Result<String, AllocError> {
    let mut text = String::new(alloc);
    for verdicts in world {
        if !text.is_empty() {
            text.push_str(" | ")?;
        }
        let verdicts = verdicts_text(alloc, verdicts.as_slice())?;
        text.push_str(verdicts.as_str())?;
    }
    Ok(text)
}
