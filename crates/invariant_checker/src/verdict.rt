//! Verdicts.

ghost use Rattle.std.specs.Prelude.{◌≡◌};
ghost use Rattle.invariant_checker.specs.Counts.{all_proved, proved_count};

use cil_model::Obligation;

/// Whether an obligation is proved.
#[derive(Clone, Copy)]
pub struct Verdict {
    pub obligation: Obligation,
    pub proved: bool,
}

/// Returns whether every verdict is that of a proved obligation.
pub fn all_proved(found: &[Verdict]) -> bool
    ensures value { result ≡ all_proved found.now }
{
    found.iter().all(|verdict| verdict.proved)
}

/// Returns how many obligations are proved.
pub fn proved_count(found: &[Verdict]) -> usize
    ensures value { result ≡ proved_count found.now }
{
    found.iter().filter(|verdict| verdict.proved).count()
}
