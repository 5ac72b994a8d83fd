//! Expressions and definitions of two states, named by the pairs of the states.

ghost use Rattle.std.specs.Prelude.{◌≡◌, ◌<◌, IfSome, length};
ghost use Rattle.symbolic_values.specs.Meaning.{SaysBoth};
ghost use Rattle.symbolic_values.specs.Names.{are_same_constant, named_at, paired_def, paired_expr};

use crate::def::Def;
use crate::identity::distance;
use crate::pairs::Pairs;
use crate::references::ReferencePairs;
use crate::renaming::fitting;
use domain_api::Expr;

/// Returns whether both are the same constant.
fn are_same_constant(e: Expr, f: Expr) -> bool
    ensures { result ≡ are_same_constant e f }
{
    e.sym == 0 && f.sym == 0 && e.k == f.k
}

impl Pairs {
    /// The expression of the key at a place.
    pub(crate) fn name_at(&self, place: usize, k: i64) -> Option<Expr>
        requires { place < length self.now.keys }
        ensures { result ≡ named_at self.now k (Some place) }
    {
        if place >= u32::MAX as usize {
            return None;
        }
        fitting(place as u32 + 1, distance(self.keys[place].first, k))
    }

    /// The expression that stands for one of the first state and one of the second, where their key is known or both
    /// are the same constant. None where it is not, or where the constant leaves 64 bits or the symbol 32.
    ///
    /// Cost: up to 16 keys are looked at one by one, more are found by a table.
    pub fn named(&self, e: Expr, f: Expr) -> Option<Expr>
        ensures { result ≡ paired_expr self.now e f }
    {
        if are_same_constant(e, f) {
            return Some(e);
        }
        let place = self.place_of(e, f)?;
        self.name_at(place, e.k)
    }

    /// The definition that stands for one of the first state and one of the second.
    fn found_def(&self, references: &ReferencePairs, a: Def, b: Def) -> Option<Def>
        ensures { result ≡ paired_def self.now references.now.pairs a b }
    {
        match (a, b) {
            (Def::Eq(x, y), Def::Eq(z, w)) => Some(Def::Eq(self.named(x, z)?, self.named(y, w)?)),
            (Def::Lt(x, y), Def::Lt(z, w)) => Some(Def::Lt(self.named(x, z)?, self.named(y, w)?)),
            (Def::LtUn(x, y), Def::LtUn(z, w)) => {
                Some(Def::LtUn(self.named(x, z)?, self.named(y, w)?))
            }
            (Def::Sub(x, y), Def::Sub(z, w)) => Some(Def::Sub(
                self.named(x, z)?,
                self.named(y, w)?,
            )),
            (Def::NullTest(r, is), Def::NullTest(q, also)) if is == also => {
                Some(Def::NullTest(references.named(r, q)?, is))
            }
            _ => None,
        }
    }

    /// The definition that stands for one of the first state and one of the second, where they are the same as these
    /// pairs and those of references have it. None where they are not, or where a constant leaves 64 bits or a symbol
    /// 32.
    pub fn named_def(&self, references: &ReferencePairs, a: Def, b: Def) -> Option<Def>
        ensures value { result ≡ paired_def self.now references.now.pairs a b }
        ensures says { IfSome result (SaysBoth self.now references.now.pairs a b) }
    {
        self.found_def(references, a, b)
    }
}
