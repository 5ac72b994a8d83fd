//! The names of a state's symbols, where the state is paired with itself.

ghost use Rattle.std.specs.Prelude.{◌≡◌, ◌<◌, ℕ, ℤ, ◌∷◌, true, length, IfOk, None, pos, set};
ghost use Rattle.symbolic_values.specs.OwnNames.{is_own, own_names, with_own};
ghost use Rattle.symbolic_values.specs.Pairing.{origin};
ghost use Rattle.symbolic_values.specs.Worth.{NamesAgree, behind_uses};

use crate::pairs::{Key, Pairs};
use domain_api::{Expr, NoMemory};
use std::alloc::Global;

impl Key {
    /// Returns whether this is the key of a symbol paired with itself.
    fn is_own(&self) -> bool
        ensures { result ≡ is_own self.now }
    {
        self.s == self.t && self.shift == 0
    }
}

/// Writes a name at a symbol's place, if there is one.
fn write(names: &mut [Option<Expr>], symbol: u32, name: Option<Expr>)
    ensures { names.new ≡ set names.old symbol name }
{
    if (symbol as usize) < names.len() {
        names[symbol as usize] = name;
    }
}

impl Pairs {
    /// Writes the name of the symbol that has the key at a place, if a symbol paired with itself has it.
    fn write_own(&self, place: usize, names: &mut [Option<Expr>])
        requires { place < length self.now.keys }
        ensures { names.new ≡ with_own self.now place names.old }
    {
        let key = self.keys[place];
        if key.is_own() {
            write(names, key.s, self.name_at(place, 0));
        }
    }

    /// The name of each symbol below a count, where these are the pairs of a state with itself: the expression that it
    /// is worth in the new names. Symbol 0 stays 0, and a symbol without a key has no name.
    ///
    /// Cost: one pass over the keys, and one over the names.
    pub fn names(&self, alloc: Global, count: usize) -> Result<Vec<Option<Expr>>, NoMemory>
        ensures value { IfOk result (λ names. names.items ≡ own_names self.now count) }
        ensures agree { IfOk result (λ names. (number : ℕ → ℤ) →
            NamesAgree names.items number (behind_uses true number (origin ∷ self.now.keys))) }
    {
        let mut names = vec![in alloc; None; count]?;
        let mut left = self.keys.len();
        while left > 0 {
            left -= 1;
            self.write_own(left, names.as_mut_slice());
        }
        write(names.as_mut_slice(), 0, Some(Expr { sym: 0, k: 0 }));
        Ok(names)
    }
}
