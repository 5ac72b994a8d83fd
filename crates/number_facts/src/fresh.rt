//! New symbols.

ghost use Rattle.std.specs.Prelude.{◌≡◌, ◌+◌, ◌++◌, length, IfOk, OnOk, OnErr, []};
ghost use Rattle.std.specs.Option.{option_map};
ghost use Rattle.number_facts.specs.Fresh.{bounded, expr_made, facts_made, fresh, noted};
ghost use Rattle.number_facts.specs.Fresh.{definition_of, definitions_of, long_row, row_of, rows_of};
ghost use Rattle.number_facts.specs.Holds.{KeepsForm, KeepsFresh};

use crate::numbers::Numbers;
use crate::relation::Relation;
use domain_api::{Expr, NoMemory};
use interval_domain::Range;
use number_spans::{constant, range_without};
use pentagon_domain::BoundRow;
use std::alloc::AllocError;
use symbolic_values::Def;

/// Notes a bound s + k <= t, where k has 64 bits.
fn note_bound(bounds: &mut Vec<BoundRow>, s: u32, t: u32, k: i128) -> Result<(), NoMemory>
    ensures { OnOk result (bounds.new.items ≡ bounds.old.items ++ long_row s t k) }
{
    match i64::try_from(k) {
        Ok(k) => {
            bounds.push(BoundRow { s, t, k })?;
            Ok(())
        }
        Err(_) => Ok(()),
    }
}

/// Notes one thing that is known of a symbol.
fn note(
    bounds: &mut Vec<BoundRow>,
    definitions: &mut Vec<(u32, Def)>,
    t: u32,
    relation: Relation,
) -> Result<(), NoMemory>
    ensures bounds { OnOk result (bounds.new.items ≡ bounds.old.items ++ row_of t relation) }
    ensures definitions { OnOk result (definitions.new.items ≡ definitions.old.items ++ definition_of t relation) }
{
    match relation {
        Relation::AtLeast(s, k) => note_bound(bounds, s, t, k),
        Relation::AtMost(_, i128::MIN) => Ok(()),
        Relation::AtMost(s, k) => note_bound(bounds, t, s, -k),
        Relation::Is(def) => {
            definitions.push((t, def))?;
            Ok(())
        }
    }
}

/// Notes all that is known of a symbol.
#[tactic(auto, using(crate::proofs::Relating::steps))]
fn note_all(
    bounds: &mut Vec<BoundRow>,
    definitions: &mut Vec<(u32, Def)>,
    t: u32,
    known: &[Relation],
) -> Result<(), NoMemory>
    ensures bounds { OnOk result (bounds.new.items ≡ bounds.old.items ++ rows_of t known.now) }
    ensures definitions { OnOk result (definitions.new.items ≡ definitions.old.items ++ definitions_of t known.now) }
{
    for relation in known {
        note(bounds, definitions, t, *relation)?;
    }
    Ok(())
}

impl Numbers {
    /// Stores a bound s + k <= t, where k has 64 bits.
    #[tactic(auto, unfolding(crate::specs::Fresh::bounded))]
    pub(crate) fn bound(&mut self, s: u32, t: u32, k: i128) -> Result<(), NoMemory>
        ensures value { OnOk result (self.new ≡ bounded self.old s t k) }
        ensures err { OnErr result (self.new ≡ self.old) }
        ensures count { length self.new.ranges ≡ length self.old.ranges }
    {
        match i64::try_from(k) {
            Ok(k) => self.bounds.add_bound(s, t, k),
            Err(_) => Ok(()),
        }
    }

    /// The number that the next symbol gets.
    pub(crate) fn next_symbol(&self) -> Result<u32, NoMemory>
        ensures { IfOk result (λ sym. sym ≡ length self.now.ranges + 1) }
    {
        u32::try_from(self.ranges.len() + 1).map_err(|_| AllocError)
    }

    /// A number of a range: the constant where it has one alone, else a new symbol of which this is known. It costs
    /// what is known of it, and the places of its bounds and of its difference among the others.
    #[tactic(auto, using(crate::proofs::Relating::stored_so), unfolding(crate::specs::Fresh::noted))]
    pub(crate) fn noted_with(&mut self, range: Range, known: &[Relation]) -> Result<Expr, NoMemory>
        ensures value { IfOk result (λ e. e ≡ (noted self.old range known.now).expr) }
        ensures facts { OnOk result (self.new ≡ (noted self.old range known.now).facts) }
        ensures err { OnErr result (self.new ≡ self.old) }
    {
        if range.lo() == range.hi() {
            return Ok(constant(range.lo()));
        }
        let sym = self.next_symbol()?;
        let mut bounds = Vec::new(*self.ranges.allocator());
        let mut definitions = Vec::new(*self.ranges.allocator());
        note_all(&mut bounds, &mut definitions, sym, known)?;
        self.ranges.reserve(1)?;
        self.definitions
            .extend_with(&definitions, &mut self.bounds, &bounds)?;
        self.ranges.push(range)?;
        Ok(Expr { sym, k: 0 })
    }

    /// A number of a range, of which this is known, or none.
    pub(crate) fn noted_some(
        &mut self,
        range: Option<Range>,
        known: &[Relation],
    ) -> Result<Option<Expr>, NoMemory>
        ensures value { IfOk result (λ e. e ≡ expr_made (option_map (λ r. noted self.old r known.now) range)) }
        ensures facts { OnOk result (self.new ≡
            facts_made self.old (option_map (λ r. noted self.old r known.now) range)) }
        ensures err { OnErr result (self.new ≡ self.old) }
    {
        match range {
            None => Ok(None),
            Some(range) => Ok(Some(self.noted_with(range, known)?)),
        }
    }

    /// A number from `lo` to `hi` but for the hole, as its rule says.
    #[tactic(auto, unfolding(crate::specs::Fresh::fresh))]
    fn fresh_number(
        &mut self,
        lo: i64,
        hi: i64,
        hole: Option<i64>,
    ) -> Result<Option<Expr>, NoMemory>
        ensures value { IfOk result (λ e. e ≡ expr_made (fresh self.old lo hi hole [])) }
        ensures facts { OnOk result (self.new ≡ facts_made self.old (fresh self.old lo hi hole [])) }
        ensures err { OnErr result (self.new ≡ self.old) }
    {
        self.noted_some(
            range_without(lo.max(-2_147_483_648), hi.min(2_147_483_647), hole),
            &[],
        )
    }

    /// A number from `lo` to `hi` but for the hole, which is an int32: the constant where there is one alone, else a
    /// new symbol. A hole that is an end moves it, and one outside counts for nothing. None exactly where there is no
    /// such number.
    ///
    /// # Errors
    ///
    /// Want of memory leaves what was known.
    pub fn fresh(&mut self, lo: i64, hi: i64, hole: Option<i64>) -> Result<Option<Expr>, NoMemory>
        ensures value { IfOk result (λ e. e ≡ expr_made (fresh self.old lo hi hole [])) }
        ensures facts { OnOk result (self.new ≡ facts_made self.old (fresh self.old lo hi hole [])) }
        ensures keeps { IfOk result (λ e. KeepsFresh lo hi hole self.old e self.new) }
        ensures form { KeepsForm self.old self.new }
        ensures err { OnErr result (self.new ≡ self.old) }
    {
        self.fresh_number(lo, hi, hole)
    }
}
