//! The rules, by the keywords of cases.

use crate::{apart_rules, bound_rules, definition_rules, name_rules};
use alias_facts::Apart;
use domain_api::{Expr, Paired};
use pentagon_domain::Bounds;
use rule_text::{Failure, Line, Rules};
use segment_rules::SegmentRules;
use std::alloc::Global;
use symbolic_values::{Pairs, ReferencePairs};

/// What is known in a case that is run.
#[derive(Drop)]
pub struct RelationRules {
    alloc: Global,
    /// The bounds that stand so far.
    bounds: Bounds,
    /// Bounds beside them, which are paired with these.
    beside: Bounds,
    /// The references that are kept apart so far.
    apart: Apart,
    /// The numbers of two states, named together.
    numbers: Option<Pairs>,
    /// The references of two states, named together.
    references: Option<ReferencePairs>,
    /// The new names of symbols, from symbol 0 on.
    symbol_names: Vec<Option<Expr>>,
    /// The new names of references, from reference 0 on.
    new_references: Vec<Option<u32>>,
    /// The segments of an array.
    segments: SegmentRules,
}

/// The pairs before an answer.
fn current<T>(pairs: &Option<T>) -> Result<&T, Failure> {
    match pairs {
        Some(pairs) => Ok(pairs),
        None => Err(Failure::Unread("pairs before this line")),
    }
}

impl RelationRules {
    /// Asks a rule on bounds. None where the keyword is of no such rule.
    fn ask_bounds(&self, keyword: &str, argument: &str) -> Option<Result<(), Failure>> {
        let (alloc, bounds) = (self.alloc, &self.bounds);
        Some(match keyword {
            "rows" => bound_rules::rows(alloc, bounds, argument),
            "rows-from" => bound_rules::rows_from(alloc, bounds, argument),
            "rows-to" => bound_rules::rows_to(alloc, bounds, argument),
            "stored" => bound_rules::stored(alloc, bounds, argument),
            "stored-near" => bound_rules::stored_near(alloc, bounds, argument),
            "noted" => bound_rules::noted(alloc, bounds, argument),
            "same-bounds" => bound_rules::same(alloc, bounds, argument),
            "made" => bound_rules::made(alloc, argument),
            "gap" => bound_rules::gap(alloc, bounds, argument),
            "gap-with" => bound_rules::gap_with(alloc, bounds, argument),
            "gaps" => bound_rules::gaps(alloc, bounds, argument),
            "raised" => bound_rules::raised(alloc, argument),
            _ => return None,
        })
    }

    /// Asks a rule on references. None where the keyword is of no such rule.
    fn ask_references(&self, keyword: &str, argument: &str) -> Option<Result<(), Failure>> {
        let (alloc, apart) = (self.alloc, &self.apart);
        Some(match keyword {
            "pairs" => apart_rules::pairs(alloc, apart, argument),
            "is-apart" => apart_rules::is_apart(alloc, apart, argument),
            "same-pairs" => apart_rules::same(alloc, apart, argument),
            "must-differ" => apart_rules::must_differ(alloc, apart, argument),
            "joined-nullness" => apart_rules::joined(alloc, argument),
            "entails" => apart_rules::entails(alloc, argument),
            _ => return None,
        })
    }

    /// Asks a rule on names.
    fn ask_names(&self, keyword: &str, argument: &str) -> Result<(), Failure> {
        let alloc = self.alloc;
        let symbols = self.symbol_names.as_slice();
        let references = self.new_references.as_slice();
        match keyword {
            "keys" => name_rules::keys(alloc, current(&self.numbers)?, argument),
            "names" => name_rules::names(alloc, current(&self.numbers)?, argument),
            "named" => name_rules::named(alloc, current(&self.numbers)?, argument),
            "own-names" => name_rules::own_names(alloc, current(&self.numbers)?, argument),
            "reference-names" => {
                name_rules::reference_names(alloc, current(&self.references)?, argument)
            }
            "first-uses" => name_rules::first_uses(alloc, argument),
            "renamed" => name_rules::renamed_number(alloc, symbols, argument),
            "named-definition" => definition_rules::named(
                alloc,
                current(&self.numbers)?,
                current(&self.references)?,
                argument,
            ),
            "renamed-definition" => {
                definition_rules::renamed(alloc, symbols, references, argument)
            }
            "renamed-above" => {
                definition_rules::renamed_above(alloc, symbols, references, argument)
            }
            _ => Err(Failure::Unread("a keyword")),
        }
    }

    /// Asks a rule.
    fn ask(&self, keyword: &str, argument: &str) -> Result<Line, Failure> {
        if keyword == "paired-gap" {
            return self.ask_both(argument);
        }
        if let Some(answer) = self.ask_bounds(keyword, argument) {
            answer?;
        } else if let Some(answer) = self.ask_references(keyword, argument) {
            answer?;
        } else {
            self.ask_names(keyword, argument)?;
        }
        Ok(Line::Answer)
    }

    /// `paired-gap s1 s2 = 3`: the gap by the bounds and those beside them.
    fn ask_both(&self, argument: &str) -> Result<Line, Failure> {
        let both = Paired {
            first: self.bounds.copy(self.alloc)?,
            second: self.beside.copy(self.alloc)?,
        };
        bound_rules::gap(self.alloc, &both, argument)?;
        Ok(Line::Answer)
    }

    /// Begins with other values.
    fn begin(&mut self, keyword: &str, argument: &str) -> Result<Line, Failure> {
        let alloc = self.alloc;
        match keyword {
            "bounds" => self.bounds = bound_rules::bounds(alloc, argument)?,
            _ => self.numbers = Some(name_rules::pair(alloc, argument)?),
        }
        Ok(Line::Begin)
    }

    /// Notes what lines behind this one stand on.
    fn set(&mut self, keyword: &str, argument: &str) -> Result<Line, Failure> {
        let alloc = self.alloc;
        match keyword {
            "beside" => self.beside = bound_rules::bounds(alloc, argument)?,
            "pair-references" => {
                self.references = Some(name_rules::pair_references(alloc, argument)?);
            }
            "symbol-names" => self.symbol_names = name_rules::symbol_names(alloc, argument)?,
            _ => self.new_references = name_rules::new_references(alloc, argument)?,
        }
        Ok(Line::Setting)
    }

    /// Takes a line on segments.
    fn take_segments(&mut self, keyword: &str, argument: &str) -> Result<Line, Failure> {
        let names = self.symbol_names.as_slice();
        match keyword {
            "strong-store" | "weak-store" => self.segments.store(&self.bounds, keyword, argument),
            "segments-are" => self.segments.are(argument),
            "load" => self.segments.load(&self.bounds, argument),
            "includes" => self.segments.includes(&self.bounds, names, argument),
            "in-other-names" => self.segments.in_other_names(names, argument),
            "unified" | "widened-segments" => {
                self.segments
                    .unified(current(&self.numbers)?, keyword, argument)
            }
            _ => self.segments.set(keyword, argument),
        }
    }

    /// Takes a step.
    fn step(&mut self, keyword: &str, argument: &str) -> Result<Line, Failure> {
        match keyword {
            "bound" => bound_rules::add(&mut self.bounds, argument)?,
            "apart" => apart_rules::set_apart(&mut self.apart, argument)?,
            _ => apart_rules::set_new(&mut self.apart, argument)?,
        }
        Ok(Line::Step)
    }
}

impl Rules for RelationRules {
    fn new(alloc: Global) -> RelationRules {
        RelationRules {
            alloc,
            bounds: Bounds::new(alloc),
            beside: Bounds::new(alloc),
            apart: Apart::new(alloc),
            numbers: None,
            references: None,
            symbol_names: Vec::new(alloc),
            new_references: Vec::new(alloc),
            segments: SegmentRules::new(alloc),
        }
    }

    fn take(&mut self, keyword: &str, argument: &str) -> Result<Line, Failure> {
        if SegmentRules::has(keyword) {
            return self.take_segments(keyword, argument);
        }
        match keyword {
            "bounds" | "pair" => self.begin(keyword, argument),
            "beside" | "pair-references" | "symbol-names" | "new-references" => {
                self.set(keyword, argument)
            }
            "bound" | "apart" | "new" => self.step(keyword, argument),
            _ => self.ask(keyword, argument),
        }
    }
}
