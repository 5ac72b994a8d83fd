//! The rules on segments of arrays.

use crate::premises::{ends_pair, formed, has_next, keeps_end, zero_stays};
use crate::text::check_segments;
use array_segments::Segs;
use domain_api::Expr;
use interval_domain::Range;
use number_facts::{Definitions, Numbers};
use pentagon_domain::Bounds;
use rule_text::{
    Failure, Line, append_range, asked, check, check_yes, expr, range, segment, segments, two_words,
};
use std::alloc::{AllocError, Global};
use symbolic_values::Pairs;

/// The segments of a case.
#[derive(Drop)]
pub struct SegmentRules {
    alloc: Global,
    /// Those that stand so far.
    segs: Segs<Range>,
    /// Those of another state.
    other: Segs<Range>,
    /// The ranges of symbols, from symbol 1 on.
    ranges: Vec<Range>,
}

/// No segments.
fn none(alloc: Global) -> Segs<Range> {
    Segs {
        bounds: Vec::new(alloc),
        contents: Vec::new(alloc),
        marks: Vec::new(alloc),
    }
}

/// The range of a word.
fn content(word: &str) -> Result<Range, Failure> {
    range(word).ok_or(Failure::Unread("a range"))
}

/// The ranges of a list of words.
fn ranges(alloc: Global, text: &str) -> Result<Vec<Range>, Failure> {
    let mut ranges = Vec::new(alloc);
    for word in text.split_whitespace() {
        ranges.push(content(word)?)?;
    }
    Ok(ranges)
}

/// A word, and what stands behind it.
fn asked_of(text: &str) -> Result<(&str, &str), Failure> {
    text.split_once(' ')
        .ok_or(Failure::Unread("an end and a segment"))
}

/// The text of a range.
fn range_text(alloc: Global, found: Range) -> Result<String, AllocError> {
    let mut text = String::new(alloc);
    append_range(&mut text, found)?;
    Ok(text)
}

/// What is loaded at an index.
fn loaded(segs: &Segs<Range>, known: &Numbers, at: Expr) -> Result<Range, Failure> {
    formed(segs)?;
    Ok(segs.load(known, at))
}

/// A store to an array that may be another one.
fn store_weakly(
    segs: &mut Segs<Range>,
    known: &Numbers,
    at: Expr,
    value: Range,
) -> Result<(), Failure> {
    formed(segs)?;
    segs.weak_store(known, at, value);
    Ok(())
}

/// A store to the array itself.
fn store_strongly(
    alloc: Global,
    segs: &mut Segs<Range>,
    known: &Numbers,
    at: Expr,
    value: Range,
) -> Result<(), Failure> {
    formed(segs)?;
    has_next(at)?;
    segs.strong_store(alloc, known, at, value)?;
    Ok(())
}

/// Whether the segments are shown to say at least as much as the other ones.
fn is_below(
    segs: &Segs<Range>,
    other: &Segs<Range>,
    known: &Numbers,
    names: &[Option<Expr>],
) -> Result<bool, Failure> {
    formed(segs)?;
    formed(other)?;
    Ok(segs.leq_under(other, known, names))
}

impl SegmentRules {
    /// Before a case.
    pub fn new(alloc: Global) -> SegmentRules {
        SegmentRules {
            alloc,
            segs: none(alloc),
            other: none(alloc),
            ranges: Vec::new(alloc),
        }
    }

    /// Tells whether a line is one of these rules.
    pub fn has(keyword: &str) -> bool {
        matches!(
            keyword,
            "segments"
                | "other-segments"
                | "ranges"
                | "whole"
                | "strong-store"
                | "weak-store"
                | "segments-are"
                | "load"
                | "includes"
                | "in-other-names"
                | "unified"
                | "widened-segments"
        )
    }

    /// What is known of the symbols, with these bounds.
    fn known(&self, bounds: &Bounds) -> Result<Numbers, AllocError> {
        let ranges = Vec::from_slice(self.alloc, self.ranges.as_slice())?;
        let bounds = bounds.copy(self.alloc)?;
        Ok(Numbers {
            ranges,
            definitions: Definitions::new(self.alloc),
            bounds,
        })
    }

    /// Notes what lines behind this one stand on.
    pub fn set(&mut self, keyword: &str, argument: &str) -> Result<Line, Failure> {
        let alloc = self.alloc;
        match keyword {
            "segments" => self.segs = segments(alloc, argument)?,
            "other-segments" => self.other = segments(alloc, argument)?,
            "ranges" => self.ranges = ranges(alloc, argument)?,
            _ => {
                let (end, value) = asked_of(argument)?;
                let (content, may_be_empty) = segment(value)?;
                self.segs = Segs::whole(alloc, expr(end)?, content, may_be_empty)?;
            }
        }
        Ok(Line::Setting)
    }

    /// `strong-store s1 0..5`, `weak-store s1 0..5`: a store of a value at an index.
    pub fn store(
        &mut self,
        bounds: &Bounds,
        keyword: &str,
        argument: &str,
    ) -> Result<Line, Failure> {
        let (at, value) = two_words(argument)?;
        let (at, value) = (expr(at)?, content(value)?);
        let known = self.known(bounds)?;
        if keyword == "weak-store" {
            store_weakly(&mut self.segs, &known, at, value)?;
        } else {
            store_strongly(self.alloc, &mut self.segs, &known, at, value)?;
        }
        Ok(Line::Step)
    }

    /// `segments-are {0} 0..5 ? {s1}`: the segments, also of a copy.
    pub fn are(&self, told: &str) -> Result<Line, Failure> {
        check_segments(self.alloc, &self.segs, told)?;
        let again = self.segs.copy(self.alloc)?;
        check_segments(self.alloc, &again, told)?;
        Ok(Line::Answer)
    }

    /// What is loaded at an index, with these bounds.
    fn loaded(&self, bounds: &Bounds, at: Expr) -> Result<Range, Failure> {
        let known = self.known(bounds)?;
        loaded(&self.segs, &known, at)
    }

    /// `load s1 = 0..5`: what is loaded at an index.
    pub fn load(&self, bounds: &Bounds, argument: &str) -> Result<Line, Failure> {
        let (at, told) = asked(argument)?;
        let found = self.loaded(bounds, expr(at)?)?;
        check(range_text(self.alloc, found)?, told)?;
        Ok(Line::Answer)
    }

    /// Whether the segments are shown to say at least as much as the other ones, with these bounds.
    fn is_below(&self, bounds: &Bounds, names: &[Option<Expr>]) -> Result<bool, Failure> {
        let known = self.known(bounds)?;
        is_below(&self.segs, &self.other, &known, names)
    }

    /// `includes yes`: whether the segments are shown to say at least as much as the other ones, in the names of their
    /// symbols.
    pub fn includes(
        &self,
        bounds: &Bounds,
        names: &[Option<Expr>],
        told: &str,
    ) -> Result<Line, Failure> {
        check_yes(self.alloc, self.is_below(bounds, names)?, told)?;
        Ok(Line::Answer)
    }

    /// `in-other-names {0} 0..5 ? {s1}`: the segments in the names of symbols.
    pub fn in_other_names(&self, names: &[Option<Expr>], told: &str) -> Result<Line, Failure> {
        formed(&self.segs)?;
        zero_stays(names)?;
        keeps_end(&self.segs, names)?;
        let found = self.segs.renamed(self.alloc, names)?;
        check_segments(self.alloc, &found, told)?;
        Ok(Line::Answer)
    }

    /// `unified s1 = {0} 0..5 ? {s1}`, `widened-segments s1 = ..`: both as one, where the length is `s1`.
    pub fn unified(&self, pairs: &Pairs, keyword: &str, argument: &str) -> Result<Line, Failure> {
        let (length, told) = asked(argument)?;
        let length = expr(length)?;
        formed(&self.segs)?;
        formed(&self.other)?;
        ends_pair(&self.segs, &self.other, pairs, length)?;
        let found = if keyword == "unified" {
            self.segs.unify(self.alloc, &self.other, pairs, length)?
        } else {
            self.segs
                .widen_under(self.alloc, &self.other, pairs, length)?
        };
        check_segments(self.alloc, &found, told)?;
        Ok(Line::Answer)
    }
}
