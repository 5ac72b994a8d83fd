//! The numbers that each symbol may be.

ghost use Rattle.std.specs.Prelude.{◌≡◌, ◌+◌, ◌<◌, map, length, EachIndex, IfOk, IsTrue, [], slice_index_or};
ghost use Rattle.std.specs.List.{AllByRecursion, range_with_len};
ghost use Rattle.number_spans.specs.Sizes.{IsLong, IsLongHole};
ghost use Rattle.number_spans.specs.Spans.{full};
ghost use Rattle.number_facts.specs.Ends as rule;
ghost use Rattle.number_facts.specs.Ends.{span_at};
ghost use Rattle.number_facts.specs.SpanLists.{AreLeftBy, AreSpans, AreStored, HasEnds, HasSums, HaveEnds, HaveSums};
ghost use Rattle.number_facts.specs.SpanLists.{IsLeftBy, IsLowered, IsRaised, IsSpanOf, IsStored, LeaveEnds};

use crate::ends::met;
use crate::numbers::Numbers;
use domain_api::NoMemory;
use number_spans::Span;
use pentagon_domain::{BoundRow, Ends};
use std::alloc::Global;

impl Numbers {
    /// The ends that are stored of a symbol.
    fn stored_span(&self, symbol: u32) -> Span
        ensures { IsStored self.now symbol result }
    {
        let ends = self.stored_ends(symbol);
        Span::between(ends.lo, ends.hi)
    }

    /// The ends that are stored of so many symbols.
    #[tactic(auto, using(crate::proofs::SpanLists::pushed))]
    fn stored_spans(&self, alloc: Global, count: u32) -> Result<Vec<Span>, NoMemory>
        ensures ends { IfOk result (λ spans. AreStored self.now spans.items) }
        ensures length { IfOk result (λ spans. length spans.items ≡ count) }
    {
        let mut spans = Vec::with_capacity(alloc, count as usize)?;
        for symbol in 0..count {
            spans.push(self.stored_span(symbol))?;
        }
        Ok(spans)
    }

    /// Raises a lower end by a bound.
    fn raise_by(&self, span: &mut Span, row: &BoundRow)
        requires { HasSums span.old }
        ensures low { span.new.lo ≡ rule.raised_by self.now span.old.lo row.now }
        ensures high { span.new.hi ≡ span.old.hi }
        ensures hole { span.new.hole ≡ span.old.hole }
        ensures sums { HasSums span.new }
    {
        span.lo = self.raised_by(span.lo, row);
    }

    /// Lowers an upper end by a bound.
    fn lower_by(&self, span: &mut Span, row: &BoundRow)
        requires { HasSums span.old }
        ensures low { span.new.lo ≡ span.old.lo }
        ensures high { span.new.hi ≡ rule.lowered_by self.now span.old.hi row.now }
        ensures hole { span.new.hole ≡ span.old.hole }
        ensures sums { HasSums span.new }
    {
        span.hi = self.lowered_by(span.hi, row);
    }

    /// Raises the lower end of the symbol to which a bound goes.
    #[tactic(auto, using(crate::proofs::SpanLists::raises))]
    fn raise_low(&self, spans: &mut [Span], row: &BoundRow)
        requires { HaveSums spans.old }
        ensures value { EachIndex spans.new (λ s.
            IsRaised self.now row.now s (slice_index_or spans.old s full) (slice_index_or spans.new s full)) }
        ensures sums { HaveSums spans.new }
        ensures length { length spans.new ≡ length spans.old }
    {
        let place = row.t as usize;
        if place < spans.len() {
            self.raise_by(&mut spans[place], row);
        }
    }

    /// Lowers the upper end of the symbol from which a bound goes.
    #[tactic(auto, using(crate::proofs::SpanLists::lowers))]
    fn lower_high(&self, spans: &mut [Span], row: &BoundRow)
        requires { HaveSums spans.old }
        ensures value { EachIndex spans.new (λ s.
            IsLowered self.now row.now s (slice_index_or spans.old s full) (slice_index_or spans.new s full)) }
        ensures sums { HaveSums spans.new }
        ensures length { length spans.new ≡ length spans.old }
    {
        let place = row.s as usize;
        if place < spans.len() {
            self.lower_by(&mut spans[place], row);
        }
    }

    /// Cuts the ends of all symbols by all bounds, in one pass over these.
    #[tactic(auto, using(crate::proofs::SpanLists::cuts))]
    fn cut_all(&self, spans: &mut [Span])
        requires { AreLeftBy self.now self.now.bounds spans.old }
        ensures ends { AreLeftBy self.now [] spans.new }
        ensures length { length spans.new ≡ length spans.old }
    {
        let rows = self.bounds.rows();
        for row in rows {
            self.raise_low(spans, row);
            self.lower_high(spans, row);
        }
    }

    /// Returns whether these are the ends that are stored of a symbol.
    fn has_ends(&self, symbol: u32, ends: Ends) -> bool
        ensures { IsTrue result → HasEnds self.now symbol ends }
    {
        let range = self.range_at(symbol);
        ends.lo == range.lo() && ends.hi == range.hi()
    }

    /// Returns whether this is so of each symbol that has a place there.
    #[tactic(auto, using(crate::proofs::SettledSpans::has_more))]
    fn have_ends(&self, ends: &[Ends]) -> bool
        ensures { IsTrue result → HaveEnds self.now ends.now }
    {
        let Ok(count) = u32::try_from(ends.len()) else {
            return false;
        };
        for symbol in 0..count {
            if !self.has_ends(symbol, ends[symbol as usize]) {
                return false;
            }
        }
        true
    }

    /// Returns whether bounds are seen to cut none of the ends that are stored: they are noted to be settled over these.
    fn leave_ends(&self) -> bool
        ensures { IsTrue result → LeaveEnds self.now }
    {
        match self.bounds.settled_over() {
            None => false,
            Some(ends) => self.have_ends(ends),
        }
    }

    /// Makes the ends that all bounds leave of those that are stored.
    #[tactic(auto, using(crate::proofs::SettledSpans::left))]
    fn cut_stored(&self, spans: &mut [Span])
        requires { AreStored self.now spans.old }
        ensures ends { AreLeftBy self.now [] spans.new }
        ensures length { length spans.new ≡ length spans.old }
    {
        if !self.leave_ends() {
            self.cut_all(spans);
        }
    }

    /// The numbers of a symbol, by the ends that all bounds have cut.
    #[tactic(auto, unfolding(crate::specs::Ends::span_at))]
    fn met_at(&self, ends: Span, symbol: u32) -> Span
        requires { IsLeftBy self.now [] symbol ends }
        ensures { IsSpanOf self.now symbol result }
    {
        met(ends.lo, ends.hi, self.range_at(symbol).hole())
    }

    /// Makes the numbers of a symbol of the ends that all bounds have cut: these are its numbers, unless it has a hole.
    fn meet_hole(&self, span: &mut Span, symbol: u32)
        requires { IsLeftBy self.now [] symbol span.old }
        ensures { IsSpanOf self.now symbol span.new }
    {
        match self.range_at(symbol).hole() {
            None => {}
            Some(_) => *span = self.met_at(*span, symbol),
        }
    }

    /// Makes the numbers of so many symbols of the ends that all bounds have cut.
    #[tactic(auto, using(crate::proofs::SpanLists::meets))]
    fn meet_all(&self, spans: &mut [Span], count: u32)
        requires ends { AreLeftBy self.now [] spans.old }
        requires length { length spans.old ≡ count }
        ensures value { AreSpans self.now spans.new }
        ensures length { length spans.new ≡ length spans.old }
    {
        for symbol in 0..count {
            self.meet_hole(&mut spans[symbol as usize], symbol);
        }
    }

    /// Makes the numbers of so many symbols of the ends that are stored.
    fn settle_all(&self, spans: &mut [Span], count: u32)
        requires ends { AreStored self.now spans.old }
        requires length { length spans.old ≡ count }
        ensures value { AreSpans self.now spans.new }
        ensures length { length spans.new ≡ length spans.old }
    {
        self.cut_stored(spans);
        self.meet_all(spans, count);
    }

    /// The numbers that each symbol may be, by all that is known of it: that of symbol s at place s. Symbol 0 is the
    /// number 0. Where a symbol may be none, the least is above the greatest.
    ///
    /// Cost: two passes over the symbols and one over the bounds, which is left out where these are noted to be settled
    /// over the ranges; memory for the result alone. `NoMemory` also where there are 2^32 symbols and more.
    #[tactic(auto, using(crate::proofs::SpanLists::results))]
    pub fn spans(&self, alloc: Global) -> Result<Vec<Span>, NoMemory>
        ensures value { IfOk result (λ spans.
            spans.items ≡ map (span_at self.now) (range_with_len 0 (length self.now.ranges + 1))) }
        ensures ends { IfOk result (λ spans. AllByRecursion IsLong spans.items) }
        ensures holes { IfOk result (λ spans. AllByRecursion (λ r. IsLongHole r.hole) spans.items) }
    {
        let count = self.next_symbol()?;
        let mut spans = self.stored_spans(alloc, count)?;
        self.settle_all(spans.as_mut_slice(), count);
        Ok(spans)
    }
}
