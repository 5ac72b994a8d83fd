//! Binding the frame of one state to that of another.

ghost use Rattle.std.specs.Prelude.{◌≡◌, Some, None, get_or, IfOk, IfSome, if◌then◌else◌};
ghost use Rattle.std.specs.Option.{option_and_then, option_map};
ghost use Rattle.frame_names.specs.Frames.{AreAlike};
ghost use Rattle.frame_names.specs.BoundMeaning.{HasSameLengths, SaysSame};
ghost use Rattle.frame_names.specs.Binding.{bound_frames, filled_with, with_length, with_lengths, with_var, with_vars};

use crate::frame::Frame;
use crate::reference::{Reference, length_of};
use crate::slots::{Bound, Slots, all_filled, bind_number, bind_reference};
use crate::var::Var;
use domain_api::{NoMemory, Order};
use std::alloc::Global;
use std::marker::Model;

/// What a state's symbols are worth by another state, and which references its references are.
#[derive(Drop)]
pub struct Binding {
    /// For each symbol, from symbol 0 on, what it was first bound to. Symbol 0 is the number 0.
    pub symbols: Vec<Bound>,
    /// For each reference, from reference 0 on, the other state's. Reference 0 is null.
    pub references: Vec<u32>,
}

impl Model for Binding {
    ghost use Rattle.frame_names.specs.Binding.{FrameBinding};

    ghost Value = { FrameBinding };

    ghost view = { λ binding. record { symbols = binding.symbols.items; references = binding.references.items } };
}

/// The slot at an index. One that is not there is free.
fn slot_at(slots: &[Option<u32>], index: usize) -> Option<u32>
    ensures { result ≡ get_or slots.now index None }
{
    match slots.get(index) {
        None => None,
        Some(slot) => *slot,
    }
}

/// Two states' tables of references, and how the symbols of the first lie to each other.
#[derive(Drop)]
struct Tables<'a, O> {
    order: &'a O,
    a: &'a [Reference],
    b: &'a [Reference],
}

impl<'a, O: Order> Tables<'a, O> {
    /// Binds a variable of the second state to what the first has there. Returns false where it cannot be.
    fn bind_var(&self, slots: &mut Slots, x: Var, y: Var) -> bool
        ensures { (if result then Some slots.new else None)
            ≡ with_var (O.gap self.now.order.now) self.now.a.now self.now.b.now x y slots.old }
    {
        match (x, y) {
            (Var::Number(e), Var::Number(f)) => {
                bind_number(self.order, slots.symbols.as_mut_slice(), e, f)
            }
            (Var::Reference(r), Var::Reference(q)) => {
                bind_reference(self.a, self.b, slots.references.as_mut_slice(), r, q)
            }
            (Var::Text, Var::Text) => true,
            (Var::Address(r, e), Var::Address(q, f)) => {
                bind_reference(self.a, self.b, slots.references.as_mut_slice(), r, q)
                    && bind_number(self.order, slots.symbols.as_mut_slice(), e, f)
            }
            _ => false,
        }
    }

    /// Binds all variables in order. Returns false where one cannot be bound.
    #[tactic(auto, using(crate::proofs::FrameLemmas::same_length))]
    fn bind_vars(&self, slots: &mut Slots, xs: &[Var], ys: &[Var]) -> bool
        requires { AreAlike xs.now ys.now }
        ensures { (if result then Some slots.new else None)
            ≡ with_vars (O.gap self.now.order.now) self.now.a.now self.now.b.now xs.now ys.now slots.old }
    {
        for index in 0..xs.len() {
            if !self.bind_var(slots, xs[index], ys[index]) {
                return false;
            }
        }
        true
    }

    /// Binds the length of a reference to that of the one it is bound to. Returns false where it is not bound, or the
    /// lengths cannot be.
    fn bind_length(
        &self,
        symbols: &mut [Option<Bound>],
        known: &Reference,
        slot: Option<u32>,
    ) -> bool
        ensures { (if result then Some symbols.new else None)
            ≡ with_length (O.gap self.now.order.now) self.now.a.now known.now slot symbols.old }
    {
        match slot {
            None => false,
            Some(r) => bind_number(self.order, symbols, length_of(self.a, r), known.length),
        }
    }

    /// Binds the lengths of all references, from reference 1 on, in order. Given are the slots of these.
    #[tactic(auto, using(crate::proofs::ListSteps::head_drop, crate::proofs::ListSteps::next_drop))]
    fn bind_lengths(&self, symbols: &mut [Option<Bound>], slots: &[Option<u32>]) -> bool
        ensures { (if result then Some symbols.new else None)
            ≡ with_lengths (O.gap self.now.order.now) self.now.a.now self.now.b.now slots.now symbols.old }
    {
        for index in 0..self.b.len() {
            if !self.bind_length(symbols, &self.b[index], slot_at(slots, index)) {
                return false;
            }
        }
        true
    }
}

/// What all slots have. None where one is free.
fn filled(alloc: Global, slots: &Slots) -> Result<Option<Binding>, NoMemory>
    ensures { IfOk result (λ binding. binding ≡ filled_with slots.now.references slots.now.symbols) }
{
    let Some(symbols) = all_filled(alloc, slots.symbols.as_slice())? else {
        return Ok(None);
    };
    let Some(references) = all_filled(alloc, slots.references.as_slice())? else {
        return Ok(None);
    };
    Ok(Some(Binding {
        symbols,
        references,
    }))
}

/// Binds the frame of a state to that of another.
fn bound<O: Order>(
    alloc: Global,
    order: &O,
    a: &Frame,
    b: &Frame,
    symbols: usize,
) -> Result<Option<Binding>, NoMemory>
    requires alike { AreAlike a.now.vars.now b.now.vars.now }
    ensures { IfOk result (λ binding. binding ≡ bound_frames (O.gap order.now)
        a.now.vars.now a.now.references.now b.now.vars.now b.now.references.now symbols) }
{
    let tables = Tables {
        order,
        a: a.references,
        b: b.references,
    };
    let mut slots = Slots::free(alloc, symbols, b.references.len())?;
    if !tables.bind_vars(&mut slots, a.vars, b.vars) {
        return Ok(None);
    }
    let Slots {
        symbols: mut numbers,
        references,
    } = slots;
    if !tables.bind_lengths(numbers.as_mut_slice(), references.get(1..).unwrap_or(&[])) {
        return Ok(None);
    }
    filled(
        alloc,
        &Slots {
            symbols: numbers,
            references,
        },
    )
}

/// Binds the frame of a state b, which has so many symbols, to that of a state a: first the variables in order, then
/// the lengths of references. A symbol or a reference is bound where it is met first. Where it is met again, the two
/// must be shown to be equal, or be the same reference.
///
/// None where they are not, where a reference is bound to one of another type that may be an array, where reference 0
/// meets one that may be an array, or where a symbol or a reference stays unbound.
///
/// Cost: two gaps for each variable and length.
pub fn bind_frames<O: Order>(
    alloc: Global,
    order: &O,
    a: &Frame,
    b: &Frame,
    symbols: usize,
) -> Result<Option<Binding>, NoMemory>
    requires alike { AreAlike a.now.vars.now b.now.vars.now }
    ensures value { IfOk result (λ binding. binding ≡ bound_frames (O.gap order.now)
        a.now.vars.now a.now.references.now b.now.vars.now b.now.references.now symbols) }
    ensures says { IfOk result (λ binding. IfSome binding
        (SaysSame (O.gap order.now) a.now.vars.now a.now.references.now b.now.vars.now)) }
    ensures lengths { IfOk result (λ binding. IfSome binding
        (HasSameLengths (O.gap order.now) a.now.references.now b.now.references.now)) }
{
    bound(alloc, order, a, b, symbols)
}
