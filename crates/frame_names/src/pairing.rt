//! Pairing the frames of two states.

ghost use Rattle.std.specs.Prelude.{◌≡◌, true, false, drop, length, IfOk, IfSome, ℕ, ℤ, Bool, IsSome, if◌then◌else◌};
ghost use Rattle.frame_names.specs.Frames.{AreAlike, IsNearFrame, numbers_of};
ghost use Rattle.frame_names.specs.Fitting.{AreInt32s};
ghost use Rattle.frame_names.specs.Meaning.{HasBothLengths, SaysBoth};
ghost use Rattle.frame_names.specs.Tables.{AgreeOnPlace, AreOfOnePlace};
ghost use Rattle.std.specs.List.{AllByRecursion};
ghost use Rattle.frame_names.specs.PairedFrames.{if_near, named_frame, paired_frames, pairing_by, pairs_of};

use crate::exprs::are_near;
use crate::frame::{Frame, count_numbers, references_of};
use crate::naming::new_vars;
use crate::var::Var;
use domain_api::{Expr, NoMemory};
use std::alloc::Global;
use std::marker::Model;
use symbolic_values::{Env, Pairs, ReferencePairs, pair_references, pair_up};

/// The frames of two states, named together.
///
/// Symbols and references are numbered from 1 on by their first uses. Reference i was the references s and t of its
/// key, at place i - 1 of `references.pairs.keys`, in the first and in the second state.
#[derive(Drop)]
pub struct PairedFrames {
    /// The pairs of references.
    pub references: ReferencePairs,
    /// The pairs of symbols. Its expressions are the new numbers of the variables, and behind them the new lengths.
    pub numbers: Pairs,
    /// The new variables.
    pub vars: Vec<Var>,
    /// The length of each new reference.
    pub lengths: Vec<Expr>,
}

impl Model for PairedFrames {
    ghost use Rattle.frame_names.specs.PairedFrames.{FramePairing};

    ghost Value = { FramePairing };

    ghost view = { λ frames. record {
      references = frames.references.pairs;
      numbers = frames.numbers;
      vars = frames.vars.items;
      lengths = frames.lengths.items;
    } };
}

/// The references of two lists of variables named together.
#[tactic(auto, using(crate::proofs::FrameLemmas::same_references))]
fn pairs_of(alloc: Global, a: &[Var], b: &[Var]) -> Result<ReferencePairs, NoMemory>
    requires { AreAlike a.now b.now }
    ensures { IfOk result (λ references. references.pairs ≡ pairs_of a.now b.now) }
{
    let first = references_of(alloc, a)?;
    let second = references_of(alloc, b)?;
    pair_references(alloc, first.as_slice(), second.as_slice())
}

/// The numbers of two frames named together, and behind them the lengths of paired references.
#[tactic(auto, using(crate::proofs::FrameLemmas::same_exprs, crate::proofs::FrameLemmas::near_exprs, crate::proofs::FrameLemmas::alike_itself))]
fn numbers_by(
    alloc: Global,
    references: &ReferencePairs,
    a: &Frame,
    b: &Frame,
) -> Result<Pairs, NoMemory>
    requires alike { AreAlike a.now.vars.now b.now.vars.now }
    requires first { IsNearFrame a.now.vars.now a.now.references.now }
    requires second { IsNearFrame b.now.vars.now b.now.references.now }
    ensures { IfOk result (λ pairs. pairs ≡
        pairing_by references.now.pairs a.now.vars.now a.now.references.now b.now.vars.now b.now.references.now) }
{
    let keys = references.pairs.keys.as_slice();
    let first = Env {
        exprs: a.exprs(alloc, true, keys)?,
    };
    let second = Env {
        exprs: b.exprs(alloc, false, keys)?,
    };
    pair_up(alloc, &first, &second)
}

/// The new lengths: what stands behind the new numbers of the variables.
fn lengths_behind(alloc: Global, pairs: &Pairs, count: usize) -> Result<Vec<Expr>, NoMemory>
    ensures { IfOk result (λ lengths. lengths.items ≡ drop count pairs.now.exprs) }
{
    let lengths = pairs.exprs.get(count..).unwrap_or(&[]);
    Vec::from_slice(alloc, lengths)
}

/// The frame of these pairs.
fn named_frame(
    alloc: Global,
    vars: &[Var],
    references: ReferencePairs,
    numbers: Pairs,
) -> Result<PairedFrames, NoMemory>
    ensures { IfOk result (λ frames. frames ≡ named_frame vars.now references.pairs numbers) }
{
    let new = new_vars(
        alloc,
        vars,
        numbers.exprs.as_slice(),
        references.pairs.exprs.as_slice(),
    )?;
    let lengths = lengths_behind(alloc, &numbers, count_numbers(vars))?;
    Ok(PairedFrames {
        references,
        numbers,
        vars: new,
        lengths,
    })
}

/// The frame of these pairs, unless a constant leaves -2^32 to 2^32.
fn if_near(
    alloc: Global,
    vars: &[Var],
    references: ReferencePairs,
    numbers: Pairs,
) -> Result<Option<PairedFrames>, NoMemory>
    ensures { IfOk result (λ frames. frames ≡ if_near (named_frame vars.now references.pairs numbers)) }
{
    if !are_near(numbers.exprs.as_slice()) {
        return Ok(None);
    }
    let frames = named_frame(alloc, vars, references, numbers)?;
    Ok(Some(frames))
}

/// The frames of two states named together.
fn paired(alloc: Global, a: &Frame, b: &Frame) -> Result<Option<PairedFrames>, NoMemory>
    requires alike { AreAlike a.now.vars.now b.now.vars.now }
    requires first { IsNearFrame a.now.vars.now a.now.references.now }
    requires second { IsNearFrame b.now.vars.now b.now.references.now }
    ensures { IfOk result (λ frames. frames ≡
        paired_frames a.now.vars.now a.now.references.now b.now.vars.now b.now.references.now) }
{
    let references = pairs_of(alloc, a.vars, b.vars)?;
    let numbers = numbers_by(alloc, &references, a, b)?;
    if_near(alloc, a.vars, references, numbers)
}

/// The frames of two states named together, variable by variable: first their references, then their numbers, and
/// behind these the lengths of the references that are paired.
///
/// None where the constant of a new number or length leaves -2^32 to 2^32. Then no values of symbols make all variables
/// and lengths of a state int32.
///
/// Cost: that of pairing references and numbers, each once. `NoMemory` as there.
pub fn pair_frames(alloc: Global, a: &Frame, b: &Frame) -> Result<Option<PairedFrames>, NoMemory>
    requires alike { AreAlike a.now.vars.now b.now.vars.now }
    requires first { IsNearFrame a.now.vars.now a.now.references.now }
    requires second { IsNearFrame b.now.vars.now b.now.references.now }
    ensures value { IfOk result (λ frames. frames ≡
        paired_frames a.now.vars.now a.now.references.now b.now.vars.now b.now.references.now) }
    ensures some { IfOk result (λ frames. (is_first : Bool) (number : ℕ → ℤ) →
        AreInt32s number (if is_first then a.now.vars.now else b.now.vars.now)
        (if is_first then a.now.references.now else b.now.references.now) → IsSome frames) }
    ensures says { IfOk result (λ frames. IfSome frames (SaysBoth a.now.vars.now b.now.vars.now)) }
    ensures lengths { IfOk result (λ frames.
        IfSome frames (HasBothLengths a.now.references.now b.now.references.now)) }
    ensures places { AreOfOnePlace a.now.references.now b.now.references.now a.now.vars.now b.now.vars.now
        → IfOk result (λ frames. IfSome frames (λ new.
        AllByRecursion (AgreeOnPlace a.now.references.now b.now.references.now) new.references.keys)) }
{
    paired(alloc, a, b)
}

/// The references of a list of variables named together with themselves.
fn own_pairs(alloc: Global, vars: &[Var]) -> Result<ReferencePairs, NoMemory>
    ensures { IfOk result (λ references. references.pairs ≡ pairs_of vars.now vars.now) }
{
    let references = references_of(alloc, vars)?;
    pair_references(alloc, references.as_slice(), references.as_slice())
}

/// The numbers of a frame named together with themselves, and behind them the lengths of its references.
#[tactic(auto, using(crate::proofs::FrameLemmas::near_exprs, crate::proofs::OwnFrames::own_pairing))]
fn own_numbers(alloc: Global, references: &ReferencePairs, frame: &Frame) -> Result<Pairs, NoMemory>
    requires near { IsNearFrame frame.now.vars.now frame.now.references.now }
    requires own { references.now.pairs ≡ pairs_of frame.now.vars.now frame.now.vars.now }
    ensures { IfOk result (λ pairs. pairs ≡ pairing_by references.now.pairs
        frame.now.vars.now frame.now.references.now frame.now.vars.now frame.now.references.now) }
{
    let keys = references.pairs.keys.as_slice();
    let env = Env {
        exprs: frame.exprs(alloc, true, keys)?,
    };
    pair_up(alloc, &env, &env)
}

/// The frame of a state named together with itself.
fn own(alloc: Global, frame: &Frame) -> Result<Option<PairedFrames>, NoMemory>
    requires { IsNearFrame frame.now.vars.now frame.now.references.now }
    ensures { IfOk result (λ frames. frames ≡ paired_frames frame.now.vars.now frame.now.references.now
        frame.now.vars.now frame.now.references.now) }
{
    let references = own_pairs(alloc, frame.vars)?;
    let numbers = own_numbers(alloc, &references, frame)?;
    if_near(alloc, frame.vars, references, numbers)
}

/// The frame of a state in the names of its own first uses: the state paired with itself.
///
/// None, cost and `NoMemory`: as of `pair_frames`.
pub fn name_frame(alloc: Global, frame: &Frame) -> Result<Option<PairedFrames>, NoMemory>
    requires { IsNearFrame frame.now.vars.now frame.now.references.now }
    ensures value { IfOk result (λ frames. frames ≡ paired_frames frame.now.vars.now frame.now.references.now
        frame.now.vars.now frame.now.references.now) }
    ensures some { IfOk result (λ frames. (number : ℕ → ℤ) →
        AreInt32s number frame.now.vars.now frame.now.references.now → IsSome frames) }
    ensures says { IfOk result (λ frames. IfSome frames (SaysBoth frame.now.vars.now frame.now.vars.now)) }
    ensures lengths { IfOk result (λ frames.
        IfSome frames (HasBothLengths frame.now.references.now frame.now.references.now)) }
{
    own(alloc, frame)
}
