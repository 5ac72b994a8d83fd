//! The machine that runs the methods of a world.

ghost use Rattle.std.specs.Prelude.{◌≡◌, ◌≢◌, ◌+◌, ◌≤◌, ℕ, IfErr, IfOk, IfSome, MatchResult, None, Some, option_map};

use crate::frames::Frames;
use crate::int_args::read_args;
use crate::limits::Limits;
use crate::start::{admitted, reset};
use crate::start_refusal::StartRefusal;
use crate::stop::Stop;
use crate::turn::advance;
use cil_model::{Arg, MAX_VARIABLES, Value, World};
use clause_eval::{Memory, Pile};
use std::alloc::{AllocError, Global};
use std::marker::Model;

/// The machine that runs the methods of a world, one after another. It takes all its memory when it is made.
#[derive(Drop)]
pub struct Machine<'a> {
    world: &'a World,
    limits: Limits,
    frames: Frames,
    memory: Memory,
    /// The values of the arguments of a run that is to start.
    values: Pile<Value>,
    /// The number of steps taken, with the one that ended the run.
    taken: u32,
    /// How the run ended, if it did so by itself.
    ended: Option<Stop>,
}

impl<'a> Model for Machine<'a> {
    ghost use Rattle.cil_eval.specs.Machines.{IsReady, Machinery};

    ghost Value = { Machinery };

    ghost use Rattle.std.specs.Coded.{codes};
    ghost use Rattle.cil_model.specs.contracts.machine.World as the_world;

    ghost coded = { Prim.hlevel (codes, the_world.the_row.coded) };

    ghost view = { λ m. record { world = m.world.now; limits = m.limits; taken = m.taken; ended = m.ended; frames = m.frames; store = m.memory } };

    ghost invariant = { λ m. IsReady m.limits m.world.now m.frames m.memory m.values };
}

impl<'a> Machine<'a> {
    ghost use Rattle.cil_eval.specs.RunWorlds.{CanBeRun};
    ghost use Rattle.cil_eval.specs.Outcome.{State};
    ghost use Rattle.clause_eval.specs.Lookups.{items_at};
    ghost use Rattle.cil_eval.specs.Starts.{Begins, start_refusal};
    ghost use Rattle.cil_eval.specs.Machines.{ComesBySteps, IsNew, IsOneStep, IsRun, IsSameMachine, StopsIn, TookStep, TookSteps, end_after, state_after};

    /// A machine for runs of methods of this world under these limits.
    ///
    /// # Errors
    ///
    /// Memory runs out.
    #[tactic(auto, using(crate::proofs::RunnableUnits::world_can))]
    pub fn make(alloc: Global, world: &'a World, limits: Limits) -> Result<Machine<'a>, AllocError>
        requires world { CanBeRun world.now }
        requires depth { 1 ≤ limits.depth }
        ensures { IfOk result (IsNew world.now limits) }
    {
        let frames = Frames::make(alloc, limits.depth)?;
        let memory = Memory::make(alloc, limits.cells)?;
        let values = Pile::make(alloc, MAX_VARIABLES, 0)?;
        Ok(Machine {
            world,
            limits,
            frames,
            memory,
            values,
            taken: 0,
            ended: None,
        })
    }

    /// Starts a run of the method of this unit, in place of the one before.
    ///
    /// # Errors
    ///
    /// The first reason why the run does not start. The machine is then as before.
    pub fn start(&mut self, unit: u32, args: &[Arg]) -> Result<(), StartRefusal>
        ensures refusal { MatchResult result (λ started. start_refusal self.old.world self.old.limits unit args.now ≡ None) (λ refusal. start_refusal self.old.world self.old.limits unit args.now ≡ Some refusal) }
        ensures refused { IfErr result (λ refusal. self.new ≡ self.old) }
        ensures begins { IfOk result (λ started. Begins self.old unit args.now self.new) }
    {
        let method = admitted(self.world, self.limits, unit, args, &mut self.values)?;
        read_args(args);
        reset(
            method,
            unit,
            args,
            &self.values,
            self.limits,
            &mut self.frames,
            &mut self.memory,
        );
        self.taken = 0;
        self.ended = None;
        Ok(())
    }

    /// Takes one step: None where the run goes on, else how it stopped. Once a run has stopped, each later call says so
    /// too.
    pub fn step(&mut self) -> Option<Stop>
        ensures one_step { (start : State) → IsRun self.old start → self.old.ended ≡ None → IsOneStep self.old self.new start result }
        ensures kept { (start : State) → IsRun self.old start → IsRun self.new start }
        ensures taken { TookStep self.old self.new result }
        ensures stops { (start : State) → IsRun self.old start → IfSome result (StopsIn self.old start) }
        ensures ended { result ≢ Some Stop.Steps → self.new.ended ≡ result }
        ensures limit { (start : State) → IsRun self.old start → result ≡ Some Stop.Steps → self.old.limits.steps ≤ self.old.taken }
        ensures same { IsSameMachine self.old self.new }
    {
        if self.ended.is_some() {
            return self.ended;
        }
        if self.limits.steps <= self.taken {
            return Some(Stop::Steps);
        }
        self.taken += 1;
        self.ended = advance(self.world, self.limits, &mut self.frames, &mut self.memory);
        self.ended
    }

    /// Takes up to n further steps, and tells how the run ends if it may take no more. Where it stopped for n alone, a
    /// later call takes it up there; any other stop stays.
    pub fn run(&mut self, n: u32) -> Stop
        ensures end { (start : State) → IsRun self.old start → end_after self.old (self.old.taken + n) start ≡ Some result }
        ensures steps { (start : State) → IsRun self.old start → ComesBySteps self.new start self.new.ended }
        ensures kept { (start : State) → IsRun self.old start → IsRun self.new start }
        ensures ended { result ≢ Stop.Steps → self.new.ended ≡ Some result }
        ensures taken { (start : State) → IsRun self.old start → TookSteps self.old n self.new }
        ensures same { IsSameMachine self.old self.new }
    {
        for _ in 0..n {
            if let Some(stop) = self.step() {
                return stop;
            }
        }
        self.ended.unwrap_or(Stop::Steps)
    }

    /// The items of the array of this index, in the order in which the run made them, those of the arguments first: as
    /// they are after the steps that the run took, and once it has stopped, as they are at its end. None where there is
    /// no such array.
    pub fn elements(&self, array: u32) -> Option<&[i32]>
        ensures stored { option_map (λ items. items.now) result ≡ items_at self.now.store.heap array }
        ensures so_far { (start : State) → IsRun self.now start → option_map (λ items. items.now) result ≡ items_at (state_after self.now self.now.taken start).heap array }
        ensures ended { (start : State) (n : ℕ) → IsRun self.now start → self.now.ended ≢ None → self.now.taken ≤ n → option_map (λ items. items.now) result ≡ items_at (state_after self.now n start).heap array }
    {
        self.memory.items(array)
    }
}
