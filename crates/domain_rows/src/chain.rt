//! The least that flows: blocks in a row, each reached from the one before it, and whether one is reached.

ghost use Rattle.std.specs.Prelude.{◌≡◌, ◌<◌, ◌+◌, ◌↔◌, Bool, true, false, ◌||◌, not, ⊤};
ghost use Rattle.std.proofs.Common.{ap, refl, rules};
ghost use Rattle.std.specs.Bool.{beq};
ghost use Rattle.std.proofs.lemmas.Bool.{false≢true};
ghost use Rattle.domain_rows.specs.Laws.Reached.{beq_exact, either_first, either_second, less_holds};

use domain_api::{FlowState, Lattice, Meter, NoMemory, Ticks};
use std::alloc::Global;

/// Blocks in a row.
pub struct Chain {
    /// How many blocks follow the first.
    pub more: u32,
}

/// Whether a block is reached.
#[derive(Clone, Copy)]
pub struct Reached {
    /// It is.
    pub is: bool,
}

impl Lattice for Reached {
    type Point = ();

    ghost holds = { λ a p. a.is ≡ true };

    ghost like = { λ a b. ⊤ };

    ghost join = { λ a b. record { is = a.is || b.is } };

    ghost widen = { λ a b. record { is = a.is || b.is } };

    ghost leq = { λ a b. not a.is || b.is };

    fn join(&self, _alloc: Global, other: &Reached) -> Result<Reached, NoMemory> {
        Ok(Reached {
            is: self.is || other.is,
        })
    }

    fn widen(&self, _alloc: Global, other: &Reached) -> Result<Reached, NoMemory> {
        Ok(Reached {
            is: self.is || other.is,
        })
    }

    fn leq(&self, _alloc: Global, other: &Reached) -> Result<bool, NoMemory> {
        Ok(!self.is || other.is)
    }

    ghost join_left = { λ a b p like is. either_first a.is b.is is };

    ghost join_right = { λ a b p like is. either_second a.is b.is is };

    ghost widen_left = { λ a b p like is. either_first a.is b.is is };

    ghost widen_right = { λ a b p like is. either_second a.is b.is is };

    ghost leq_holds = { λ a b p like less is. less_holds a.is b.is less is };
}

impl FlowState for Reached {
    type Code = Chain;

    type Gauge = Ticks;

    ghost lawful = { λ code. ⊤ };

    ghost block_count = { λ code. code.more + 1 };

    ghost edge_count = { λ code. code.more };

    ghost source = { λ code edge. edge };

    ghost target = { λ code edge. edge + 1 };

    ghost fits = { λ code block a. ⊤ };

    ghost begins = { λ code p. ⊤ };

    ghost goes = { λ code edge p q. ⊤ };

    ghost along = { λ a code edge. a };

    ghost through = { λ a code block. a };

    ghost leaving = { λ a code edge. a };

    ghost entry = { λ code. record { is = true } };

    ghost unknown = { λ code block. record { is = true } };

    ghost nothing = { record { is = false } };

    ghost equal = { λ a b. beq a.is b.is };

    fn along_edge(
        &self,
        _alloc: Global,
        _code: &Chain,
        _edge: u32,
        meter: &mut Ticks,
    ) -> Result<Reached, NoMemory> {
        meter.tick();
        Ok(*self)
    }

    fn before_last(&self, _alloc: Global, _code: &Chain, _block: u32) -> Result<Reached, NoMemory> {
        Ok(*self)
    }

    fn leave(
        self,
        _alloc: Global,
        _code: &Chain,
        _edge: u32,
        meter: &mut Ticks,
    ) -> Result<Reached, NoMemory> {
        meter.tick();
        Ok(self)
    }

    fn copy(&self, _alloc: Global) -> Result<Reached, NoMemory> {
        Ok(*self)
    }

    fn same(&self, other: &Reached) -> bool {
        self.is == other.is
    }

    fn nothing() -> Reached {
        Reached { is: false }
    }

    fn entry(_alloc: Global, _code: &Chain) -> Result<Reached, NoMemory> {
        Ok(Reached { is: true })
    }

    fn unknown(_alloc: Global, _code: &Chain, _block: u32) -> Result<Reached, NoMemory> {
        Ok(Reached { is: true })
    }

    ghost equal_exact = { λ a b. (
      λ equal. ap (λ is. record { is = is }) ((beq_exact a.is b.is).0 equal),
      λ same. (beq_exact a.is b.is).1 (ap (λ state. state.is) same),
    ) };

    ghost first_block = { λ code lawful. Prim.search rules };

    ghost source_below = { λ code edge lawful below. Prim.search rules };

    ghost target_below = { λ code edge lawful below. Prim.search rules };

    ghost fitting_like = { λ code block a b lawful first second. tt };

    ghost join_fits = { λ code block a b lawful first second. tt };

    ghost widen_fits = { λ code block a b lawful first second. tt };

    ghost along_is = { λ code edge a lawful below. refl };

    ghost along_fits = { λ code edge a lawful below fits. tt };

    ghost along_holds = { λ code edge a p q lawful below fits holds goes. holds };

    ghost entry_fits = { λ code lawful. tt };

    ghost entry_holds = { λ code p lawful begins. refl };

    ghost unknown_fits = { λ code block lawful below. tt };

    ghost nothing_fits = { λ code block lawful below. tt };

    ghost nothing_holds = { λ p holds. false≢true holds };
}
