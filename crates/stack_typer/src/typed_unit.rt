//! Units with the kinds of their code.
//!
//! What reads a unit answers it with its kinds, and what flows is a unit with graph and kinds: each is found once for
//! finder and judge. Contracts see the unit alone.

ghost use Rattle.std.specs.Prelude.{◌≡◌};
ghost use Rattle.cil_model.specs.Passes.{KindsOf};
ghost use Rattle.cil_model.specs.Shapes.{shape_of};

use crate::kinds::Kinds;
use cil_model::Unit;
use std::marker::Model;

/// A unit with the kinds of its code, which were found once. Contracts see the unit.
#[derive(Drop)]
pub struct TypedUnit {
    unit: Unit,
    kinds: Kinds,
}

impl Model for TypedUnit {
    ghost use Rattle.cil_model.specs.declared.unit.Unit.{Unit as MethodUnit};
    ghost use Rattle.cil_model.specs.Passes.{KindsOf};
    ghost use Rattle.cil_model.specs.Shapes.{shape_of};

    ghost Value = { MethodUnit };

    ghost use Rattle.std.specs.Coded.{codes};
    ghost use Rattle.cil_model.specs.contracts.unit.Unit as the_unit;

    ghost coded = { Prim.hlevel (codes, the_unit.the_row.coded) };

    ghost view = { λ typed. typed.unit };

    ghost invariant = { λ typed. KindsOf (shape_of typed.unit) typed.unit.instrs typed.kinds };
}

impl TypedUnit {
    /// The unit, with these kinds of its code.
    pub fn of(unit: Unit, kinds: Kinds) -> TypedUnit
        requires { KindsOf (shape_of unit) unit.instrs kinds }
        ensures { result ≡ unit }
    {
        TypedUnit { unit, kinds }
    }

    /// The unit.
    pub fn unit(&self) -> &Unit
        ensures { result.now ≡ self.now }
    {
        &self.unit
    }

    /// The unit, without its kinds.
    pub fn into_unit(self) -> Unit
        ensures { result ≡ self }
    {
        self.unit
    }

    /// The unit, and the kinds of its code.
    pub fn into_parts(self) -> (Unit, Kinds)
        ensures unit { result.0 ≡ self }
        ensures kinds { KindsOf (shape_of self) self.instrs result.1 }
    {
        (self.unit, self.kinds)
    }
}
