//! Units that are read from the bytes of their files.

ghost use Rattle.std.specs.Prelude.{◌≡◌, IfOk, IfSome};
ghost use Rattle.std.specs.List.{AllByRecursion};
ghost use Rattle.method_unit.specs.Units.{IsUnit};
ghost use Rattle.unit_flow.specs.Flow.{IsLawful};

use case_reader::bytes_of_hex;
use cc_base::{NoMemory, Refusal};
use method_unit::read_unit;
use rule_text::Failure;
use stack_typer::TypedUnit;
use std::alloc::Global;
use std::marker::Model;
use unit_flow::UnitFlow;

/// The units of a world, in order, with their graphs and kinds. States may be asked to flow along their edges. Contracts
/// see the flows of the units.
#[derive(Drop)]
pub struct KnownUnits {
    flows: Vec<UnitFlow>,
}

impl Model for KnownUnits {
    ghost use Rattle.std.specs.Coded.{codes};
    ghost use Rattle.std.specs.Prelude.{List};
    ghost use Rattle.std.specs.List.{AllByRecursion};
    ghost use Rattle.unit_flow.specs.contracts.unit_flow.UnitFlow as the_flow;
    ghost use Rattle.unit_flow.specs.declared.unit_flow.UnitFlow.{UnitFlow};
    ghost use Rattle.unit_flow.specs.Flow.{IsLawful};

    ghost Value = { List UnitFlow };

    ghost coded = { Prim.hlevel (codes, the_flow.the_row.coded) };

    ghost view = { λ known. known.flows.items };

    ghost invariant = { λ known. AllByRecursion IsLawful known.flows.items };
}

impl KnownUnits {
    /// No unit.
    pub fn new(alloc: Global) -> KnownUnits {
        KnownUnits {
            flows: Vec::new(alloc),
        }
    }

    /// Adds a unit.
    fn add(&mut self, alloc: Global, unit: TypedUnit) -> Result<(), NoMemory>
        requires formed { IsUnit unit }
    {
        let code = UnitFlow::of(alloc, unit)?;
        self.flows.push(code)?;
        Ok(())
    }

    /// `43435531..`: adds the unit of a file in hexadecimal digits.
    pub fn read(&mut self, alloc: Global, digits: &str) -> Result<(), Failure> {
        let Some(bytes) = bytes_of_hex(alloc, digits)? else {
            return Err(Failure::Unread("hexadecimal text"));
        };
        let unit = read_bytes(alloc, bytes.as_slice())?;
        Ok(self.add(alloc, unit)?)
    }

    /// All of them.
    pub fn codes(&self) -> &[UnitFlow]
        ensures all { result.now ≡ self.now }
        ensures lawful { AllByRecursion IsLawful result.now }
    {
        &self.flows
    }

    /// The last one.
    pub fn last(&self) -> Option<&UnitFlow>
        ensures lawful { IfSome result (λ code. IsLawful code.now) }
    {
        let count = self.flows.len();
        if count == 0 {
            return None;
        }
        Some(&self.flows[count - 1])
    }
}

/// The unit that these bytes spell.
fn read_bytes(alloc: Global, bytes: &[u8]) -> Result<TypedUnit, Failure>
    ensures { IfOk result IsUnit }
{
    if bytes.len() > 2_147_483_647 {
        return Err(Failure::Unmet("a unit file is short"));
    }
    match read_unit(alloc, bytes) {
        Ok(unit) => Ok(unit),
        Err(Refusal::Bad(fault)) => Err(Failure::Found(format!(in alloc; "{fault}")?)),
        Err(Refusal::NoMemory) => Err(Failure::NoMemory),
    }
}
