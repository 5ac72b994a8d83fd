//! Whole units, read from their files and compared with each other.

ghost use Rattle.method_unit.specs.Units.{IsUnit};

use crate::steps::unit_of;
use cil_model::Unit;
use method_unit::same_unit;
use std::alloc::{AllocError, Global};
use std::process::Abort;
use std::test::Fail;

/// Files of units, each unlike those before it in one field, in the order of the fields.
const FILES: [&[u8]; 12] = [
    b"CCU1\x01\0f\0\0\0\x01\0\0\x01\0\0\0\x2a",
    b"CCU1\x01\0g\0\0\0\x01\0\0\x01\0\0\0\x2a",
    b"CCU1\x01\0g\x02\0\0\x01\0\0\x02\0\0\0\x16\x2a",
    b"CCU1\x01\0g\x02\x01\x02\0\x01\0\0\x02\0\0\0\x16\x2a",
    b"CCU1\x01\0g\x02\x01\x04\0\x01\0\0\x02\0\0\0\x16\x2a",
    b"CCU1\x01\0g\x02\x01\x04\x01\x01\x01\0\0\x02\0\0\0\x16\x2a",
    b"CCU1\x01\0g\x02\x01\x04\x01\x03\x01\0\0\x02\0\0\0\x16\x2a",
    b"CCU1\x01\0g\x02\x01\x04\x01\x03\x02\0\0\x02\0\0\0\x16\x2a",
    // Callees: their names, and the kinds, constants and operators of their clauses.
    b"CCU1\x01\0g\x02\0\0\x01\x01\0\x01\0m\x02\0\0\x06\0\0\0\x28\x64\0\0\0\x2a",
    b"CCU1\x01\0g\x02\0\0\x01\x01\0\x01\0m\x02\0\x01\x01\x07\xc1\x01\x05\0\0\0\x01\x05\0\0\0\x06\0\0\0\x28\x64\0\0\0\x2a",
    b"CCU1\x01\0g\x02\0\0\x01\x01\0\x01\0m\x02\0\x01\x02\x07\xc1\x01\x05\0\0\0\x01\x05\0\0\0\x06\0\0\0\x28\x64\0\0\0\x2a",
    b"CCU1\x01\0g\x02\0\0\x01\x01\0\x01\0m\x02\0\x01\x02\x07\xc2\x01\x05\0\0\0\x01\x06\0\0\0\x06\0\0\0\x28\x64\0\0\0\x2a",
];

/// Returns whether a unit is the same as that of a file.
fn is_same(rt: &impl Abort, alloc: Global, unit: &Unit, file: &[u8]) -> Result<bool, AllocError>
    requires { IsUnit unit.now }
{
    let other = unit_of(rt, alloc, file)?;
    Ok(same_unit(unit, other.unit()))
}

/// Returns whether a unit is the same as that of the file of this index, and as that of no other file.
fn is_that_of(rt: &impl Abort, alloc: Global, unit: &Unit, index: usize) -> Result<bool, AllocError>
    requires { IsUnit unit.now }
{
    for (at, file) in FILES.iter().enumerate() {
        if is_same(rt, alloc, unit, file)? != (at == index) {
            return Ok(false);
        }
    }
    Ok(true)
}

#[test]
fn a_unit_is_the_same_as_itself_alone(rt: HostRuntime) -> Result<(), Fail> {
    let alloc = rt.alloc();
    for (index, file) in FILES.iter().enumerate() {
        let unit = unit_of(&rt, alloc, file)?;
        assert!(rt; is_that_of(&rt, alloc, unit.unit(), index)?, "unit {index}");
    }
    Ok(())
}
