//! Assemblies that are made from a seed, to measure a checker by.

ghost use Rattle.std.specs.Prelude.{◌≡◌, ◌++◌, ◌<◌, ◌≤◌, ◌^◌, IfOk, codes};
ghost use Rattle.std.specs.Fmt.{decimal};
ghost use Rattle.asm_writer.specs.Generator.{next, constant_of, method_at, methods_from, generated};
ghost use Rattle.asm_writer.specs.Plans.{method_value, value};
ghost use Rattle.std.specs.Prelude.{map};

use crate::plan::{AsmPlan, MethodPlan};
use crate::template::Template;
use cc_base::put_number;
use std::alloc::{AllocError, Global};

/// The token of the first method: row 1 of MethodDef.
const FIRST_TOKEN: u64 = 0x0600_0001;

/// No code of a template has more bytes.
const CODE_ROOM: usize = 62;

/// No name has more bytes: a letter, and a number of 32 bits.
const NAME_ROOM: usize = 11;

/// The number after x: one step of a linear congruential generator modulo 2^64.
#[tactic(auto, unfolding(crate::specs::Generator::next))]
fn next(x: u64) -> u64
    ensures { result ≡ next x }
{
    x.wrapping_mul(6_364_136_223_846_793_005)
        .wrapping_add(1_442_695_040_888_963_407)
}

/// The constant that a number gives.
#[tactic(auto, unfolding(crate::specs::Generator::constant_of))]
fn constant_of(x: u64) -> u32
    ensures { result ≡ constant_of x }
{
    ((x >> 33) % 1000) as u32
}

/// The name of the method of this index: `m0`, `m1` and so on.
fn name_of(alloc: Global, index: u32) -> Result<Vec<u8>, AllocError>
    ensures { IfOk result (λ name. name.items ≡ codes "m" ++ decimal index) }
{
    let mut name = Vec::with_capacity(alloc, NAME_ROOM)?;
    name.push(b'm')?;
    put_number(alloc, &mut name, i64::from(index))?;
    Ok(name)
}

/// The method of this index, with the constant of this number.
#[tactic(auto, unfolding(crate::specs::Generator::method_at))]
fn method_at(alloc: Global, index: u32, x: u64) -> Result<MethodPlan, AllocError>
    ensures { IfOk result (λ method. method_value method ≡ method_at index x) }
{
    let template = Template::of(index);
    let token = FIRST_TOKEN + u64::from(index);
    let mut code = Vec::with_capacity(alloc, CODE_ROOM)?;
    template.append_code(&mut code, constant_of(x), token)?;
    Ok(MethodPlan {
        name: name_of(alloc, index)?,
        is_static: true,
        result: template.result(),
        args: Vec::from_slice(alloc, template.args())?,
        locals: Vec::from_slice(alloc, template.locals())?,
        max_stack: 8,
        code,
    })
}

/// So many methods.
#[tactic(auto, using(crate::proofs::GeneratorLemmas::methods_more, crate::proofs::GeneratorLemmas::methods_done))]
fn methods(alloc: Global, seed: u32, count: u32) -> Result<Vec<MethodPlan>, AllocError>
    ensures { IfOk result (λ methods. map method_value methods.items ≡ methods_from 0 seed count) }
{
    let mut methods = Vec::with_capacity(alloc, count as usize)?;
    let mut x = u64::from(seed);
    for index in 0..count {
        x = next(x);
        methods.push(method_at(alloc, index, x)?)?;
    }
    Ok(methods)
}

/// An assembly of so many methods of the class `Gen.W`, whose constants come from the seed. The templates take
/// turns.
///
/// Cost: linear in the count.
pub fn generate(alloc: Global, seed: u32, count: u32) -> Result<AsmPlan, AllocError>
    ensures { IfOk result (λ plan. value plan ≡ generated seed count) }
{
    Ok(AsmPlan {
        namespace: Vec::from_slice(alloc, b"Gen")?,
        class: Vec::from_slice(alloc, b"W")?,
        wide: false,
        methods: methods(alloc, seed, count)?,
    })
}
