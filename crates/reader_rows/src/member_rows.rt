//! The names by which assemblies cite each other's methods, in a file whose rows are changed one by one.

use crate::changes::{Change, change};
use asm_image::{Assembly, Member};
use asm_writer::{AsmPlan, Extern, MethodPlan, WriteRefusal, write_linked};
use cc_base::Token;
use cil_model::Place;
use signature_blobs::SigTypes;
use std::alloc::{AllocError, Global};
use std::test::Fail;

/// What a token names: assembly, namespace, class, method, and whether its types are known.
type Named = (
    &'static [u8],
    &'static [u8],
    &'static [u8],
    &'static [u8],
    bool,
);

/// The method of another assembly that the file cites.
const SUM: Named = (b"B", b"Demo", b"Calc", b"Sum", true);

/// Its token.
const CITED: u32 = 0x0a00_000c;

/// Tokens, changes of the file, and what each token names then. The row of the method stands at 0x394 (Class, Name,
/// Signature), that of its class at 0x322 (ResolutionScope, Name, Namespace), the name of its assembly at 0x3d2.
const MEMBERS: [(u32, &[Change], Option<Named>); 29] = [
    (CITED, &[], Some(SUM)),
    (0x0a00_000d, &[], None),
    (0x0a00_0000, &[], None),
    (0x0600_0001, &[], None),
    (0x0100_0005, &[], None),
    (
        0x0a00_0001,
        &[],
        Some((
            b"mscorlib",
            b"System.Diagnostics.Contracts",
            b"Contract",
            b"Requires",
            true,
        )),
    ),
    // The parent: TypeDef 2, TypeRef 0, 1 and 6, ModuleRef 1, MethodDef 1, TypeSpec 1, and a tag that is none.
    (CITED, &[(0x394, b"\x10\0")], None),
    (CITED, &[(0x394, b"\x01\0")], None),
    (
        CITED,
        &[(0x394, b"\x09\0")],
        Some((b"mscorlib", b"System", b"Object", b"Sum", true)),
    ),
    (CITED, &[(0x394, b"\x31\0")], None),
    (CITED, &[(0x394, b"\x0a\0")], None),
    (CITED, &[(0x394, b"\x0b\0")], None),
    (CITED, &[(0x394, b"\x0c\0")], None),
    (CITED, &[(0x394, b"\x2d\0")], None),
    // The scope: Module 1, ModuleRef 1, AssemblyRef 0, 1 and 3, and TypeRef 1, so that the class is nested.
    (CITED, &[(0x322, b"\x04\0")], None),
    (CITED, &[(0x322, b"\x05\0")], None),
    (CITED, &[(0x322, b"\x02\0")], None),
    (
        CITED,
        &[(0x322, b"\x06\0")],
        Some((b"mscorlib", b"Demo", b"Calc", b"Sum", true)),
    ),
    (CITED, &[(0x322, b"\x0e\0")], None),
    (CITED, &[(0x322, b"\x07\0")], None),
    // A name that no zero ends: of the method, of the class, its namespace, and of the assembly.
    (CITED, &[(0x396, b"\xff\xff")], None),
    (CITED, &[(0x324, b"\xff\xff")], None),
    (CITED, &[(0x326, b"\xff\xff")], None),
    (CITED, &[(0x3d2, b"\xff\xff")], None),
    // An empty name is one.
    (
        CITED,
        &[(0x326, b"\0\0")],
        Some((b"B", b"", b"Calc", b"Sum", true)),
    ),
    // The signature: no blob, the convention 15, the conventions 5 and 0 with a type outside the profile.
    (CITED, &[(0x398, b"\xff\xff")], None),
    (CITED, &[(0x511, b"\x0f")], None),
    (
        CITED,
        &[(0x511, b"\x05")],
        Some((b"B", b"Demo", b"Calc", b"Sum", false)),
    ),
    (
        CITED,
        &[(0x514, b"\x0e")],
        Some((b"B", b"Demo", b"Calc", b"Sum", false)),
    ),
];

/// Changes of the file, and the name of the assembly then. Its row of Assembly stands at 0x39a, and the numbers of rows
/// of Assembly and of MethodSpec at 0x2f4 and 0x2fc.
const ASSEMBLIES: [(&[Change], Option<&[u8]>); 5] = [
    (&[], Some(b"A")),
    (&[(0x3ac, b"\xff\xff")], None),
    (&[(0x3ac, b"\x95\0")], Some(b"Main")),
    (&[(0x2f4, b"\0")], None),
    // Of two rows the first counts.
    (&[(0x2f4, b"\x02"), (0x2fc, b"\x02")], Some(b"A")),
];

/// Where the methods of `<Module>` and of `Demo.Main` begin, and namespace and name of the type of the one method then.
/// A run from 2 on has no method.
const CLASSES: [(&[Change], &[u8], &[u8]); 4] = [
    (&[], b"Demo", b"Main"),
    (&[(0x342, b"\x02")], b"", b"<Module>"),
    (&[(0x334, b"\x02"), (0x342, b"\x02")], b"", b""),
    (&[(0x33c, b"\0\0")], b"", b"Main"),
];

/// The method `int32 Go()`, which calls the cited one.
fn go(alloc: Global) -> Result<MethodPlan, AllocError> {
    let name = Vec::from_slice(alloc, b"Go")?;
    let code = Vec::from_slice(alloc, b"\x1b\x28\x0c\x00\x00\x0a\x2a")?;
    Ok(MethodPlan {
        name,
        is_static: true,
        result: Place::Int,
        args: Vec::new(alloc),
        locals: Vec::new(alloc),
        max_stack: 8,
        code,
    })
}

/// The class `Demo.Main` with this method.
fn main_class(alloc: Global) -> Result<AsmPlan, AllocError> {
    let namespace = Vec::from_slice(alloc, b"Demo")?;
    let class = Vec::from_slice(alloc, b"Main")?;
    let method = go(alloc)?;
    let methods = vec![in alloc; method]?;
    Ok(AsmPlan {
        namespace,
        class,
        wide: false,
        methods,
    })
}

/// The method of this name, of the class `Demo.Calc` of the assembly `B`, with the types `int32 (int32)`.
fn other(alloc: Global, name: &[u8]) -> Result<Extern, AllocError> {
    let assembly = Vec::from_slice(alloc, b"B")?;
    let namespace = Vec::from_slice(alloc, b"Demo")?;
    let class = Vec::from_slice(alloc, b"Calc")?;
    let name = Vec::from_slice(alloc, name)?;
    let args = vec![in alloc; Place::Int]?;
    Ok(Extern {
        assembly,
        namespace,
        class,
        name,
        result: Place::Int,
        args,
    })
}

/// So many methods `More`, and then `Sum`.
fn externs(alloc: Global, more: u32) -> Result<Vec<Extern>, AllocError> {
    let mut externs = Vec::new(alloc);
    for _ in 0..more {
        externs.push(other(alloc, b"More")?)?;
    }
    externs.push(other(alloc, b"Sum")?)?;
    Ok(externs)
}

/// The file of the assembly `A` with this class, which cites these methods.
fn file(alloc: Global, more: u32) -> Result<Vec<u8>, WriteRefusal> {
    let plan = main_class(alloc)?;
    let externs = externs(alloc, more)?;
    write_linked(alloc, &plan, b"A", &externs)
}

fn same(found: &[u8], expected: &[u8]) -> bool {
    found == expected
}

/// Returns whether a member is the one that is expected.
fn is_named(member: &Member<'_>, expected: &Named) -> bool {
    let (assembly, namespace, class, name, is_known) = *expected;
    same(member.assembly, assembly)
        && same(member.namespace, namespace)
        && same(member.class, class)
        && same(member.name, name)
        && matches!(member.sig.types, SigTypes::Known(_)) == is_known
}

/// Returns whether a token of an assembly names what is expected.
fn names(assembly: &Assembly<'_>, token: u32, expected: &Option<Named>) -> bool {
    match (&assembly.member_of(Token(token)), expected) {
        (Some(member), Some(expected)) => is_named(member, expected),
        (None, None) => true,
        (Some(_), None) | (None, Some(_)) => false,
    }
}

#[test]
fn a_token_names_a_method_of_another_assembly(rt: HostRuntime) -> Result<(), Fail> {
    let alloc = rt.alloc();
    let bytes = file(alloc, 0)?;
    for (index, (token, changes, expected)) in MEMBERS.iter().enumerate() {
        let mut changed = bytes.to_vec(alloc)?;
        change(&rt, &mut changed, changes);
        let assembly = Assembly::read(alloc, &changed)?;
        assert!(rt; names(&assembly, *token, expected), "row {index}");
    }
    Ok(())
}

/// How many methods `More` a file cites before `Sum`, and the token of `Sum`. Indexes of classes have two bytes up to
/// 8,186 methods `More`, those of assemblies up to 16,381, and four from there on (II.24.2.6).
const COUNTS: [(u32, u32); 6] = [
    (0, 0x0a00_000c),
    (1, 0x0a00_000d),
    (8_186, 0x0a00_2006),
    (8_187, 0x0a00_2007),
    (16_381, 0x0a00_4009),
    (16_382, 0x0a00_400a),
];

#[test]
fn the_last_of_many_is_named(rt: HostRuntime) -> Result<(), Fail> {
    let alloc = rt.alloc();
    for (more, token) in COUNTS {
        let bytes = file(alloc, more)?;
        let assembly = Assembly::read(alloc, &bytes)?;
        assert!(rt; names(&assembly, token, &Some(SUM)), "{more}");
    }
    Ok(())
}

/// Returns whether an assembly has this name.
fn is_called(assembly: &Assembly<'_>, expected: Option<&[u8]>) -> bool {
    match (assembly.assembly_name(), expected) {
        (Some(name), Some(expected)) => same(name, expected),
        (None, None) => true,
        (Some(_), None) | (None, Some(_)) => false,
    }
}

#[test]
fn the_first_row_names_the_assembly(rt: HostRuntime) -> Result<(), Fail> {
    let alloc = rt.alloc();
    let bytes = file(alloc, 0)?;
    for (index, (changes, expected)) in ASSEMBLIES.iter().enumerate() {
        let mut changed = bytes.to_vec(alloc)?;
        change(&rt, &mut changed, changes);
        let assembly = Assembly::read(alloc, &changed)?;
        assert!(rt; is_called(&assembly, *expected), "row {index}");
    }
    Ok(())
}

/// Returns whether the one method of an assembly is `Go` of this type.
fn is_of(assembly: &Assembly<'_>, namespace: &[u8], name: &[u8]) -> bool {
    let method = Token(0x0600_0001);
    let class = assembly.class_of(method);
    same(class.0, namespace) && same(class.1, name) && same(assembly.method_name(method), b"Go")
}

#[test]
fn a_method_is_of_the_last_type_that_begins_before_it(rt: HostRuntime) -> Result<(), Fail> {
    let alloc = rt.alloc();
    let bytes = file(alloc, 0)?;
    for (index, (changes, namespace, name)) in CLASSES.iter().enumerate() {
        let mut changed = bytes.to_vec(alloc)?;
        change(&rt, &mut changed, changes);
        let assembly = Assembly::read(alloc, &changed)?;
        assert!(rt; is_of(&assembly, namespace, name), "row {index}");
    }
    Ok(())
}
