//! Lines of cases, and the files that they make.

use crate::given::Given;
use crate::wrong::Stop;
use asm_writer::{AsmPlan, Extern, MethodPlan, WriteRefusal, write_linked};
use case_reader::Field;
use cil_model::Place;
use std::alloc::{AllocError, Global};
use std::test::Fail;

/// An assembly with a name of its own, whose method calls one of another assembly.
const LINKED: [(&str, &str); 4] = [
    ("assembly", "a.dll Demo Main"),
    ("named", "A\\20B"),
    ("method", "Go static int32 - - 8 1b 280c00000a 2a"),
    ("extern", "B Demo Calc Sum int32 int32,bool[]"),
];

/// A file of two lines of text.
const TEXT: [(&str, &str); 2] = [("text", "a.txt one two"), ("text", "a.txt")];

/// Lines that are refused: of no assembly, and with too few and too many words.
const REFUSED: [[(&str, &str); 2]; 4] = [
    [
        ("assembly", "a.dll Demo Main"),
        ("extern", "B Demo Calc Sum int32"),
    ],
    [
        ("assembly", "a.dll Demo Main"),
        ("extern", "B Demo Calc Sum int32 - -"),
    ],
    [("text", "a.txt one"), ("named", "A")],
    [("text", "a.txt one"), ("extern", "B Demo Calc Sum int32 -")],
];

/// What lines give.
fn given(alloc: Global, lines: &[(&str, &str)]) -> Result<Given, Stop> {
    let mut given = Given::new(alloc);
    for (keyword, argument) in lines {
        given.take(
            alloc,
            Field {
                line: 1,
                keyword,
                argument,
            },
        )?;
    }
    given.close(alloc)?;
    Ok(given)
}

/// Returns whether lines give a file of this name with these bytes.
fn gives(alloc: Global, lines: &[(&str, &str)], name: &str, bytes: &[u8]) -> bool {
    match given(alloc, lines) {
        Ok(given) => given.files.files.get(name) == Some(bytes),
        Err(_) => false,
    }
}

/// The method that the linked lines describe.
fn go(alloc: Global) -> Result<MethodPlan, AllocError> {
    let name = Vec::from_slice(alloc, b"Go")?;
    let code = Vec::from_slice(alloc, b"\x1b\x28\x0c\x00\x00\x0a\x2a")?;
    Ok(MethodPlan {
        name,
        is_static: true,
        result: Place::Int,
        args: Vec::new(alloc),
        locals: Vec::new(alloc),
        max_stack: 8,
        code,
    })
}

/// The class that they describe.
fn main_class(alloc: Global) -> Result<AsmPlan, AllocError> {
    let namespace = Vec::from_slice(alloc, b"Demo")?;
    let class = Vec::from_slice(alloc, b"Main")?;
    let method = go(alloc)?;
    let methods = vec![in alloc; method]?;
    Ok(AsmPlan {
        namespace,
        class,
        wide: false,
        methods,
    })
}

/// The one method of another assembly that they describe.
fn externs(alloc: Global) -> Result<Vec<Extern>, AllocError> {
    let assembly = Vec::from_slice(alloc, b"B")?;
    let namespace = Vec::from_slice(alloc, b"Demo")?;
    let class = Vec::from_slice(alloc, b"Calc")?;
    let name = Vec::from_slice(alloc, b"Sum")?;
    let args = vec![in alloc; Place::Int, Place::Bools]?;
    let method = Extern {
        assembly,
        namespace,
        class,
        name,
        result: Place::Int,
        args,
    };
    Ok(vec![in alloc; method]?)
}

/// The file that they describe.
fn linked_file(alloc: Global) -> Result<Vec<u8>, WriteRefusal> {
    let plan = main_class(alloc)?;
    let externs = externs(alloc)?;
    write_linked(alloc, &plan, b"A B", &externs)
}

#[test]
fn lines_make_a_file(rt: HostRuntime) -> Result<(), Fail> {
    let alloc = rt.alloc();
    let bytes = linked_file(alloc)?;
    assert!(rt; gives(alloc, &LINKED, "a.dll", &bytes));
    assert!(rt; gives(alloc, &TEXT, "a.txt", b"one two\n\n"));
    Ok(())
}

#[test]
fn lines_of_no_form_are_refused(rt: HostRuntime) -> Result<(), Fail> {
    let alloc = rt.alloc();
    for (index, lines) in REFUSED.iter().enumerate() {
        assert!(rt; given(alloc, lines).is_err(), "row {index}");
    }
    Ok(())
}
