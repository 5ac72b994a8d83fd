//! Assemblies that a case describes: `assembly FILE NAMESPACE CLASS`, or `wide_assembly`, then a line for each method,
//! for the assembly's name and for each method of others that it may call.

use crate::arguments::{bytes_of, short_number_of, text_of, word_of};
use crate::wrong::{Stop, stop_at};
use asm_writer::{AsmPlan, Extern, MethodPlan, WriteRefusal, write_linked};
use case_reader::Field;
use cil_model::Place;
use std::alloc::Global;

/// An assembly that is being described.
#[derive(Drop)]
pub struct OpenPlan {
    /// The name of its file.
    pub name: String,
    line: u64,
    plan: AsmPlan,
    /// The name of the assembly, where it is not that of the class.
    assembly: Option<Vec<u8>>,
    /// The methods of other assemblies that its code may call.
    externs: Vec<Extern>,
}

impl OpenPlan {
    /// The assembly of a line `assembly FILE NAMESPACE CLASS`, as yet without methods.
    pub fn begun(alloc: Global, field: Field<'_>, wide: bool) -> Result<OpenPlan, Stop> {
        let mut words = field.argument.split(' ');
        let (Some(name), Some(namespace), Some(class), None) = (
            words.next(),
            words.next(),
            words.next(),
            words.next(),
        ) else {
            return Err(stop_at(alloc, field.line, "not FILE NAMESPACE CLASS"));
        };
        Ok(OpenPlan {
            name: word_of(alloc, field.line, name)?,
            line: field.line,
            plan: AsmPlan {
                namespace: text_of(alloc, field.line, namespace)?,
                class: text_of(alloc, field.line, class)?,
                wide,
                methods: Vec::new(alloc),
            },
            assembly: None,
            externs: Vec::new(alloc),
        })
    }

    /// Returns whether a line of this word adds to the assembly that was begun.
    pub fn takes(keyword: &str) -> bool {
        keyword == "method" || keyword == "named" || keyword == "extern"
    }

    /// Adds what a line says: a method, the assembly's name, or a method of another assembly.
    pub fn add(&mut self, alloc: Global, field: Field<'_>) -> Result<(), Stop> {
        if field.keyword == "method" {
            self.plan.methods.push(method_of(alloc, field)?)?;
        } else if field.keyword == "named" {
            self.assembly = Some(text_of(alloc, field.line, field.argument)?);
        } else {
            self.externs.push(extern_of(alloc, field)?)?;
        }
        Ok(())
    }

    /// The file of the assembly.
    pub fn written(&self, alloc: Global) -> Result<Vec<u8>, Stop> {
        let name = match &self.assembly {
            Some(name) => name.as_slice(),
            None => self.plan.class.as_slice(),
        };
        match write_linked(alloc, &self.plan, name, &self.externs) {
            Ok(bytes) => Ok(bytes),
            Err(WriteRefusal::TooLarge) => Err(stop_at(alloc, self.line, "too large an assembly")),
            Err(WriteRefusal::NoMemory) => Err(Stop::NoMemory),
        }
    }
}

/// The method of a line `method NAME static|instance RESULT ARGUMENTS LOCALS STACK CODE`. Places are joined by commas,
/// and `-` stands for none. A method without code has no CODE.
fn method_of(alloc: Global, field: Field<'_>) -> Result<MethodPlan, Stop> {
    let line = field.line;
    let mut words = field.argument.splitn(7, ' ');
    let (Some(name), Some(kind), Some(result), Some(args), Some(locals), Some(stack)) = (
        words.next(),
        words.next(),
        words.next(),
        words.next(),
        words.next(),
        words.next(),
    ) else {
        return Err(stop_at(
            alloc,
            line,
            "not NAME KIND RESULT ARGUMENTS LOCALS STACK CODE",
        ));
    };
    let code = words.next().unwrap_or("");
    Ok(MethodPlan {
        name: text_of(alloc, line, name)?,
        is_static: is_static(alloc, line, kind)?,
        result: place_of(alloc, line, result)?,
        args: places_of(alloc, line, args)?,
        locals: places_of(alloc, line, locals)?,
        max_stack: short_number_of(alloc, line, stack)?,
        code: bytes_of(alloc, line, code)?,
    })
}

/// The method of another assembly of a line `extern ASSEMBLY NAMESPACE CLASS NAME RESULT ARGUMENTS`.
fn extern_of(alloc: Global, field: Field<'_>) -> Result<Extern, Stop> {
    let line = field.line;
    let mut words = field.argument.split(' ');
    let (Some(assembly), Some(namespace), Some(class), Some(name), Some(result), Some(args), None) =
        (
            words.next(),
            words.next(),
            words.next(),
            words.next(),
            words.next(),
            words.next(),
            words.next(),
        ) else {
        return Err(stop_at(
            alloc,
            line,
            "not ASSEMBLY NAMESPACE CLASS NAME RESULT ARGUMENTS",
        ));
    };
    Ok(Extern {
        assembly: text_of(alloc, line, assembly)?,
        namespace: text_of(alloc, line, namespace)?,
        class: text_of(alloc, line, class)?,
        name: text_of(alloc, line, name)?,
        result: place_of(alloc, line, result)?,
        args: places_of(alloc, line, args)?,
    })
}

/// Returns whether the word says that a method is static.
fn is_static(alloc: Global, line: u64, text: &str) -> Result<bool, Stop> {
    match text {
        "static" => Ok(true),
        "instance" => Ok(false),
        _ => Err(stop_at(alloc, line, "neither static nor instance")),
    }
}

/// The type of a word.
fn place_of(alloc: Global, line: u64, text: &str) -> Result<Place, Stop> {
    match text {
        "void" => Ok(Place::Void),
        "bool" => Ok(Place::Bool),
        "int32" => Ok(Place::Int),
        "bool[]" => Ok(Place::Bools),
        "int32[]" => Ok(Place::Ints),
        _ => Err(stop_at(alloc, line, "not a type")),
    }
}

/// The types of a list with commas, or of none, `-`.
fn places_of(alloc: Global, line: u64, text: &str) -> Result<Vec<Place>, Stop> {
    let mut places = Vec::new(alloc);
    if text != "-" {
        for place in text.split(',') {
            places.push(place_of(alloc, line, place)?)?;
        }
    }
    Ok(places)
}
