//! Whole assemblies.

ghost use Rattle.std.specs.Prelude.{◌≡◌, ◌++◌, None, Some, Err, IfOk, option_map};
ghost use Rattle.cc_base.specs.Tests.{JudgesOrNoMemory};
ghost use Rattle.cc_base.specs.declared.refusal.Refusal.TheVariants.{Bad};
ghost use Rattle.pe_reader.specs.Addresses.{metadata};
ghost use Rattle.std.specs.Option.{option_copied};
ghost use Rattle.asm_image.specs.Bodies.{method_of};
ghost use Rattle.asm_image.specs.Calls.{callee_of};
ghost use Rattle.asm_image.specs.Faults.{FirstBroken};
ghost use Rattle.asm_image.specs.Find.{either, one_more, find_of, whole_of, short_of};
ghost use Rattle.asm_image.specs.Members.{assembly_name, key_of, member_of, class_of, name_of_method};
ghost use Rattle.asm_image.specs.Reading.{Reads};
ghost use Rattle.asm_image.specs.Rows.{methods_of, named};
ghost use Rattle.asm_image.specs.declared.fault.AsmFault.{AsmFault};
ghost use Rattle.asm_image.specs.Tokens.{locals_of, element_of};

use crate::assembly_file::AssemblyFile;
use crate::callee::Callee;
use crate::fault::AsmRefusal;
use crate::found::Found;
use crate::members::Member;
use crate::method_row::{Method, MethodRow};
use crate::name_table::{NameTable, short_name};
use crate::{calls, members, tokens};
use cc_base::Token;
use cil_model::{List, Place};
use metadata_tables::table::METHOD_DEF;
use pe_reader::Image;
use signature_blobs::LocalSig;
use std::alloc::{AllocError, Global};
use std::marker::Model;

/// An assembly without a fault, with its methods by their names. Contracts see it as the file's bytes.
#[derive(Drop)]
pub struct Assembly<'a> {
    file: AssemblyFile<'a>,
    methods: Vec<MethodRow>,
    names: NameTable,
}

impl<'a> Model for Assembly<'a> {
    ghost use Rattle.std.specs.Prelude.{List, ℕ};

    ghost Value = { List ℕ };

    ghost view = { λ assembly. assembly.file };

    ghost use Rattle.asm_image.specs.Reading.{IsAssembly};

    ghost invariant = { IsAssembly };
}

/// A method with its printed name.
fn named(method: Method, name: Vec<u8>) -> MethodRow
    ensures { result ≡ named method name.items }
{
    MethodRow {
        token: method.token,
        name: List::from_vec(name),
        flags: method.flags,
        impl_flags: method.impl_flags,
        rva: method.rva,
        sig: method.sig,
    }
}

/// The rows of all methods.
#[tactic(auto, using(crate::proofs::WalkLemmas::collected))]
fn read_methods(alloc: Global, file: &AssemblyFile<'_>) -> Result<Vec<MethodRow>, AllocError>
    ensures { IfOk result (λ methods. methods.items ≡ methods_of file.now) }
{
    let mut methods = Vec::new(alloc);
    let mut walk = file.methods(alloc);
    while let Some(method) = walk.current() {
        let mut name = Vec::new(alloc);
        walk.append_name(alloc, &mut name)?;
        methods.push(named(method, name))?;
        walk.advance();
    }
    Ok(methods)
}

/// Returns what two sets of methods without a common one mean together.
fn either(first: Option<Found>, second: Option<Found>) -> Option<Found>
    ensures { result ≡ either first second }
{
    match (first, second) {
        (None, found) | (found, None) => found,
        (Some(_), Some(_)) => Some(Found::Several),
    }
}

/// Returns what is meant once one method more is.
fn one_more(before: Option<Found>, token: Token) -> Found
    ensures { result ≡ one_more before token }
{
    match before {
        None => Found::One(token),
        Some(_) => Found::Several,
    }
}

/// Reads an assembly.
fn read_assembly<'a>(alloc: Global, bytes: &'a [u8]) -> Result<Assembly<'a>, AsmRefusal>
    ensures { JudgesOrNoMemory result (FirstBroken bytes.now) (λ assembly. assembly ≡ bytes.now) }
{
    let file = AssemblyFile::read(bytes)?;
    let methods = read_methods(alloc, &file)?;
    let names = NameTable::of(alloc, &methods)?;
    Ok(Assembly {
        file,
        methods,
        names,
    })
}

impl<'a> Assembly<'a> {
    /// Reads an assembly: its headers, its metadata, and the names and signatures of its types and
    /// methods. An error is the first fault in the order of reading, or that memory ran out.
    ///
    /// Cost: each type and each method is visited once.
    pub fn read(alloc: Global, bytes: &'a [u8]) -> Result<Assembly<'a>, AsmRefusal>
        // What is read is the file, and no test of the list fails.
        ensures value { IfOk result (Reads bytes.now) }
        ensures accepted { IfOk result (λ _. FirstBroken bytes.now ≡ None) }
        // A fault is that of the first test that fails.
        ensures refused { (fault : AsmFault) → result ≡ Err (Bad fault) → FirstBroken bytes.now ≡ Some fault }
    {
        read_assembly(alloc, bytes)
    }

    /// The methods, in the order of the table MethodDef.
    pub fn methods(&self) -> &[MethodRow]
        ensures methods { result.now ≡ methods_of self.now }
        ensures accepted { FirstBroken self.now ≡ None }
    {
        &self.methods
    }

    /// The method that a token names, none where it names no row of the table MethodDef.
    pub fn method(&self, token: Token) -> Option<&MethodRow>
        ensures { option_copied result ≡ method_of self.now token }
    {
        if token.table() != METHOD_DEF || token.row() == 0 {
            return None;
        }
        self.methods.get(token.row() as usize - 1)
    }

    /// Returns what a name means: the methods whose printed name it is, whole or up to the types of the parameters.
    /// None where there is no such method.
    ///
    /// Cost: two look-ups, and one comparison for each method that has the name up to the types. It takes
    /// no memory.
    pub fn find(&self, name: &[u8]) -> Option<Found>
        ensures { result ≡ find_of self.now name.now }
    {
        either(self.find_whole(name), self.find_short(name))
    }

    /// The methods whose whole printed name this is.
    fn find_whole(&self, name: &[u8]) -> Option<Found>
        ensures { result ≡ whole_of self.now name.now }
    {
        let mut found = None;
        let short = short_name(name);
        let mut row = self.names.last_of(short);
        while row > 0 {
            let method = &self.methods[row - 1];
            if name == method.name.as_slice() {
                found = Some(one_more(found, method.token));
            }
            row = self.names.before(row);
        }
        found
    }

    /// The methods whose printed name this is up to the types of the parameters.
    fn find_short(&self, name: &[u8]) -> Option<Found>
        ensures { result ≡ short_of self.now name.now }
    {
        let row = self.names.last_of(name);
        if row == 0 {
            return None;
        }
        if self.names.before(row) == 0 {
            Some(Found::One(self.methods[row - 1].token))
        } else {
            Some(Found::Several)
        }
    }

    /// The PE file.
    pub fn image(&self) -> &Image<'a>
        ensures { result.now ≡ self.now }
    {
        self.file.image()
    }

    /// The locals that the token of a method's body names: no locals for the token 0, else those of a row
    /// of the table StandAloneSig. None where there is no such row, or where its signature does not read.
    pub fn locals_of(&self, token: u32) -> Option<LocalSig>
        ensures { result ≡ locals_of (metadata self.now) token }
    {
        tokens::locals_of(self.file.metadata(), Token(token))
    }

    /// The type of elements that a token names: an int32 or a bool, where it is the row of the table
    /// TypeRef with that name, else none.
    pub fn element_of(&self, token: Token) -> Option<Place>
        ensures { result ≡ element_of (metadata self.now) token.0 }
    {
        tokens::element_of(self.file.metadata(), token)
    }

    /// Returns what a token of a call names: a method of the assembly, a method of the class `Contract`, or
    /// anything else (III.3.19).
    pub fn callee_of(&self, token: Token) -> Callee
        ensures { result ≡ callee_of (metadata self.now) token.0 }
    {
        calls::callee_of(self.file.metadata(), token)
    }
    /// The name of the assembly (II.22.2), as it is stored: that of the first row of the table Assembly. None where
    /// there is no such row, or where its text is not there.
    pub fn assembly_name(&self) -> Option<&'a [u8]>
        ensures { option_map (λ name. name.now) result ≡ assembly_name (metadata self.now) }
    {
        members::assembly_name(self.file.metadata())
    }

    /// The method of another assembly that a token names: a row of the table MemberRef whose parent is a TypeRef with
    /// an AssemblyRef as its scope. None where it is no such row, or where a name or the signature does not read.
    pub fn member_of(&self, token: Token) -> Option<Member<'a>>
        ensures { option_map key_of result ≡ member_of (metadata self.now) token.0 }
    {
        members::member_of(self.file.metadata(), token)
    }

    /// Namespace and name of the type of the method that a token of MethodDef names, as they are stored. Both are
    /// empty where the method has no type, or where there is no such method.
    ///
    /// Cost: logarithmic in the number of types.
    pub fn class_of(&self, token: Token) -> (&'a [u8], &'a [u8])
        ensures namespace { result.0.now ≡ (class_of (metadata self.now) token.0).namespace }
        ensures name { result.1.now ≡ (class_of (metadata self.now) token.0).name }
    {
        members::class_of(self.file.metadata(), token)
    }

    /// The name of the method that a token of MethodDef names, as it is stored, without its type. It is empty where
    /// there is no such method.
    pub fn method_name(&self, token: Token) -> &'a [u8]
        ensures { result.now ≡ name_of_method (metadata self.now) token.0 }
    {
        members::method_name(self.file.metadata(), token)
    }
}
