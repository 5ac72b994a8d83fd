//! Where the methods stand that a key tells.

ghost use Rattle.std.specs.Prelude.{◌≡◌, ◌++◌, [], List, IfOk, OnOk, ◌≤◌, ◌^◌, length};
ghost use Rattle.asm_image.specs.Members.{key_of};
ghost use Rattle.asm_links.specs.Homes.{Notes, TellsHomes, home_in, one_more, only_home};
ghost use Rattle.asm_links.specs.Targets.{Named, all_named, key_with, named_in};

use crate::key::Key;
use asm_image::{Assembly, MethodRow};
use cc_base::{NoMemory, Token};
use indexmap::IndexMap;
use std::alloc::{AllocError, Global};
use std::marker::Model;

/// Where the methods stand that a key tells.
#[derive(Clone, Copy)]
pub(crate) enum Home {
    /// There is one: the list index of its file, and its token.
    One(u32, Token),
    /// There are more.
    Several,
}

/// Keys, each with where its methods stand. Contracts see the pairs, in the order of the keys' first notes.
#[derive(Drop)]
pub(crate) struct Homes<'a> {
    homes: IndexMap<Key<'a>, Home>,
}

impl<'a> Model for Homes<'a> {
    ghost use Rattle.asm_links.specs.Homes.{Table, seen};

    ghost Value = { Table };

    ghost view = { λ homes. seen homes.homes.entries };
}

/// Returns what stands beside a key once one method more has it.
fn one_more(before: Option<Home>, file: u32, token: Token) -> Home
    ensures { result ≡ one_more before (file, token) }
{
    match before {
        None => Home::One(file, token),
        Some(_) => Home::Several,
    }
}

impl<'a> Homes<'a> {
    /// No method.
    fn none(alloc: Global) -> Homes<'a>
        ensures { result ≡ [] }
    {
        Homes {
            homes: IndexMap::new(alloc),
        }
    }

    /// Notes a method for its key.
    fn note(&mut self, key: Key<'a>, file: u32, token: Token) -> Result<(), AllocError>
        ensures { OnOk result (Notes self.old (key_of key.entry.member) (file, token) self.new) }
    {
        let home = one_more(self.homes.get(&key).copied(), file, token);
        self.homes.insert(key, home)?;
        Ok(())
    }

    /// The method that a key tells, where there is one.
    pub(crate) fn only(&self, key: &Key<'a>) -> Option<(u32, Token)>
        ensures { result ≡ only_home (home_in self.now (key_of key.now.member)) }
    {
        match self.homes.get(key)? {
            Home::One(file, token) => Some((*file, *token)),
            Home::Several => None,
        }
    }

    /// Notes the methods of a file of this list index.
    fn note_all(&mut self, file: u32, assembly: &Assembly<'a>) -> Result<(), AllocError>
        ensures { (before : List Named) → TellsHomes self.old before → OnOk result (TellsHomes self.new (before ++ named_in file assembly.now)) }
    {
        let Some(name) = assembly.assembly_name() else {
            return Ok(());
        };
        for method in assembly.methods() {
            self.note(Key::of_method(assembly, name, method), file, method.token)?;
        }
        Ok(())
    }

    /// Where the methods of assemblies stand.
    ///
    /// Cost: each method is visited once.
    pub(crate) fn of(alloc: Global, assemblies: &[Assembly<'a>]) -> Result<Homes<'a>, NoMemory>
        ensures told { IfOk result (λ homes. TellsHomes homes (all_named 0 assemblies.now)) }
        ensures few { IfOk result (λ _. length assemblies.now ≤ 2 ^ 32) }
    {
        let mut homes = Homes::none(alloc);
        for index in 0..assemblies.len() {
            let Ok(file) = u32::try_from(index) else {
                return Err(AllocError);
            };
            homes.note_all(file, &assemblies[index])?;
        }
        Ok(homes)
    }
}
