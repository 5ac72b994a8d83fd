//! Assemblies whose calls mean each other's methods.
//!
//! Files are linked with each other and each with itself. Names are compared as they are stored and signatures as they
//! are read, so of a file that is given twice no method is meant from outside. Methods of no type have a class of two
//! empty names. A table finds the method that a call means, and the definition goes over all methods: no clause speaks
//! of hashes. More than 2^32 files count as want of memory.

ghost use Rattle.std.specs.Prelude.{◌≡◌, ◌<◌, ◌≤◌, ◌^◌, length, IfOk};
ghost use Rattle.asm_image.specs.Calls.{callee_of};
ghost use Rattle.asm_image.specs.Members.{key_of, member_of};
ghost use Rattle.asm_links.specs.Targets.{has_known_types, meant, target, target_by};
ghost use Rattle.pe_reader.specs.Addresses.{metadata};

use crate::homes::Homes;
use crate::key::Key;
use asm_image::{Assembly, Callee, Member};
use cc_base::{NoMemory, Token};
use signature_blobs::SigTypes;
use std::alloc::Global;
use std::marker::Model;

/// Assemblies whose calls may mean each other's methods. Contracts see the bytes of their files, in order.
#[derive(Drop)]
pub struct Links<'a> {
    assemblies: Vec<Assembly<'a>>,
    homes: Homes<'a>,
}

impl<'a> Model for Links<'a> {
    ghost use Rattle.std.specs.Prelude.{List, ℕ};
    ghost use Rattle.asm_links.specs.Homes.{AreLinked};

    ghost Value = { List (List ℕ) };

    ghost view = { λ links. links.assemblies.items };

    ghost invariant = { λ links. AreLinked links.homes links.assemblies.items };
}

/// Returns whether each type of the signature is in the profile.
fn has_known_types(types: &SigTypes) -> bool
    ensures { result ≡ has_known_types types.now }
{
    matches!(types, SigTypes::Known(_))
}

impl<'a> Links<'a> {
    /// Links assemblies with each other, and each with itself. Where memory runs out they are given up.
    ///
    /// Cost: each method is visited once; its names are not copied.
    pub fn make(alloc: Global, assemblies: Vec<Assembly<'a>>) -> Result<Links<'a>, NoMemory>
        ensures { IfOk result (λ links. links ≡ assemblies.entry.items) }
    {
        let homes = Homes::of(alloc, &assemblies)?;
        Ok(Links { assemblies, homes })
    }

    /// The assemblies, in the order in which they were given.
    pub fn assemblies(&self) -> &[Assembly<'a>]
        ensures files { result.now ≡ self.now }
        ensures few { length result.now ≤ 2 ^ 32 }
    {
        &self.assemblies
    }

    /// The method that a token means in the code of a file: the list index of its file, and its token. None where the
    /// token is neither a method of that file nor means one method of the files.
    ///
    /// Cost: at most one look-up. It takes no memory.
    #[tactic(auto, using(crate::proofs::HomeLemmas::target_is))]
    pub fn target(&self, file: u32, token: Token) -> Option<(u32, Token)>
        requires there { file < length self.now }
        ensures { result ≡ target self.now file token.0 }
    {
        self.target_in(file, &self.assemblies[file as usize], token)
    }

    /// The same with the assembly that the file is.
    fn target_in(&self, file: u32, assembly: &Assembly<'a>, token: Token) -> Option<(u32, Token)>
        ensures { result ≡ target_by self.now file (callee_of (metadata assembly.now) token.0) (member_of (metadata assembly.now) token.0) }
    {
        match assembly.callee_of(token) {
            Callee::Method(token) => Some((file, token)),
            Callee::ContractCall(_) => None,
            Callee::Outside => self.meant(assembly.member_of(token)?),
        }
    }

    /// The method that a method of another assembly means.
    #[tactic(auto, using(crate::proofs::HomeLemmas::only_is), unfolding(crate::specs::Targets::meant))]
    fn meant(&self, member: Member<'a>) -> Option<(u32, Token)>
        ensures { result ≡ meant self.now (key_of member.entry) }
    {
        if !has_known_types(&member.sig.types) {
            return None;
        }
        self.homes.only(&Key { member })
    }
}
