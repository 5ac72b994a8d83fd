//! What tells methods apart, as keys of a table.

ghost use Rattle.std.specs.Prelude.{◌≡◌, ℕ, List};
ghost use Rattle.std.specs.Str.{bytes_eq};
ghost use Rattle.asm_image.specs.Members.{key_of};
ghost use Rattle.asm_links.specs.Keys.{key_input, same_key, same_names};
ghost use Rattle.asm_links.specs.Laws.SameKeys.{key_equivalence, key_hashed};
ghost use Rattle.asm_links.specs.Targets.{key_with};
ghost use Rattle.std.specs.Cmp.{partial_equiv_from_equiv};

use crate::sigs::{copy_sig, hash_sig, same_sig};
use asm_image::{Assembly, Member, MethodRow};
use std::hash::{Hash, Hasher};

/// What tells a method from others: its assembly, its class, its name and its signature. The names are those of the
/// files, and are not copied.
#[derive(Drop)]
pub(crate) struct Key<'a> {
    pub member: Member<'a>,
}

/// Returns whether two names are equal byte for byte.
fn same_bytes(a: &[u8], b: &[u8]) -> bool
    ensures { result ≡ bytes_eq a.now b.now }
{
    a == b
}

/// Returns whether all names are.
fn same_names(a: &Member<'_>, b: &Member<'_>) -> bool
    ensures { result ≡ same_names (key_of a.now) (key_of b.now) }
{
    same_bytes(a.assembly, b.assembly)
        && same_bytes(a.namespace, b.namespace)
        && same_bytes(a.class, b.class)
        && same_bytes(a.name, b.name)
}

impl<'a> PartialEq for Key<'a> {
    ghost eq = { λ a b. same_key (key_of a.member) (key_of b.member) };

    ghost laws = { partial_equiv_from_equiv (key_equivalence (λ k. key_of k.member)) };

    fn eq(&self, other: &Key<'a>) -> bool {
        same_names(&self.member, &other.member) && same_sig(&self.member.sig, &other.member.sig)
    }
}

impl<'a> Eq for Key<'a> {
    ghost laws = { key_equivalence (λ k. key_of k.member) };
}

impl<'a> Hash for Key<'a> {
    ghost hash_input = { λ a. key_input (key_of a.member) };

    ghost respects_eq = { λ a b same. key_hashed (key_of a.member) (key_of b.member) same };

    fn hash<H: Hasher>(&self, state: &mut H) {
        self.member.assembly.hash(state);
        self.member.namespace.hash(state);
        self.member.class.hash(state);
        self.member.name.hash(state);
        hash_sig(&self.member.sig, state);
    }
}

impl<'a> Key<'a> {
    /// What tells a method of an assembly of this name.
    pub(crate) fn of_method(assembly: &Assembly<'a>, name: &'a [u8], method: &MethodRow) -> Key<'a>
        ensures { key_of result.member ≡ key_with assembly.now name.now method.now }
    {
        let (namespace, class) = assembly.class_of(method.token);
        Key {
            member: Member {
                assembly: name,
                namespace,
                class,
                name: assembly.method_name(method.token),
                sig: copy_sig(&method.sig),
            },
        }
    }
}
