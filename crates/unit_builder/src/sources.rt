//! The files whose methods may call each other.
//!
//! A method is known by a key of 64 bits, the list index of its file above the 32 bits of its token. A file alone has
//! index 0, so one definition and one piece of code serve both.

ghost use Rattle.std.specs.Prelude.{◌≡◌, ◌<◌};
ghost use Rattle.std.specs.Option.{option_copied};
ghost use Rattle.asm_image.specs.Bodies.{method_of};
ghost use Rattle.unit_builder.specs.Linked.{linked_method};
ghost use Rattle.unit_builder.specs.Meanings.{as_token};
ghost use Rattle.unit_builder.specs.Scopes.{file_of, key_at, token_in};
ghost use Rattle.unit_builder.specs.Sources.{files_of};

use asm_image::{Assembly, MethodRow};
use asm_links::Links;
use cc_base::Token;

/// The files whose methods may call each other. The key of a method is its token, above the list index of its file.
#[derive(Clone, Copy)]
pub(crate) enum Sources<'a> {
    /// One file alone.
    One(&'a Assembly<'a>),
    /// Several that are linked.
    Linked(&'a Links<'a>),
}

/// How many keys a file has room for.
const KEYS_OF_FILE: u64 = 0x1_0000_0000;

/// The key of the method of this token in the file of this list index.
pub(crate) fn key_at(file: u32, token: Token) -> u64
    ensures { result ≡ key_at file token.0 }
{
    u64::from(file) * KEYS_OF_FILE + u64::from(token.0)
}

/// The list index of the file of a key's method.
pub(crate) fn file_of(key: u64) -> u32
    ensures { result ≡ file_of key }
{
    (key / KEYS_OF_FILE) as u32
}

/// The token of a key's method.
pub(crate) fn token_in(key: u64) -> Token
    ensures { result ≡ as_token (token_in key) }
{
    Token((key % KEYS_OF_FILE) as u32)
}

/// The method of a key, where a file is alone.
#[tactic(auto, using(crate::proofs::KeyFacts::large_none))]
fn method_alone<'a>(assembly: &'a Assembly<'_>, key: u64) -> Option<&'a MethodRow>
    ensures { option_copied result ≡ method_of assembly.now (as_token key) }
{
    match u32::try_from(key) {
        Ok(token) => assembly.method(Token(token)),
        Err(_) => None,
    }
}

/// The method of a key among linked files.
#[tactic(auto, using(crate::proofs::MeaningFacts::method_in, crate::proofs::MeaningFacts::method_nowhere))]
pub(crate) fn linked_method<'a>(links: &'a Links<'_>, key: u64) -> Option<&'a MethodRow>
    ensures { option_copied result ≡ linked_method links.now key }
{
    match links.assemblies().get(file_of(key) as usize) {
        Some(assembly) => assembly.method(token_in(key)),
        None => None,
    }
}

impl<'a> Sources<'a> {
    /// The file of a list index.
    pub(crate) fn assembly(&self, file: u32) -> &'a Assembly<'a>
        requires there { file < (files_of self.now).count }
        ensures { result.now ≡ (files_of self.now).bytes file }
    {
        match *self {
            Sources::One(assembly) => assembly,
            Sources::Linked(links) => &links.assemblies()[file as usize],
        }
    }

    /// The method of a key.
    pub(crate) fn method(&self, key: u64) -> Option<&'a MethodRow>
        ensures { option_copied result ≡ (files_of self.now).method key }
    {
        match *self {
            Sources::One(assembly) => method_alone(assembly, key),
            Sources::Linked(links) => linked_method(links, key),
        }
    }
}
