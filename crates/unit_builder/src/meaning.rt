//! What the tokens in code mean.

ghost use Rattle.std.specs.Prelude.{◌≡◌};
ghost use Rattle.unit_builder.specs.Laws.SmallNumbers.{small_in};
ghost use Rattle.unit_builder.specs.Linked.{call_to, linked_call, linked_meaning};
ghost use Rattle.unit_builder.specs.Meanings.{call_by, called, meaning_of};
ghost use Rattle.unit_builder.specs.Sources.{files_of};

use crate::callable::is_callable;
use crate::sources::{Sources, key_at, linked_method};
use asm_image::{Assembly, Callee};
use asm_links::Links;
use cc_base::Token;
use cil_model::Place;
use method_code::{Call, Tokens};

/// Returns what units know of what a token names, where a file is alone: a method only where they may have an entry of
/// it.
fn call_by(assembly: &Assembly<'_>, callee: Callee) -> Call
    ensures { result ≡ call_by assembly.now callee }
{
    match callee {
        Callee::Method(token) => match assembly.method(token) {
            Some(method) if is_callable(method) => Call::Callee(u64::from(token.0)),
            _ => Call::Unknown,
        },
        Callee::ContractCall(operation) => Call::Contract(operation.0),
        Callee::Outside => Call::Unknown,
    }
}

/// Returns what a call calls that means a method of linked files.
fn call_to(links: &Links<'_>, home: Option<(u32, Token)>) -> Call
    ensures { result ≡ call_to links.now home }
{
    let Some((file, token)) = home else {
        return Call::Unknown;
    };
    let key = key_at(file, token);
    match linked_method(links, key) {
        Some(method) if is_callable(method) => Call::Callee(key),
        _ => Call::Unknown,
    }
}

/// Returns what a call of what a token names calls: a method where the token means one, but for a contract call.
fn linked_callee(links: &Links<'_>, callee: Callee, home: Option<(u32, Token)>) -> Call
    ensures { result ≡ linked_call links.now callee home }
{
    match callee {
        Callee::ContractCall(operation) => Call::Contract(operation.0),
        Callee::Method(_) => call_to(links, home),
        Callee::Outside => call_to(links, home),
    }
}

/// Returns what a call of this token calls in the code of one of linked files.
#[tactic(auto, using(crate::proofs::MeaningFacts::called_in, crate::proofs::MeaningFacts::called_nowhere))]
fn linked_call(links: &Links<'_>, file: u32, token: Token) -> Call
    ensures { result ≡ (linked_meaning links.now file).call token.0 }
{
    let Some(assembly) = links.assemblies().get(file as usize) else {
        return Call::Unknown;
    };
    linked_callee(links, assembly.callee_of(token), links.target(file, token))
}

/// The type of the elements of arrays of this token in the code of one of linked files.
#[tactic(auto, using(crate::proofs::MeaningFacts::element_in, crate::proofs::MeaningFacts::element_nowhere))]
fn linked_element(links: &Links<'_>, file: u32, token: Token) -> Option<Place>
    ensures { result ≡ (linked_meaning links.now file).element token.0 }
{
    match links.assemblies().get(file as usize) {
        Some(assembly) => assembly.element_of(token),
        None => None,
    }
}

/// The tokens in the code of a file.
#[derive(Drop)]
pub(crate) struct FileTokens<'a> {
    pub sources: &'a Sources<'a>,
    pub file: u32,
}

impl<'a> Tokens for FileTokens<'a> {
    ghost meaning = { λ tokens. (files_of tokens.sources.now).meaning tokens.file };

    #[tactic(auto, unfolding(crate::specs::Meanings::called))]
    fn call(&self, token: Token) -> Call {
        match *self.sources {
            Sources::One(assembly) => call_by(assembly, assembly.callee_of(token)),
            Sources::Linked(links) => linked_call(links, self.file, token),
        }
    }

    fn element(&self, token: Token) -> Option<Place> {
        match *self.sources {
            Sources::One(assembly) => assembly.element_of(token),
            Sources::Linked(links) => linked_element(links, self.file, token),
        }
    }

    ghost small = { λ tokens. small_in tokens.sources.now tokens.file };
}
