//! The rules that tell something of a state.

use abs_state::AbsState;
use domain_api::{Lattice, NoMemory};
use rule_text::{
    Failure, append_number, append_wide_range, asked, check, check_yes, expr, nullness_name,
    operator, reference, symbol, three_words, two_words,
};
use state_text::{
    append_value, are_alike, has_number, has_reference, has_symbol, parts, reached, state,
    state_text,
};
use std::alloc::Global;

/// What was found is right, or it is told.
fn expect(alloc: Global, found: &AbsState, is_right: bool) -> Result<(), Failure> {
    if is_right {
        Ok(())
    } else {
        Err(Failure::Found(state_text(alloc, found)?))
    }
}

/// Each state is the other.
fn are_one(a: &AbsState, b: &AbsState) -> bool {
    a.same(b) && b.same(a)
}

/// Neither state is the other.
fn are_two(a: &AbsState, b: &AbsState) -> bool {
    !a.same(b) && !b.same(a)
}

/// `after STATE`: the state is this one, and each is the other.
pub fn after(alloc: Global, found: &AbsState, argument: &str) -> Result<(), Failure> {
    let told = state(alloc, argument)?;
    expect(alloc, found, are_one(found, &told))
}

/// `differs STATE`: the state is another one.
pub fn differs(alloc: Global, found: &AbsState, argument: &str) -> Result<(), Failure> {
    let told = state(alloc, argument)?;
    expect(alloc, found, are_two(found, &told))
}

/// The state that is made of the lists of a copy.
fn made_again(alloc: Global, first: &AbsState) -> Result<Option<AbsState>, NoMemory> {
    let copy = first.copy(alloc)?;
    let lists = copy.parts(alloc)?;
    AbsState::of_parts(alloc, &lists)
}

/// The state that was made again is the first one, and has its text.
fn check_again(
    alloc: Global,
    first: &AbsState,
    again: Option<&AbsState>,
    argument: &str,
) -> Result<(), Failure> {
    let Some(again) = again else {
        return Err(Failure::Found(String::from_str(alloc, "none")?));
    };
    expect(alloc, again, again.same(first))?;
    check(state_text(alloc, again)?, argument)
}

/// `made STATE`: the lists are those of a state, and come again, also of a copy.
pub fn made(alloc: Global, argument: &str) -> Result<(), Failure> {
    let first = state(alloc, argument)?;
    let again = made_again(alloc, &first)?;
    check_again(alloc, &first, again.as_ref(), argument)
}

/// There is no state.
fn check_none(alloc: Global, found: Option<&AbsState>) -> Result<(), Failure> {
    match found {
        Some(found) => expect(alloc, found, false),
        None => Ok(()),
    }
}

/// `refused STATE`: the lists are not those of a state.
pub fn refused(alloc: Global, argument: &str) -> Result<(), Failure> {
    let lists = parts(alloc, argument)?;
    let made = AbsState::of_parts(alloc, &lists)?;
    check_none(alloc, made.as_ref())
}

/// Tells whether a state says at least as much as another one.
fn is_below(alloc: Global, found: &AbsState, other: &AbsState) -> Result<bool, Failure> {
    are_alike(found, other)?;
    Ok(found.leq(alloc, other)?)
}

/// `leq yes STATE`: whether the state says at least as much as this one.
pub fn leq(alloc: Global, found: &AbsState, argument: &str) -> Result<(), Failure> {
    let Some((told, other)) = argument.split_once(' ') else {
        return Err(Failure::Unread("yes or no, and a state"));
    };
    let other = state(alloc, other)?;
    let found = is_below(alloc, found, &other)?;
    check_yes(alloc, found, told)
}

/// `ends s1+3 = 3..12!8`: the least and the greatest of a number, and the one that it is not.
pub fn ends(alloc: Global, state: &AbsState, argument: &str) -> Result<(), Failure> {
    let (e, told) = asked(argument)?;
    let e = expr(e)?;
    reached(state)?;
    has_symbol(alloc, state, e)?;
    let mut text = String::new(alloc);
    append_wide_range(&mut text, state.ends(e))?;
    check(text, told)
}

/// `exact add.ovf s1 s2 = 5..17`: the ends that are judged for overflow.
pub fn exact(alloc: Global, state: &AbsState, argument: &str) -> Result<(), Failure> {
    let (question, told) = asked(argument)?;
    let (op, a, b) = three_words(question)?;
    let op = operator(op).ok_or(Failure::Unread("an operator"))?;
    let (a, b) = (expr(a)?, expr(b)?);
    reached(state)?;
    has_number(alloc, state, a)?;
    has_number(alloc, state, b)?;
    let (lo, hi) = state.exact_ends(op, a, b);
    check(format!(in alloc; "{lo}..{hi}")?, told)
}

/// `gap s1 s2 = 3`: how far the second symbol is known to lie above the first.
pub fn gap(alloc: Global, state: &AbsState, argument: &str) -> Result<(), Failure> {
    let (question, told) = asked(argument)?;
    let (s, t) = two_words(question)?;
    reached(state)?;
    let found = match state.gap(symbol(s)?, symbol(t)?) {
        None => String::from_str(alloc, "none")?,
        Some(far) => format!(in alloc; "{far}")?,
    };
    check(found, told)
}

/// `nullness r1 = not-null`: what is known of whether a reference is null.
pub fn nullness(alloc: Global, state: &AbsState, argument: &str) -> Result<(), Failure> {
    let (r, told) = asked(argument)?;
    reached(state)?;
    let found = nullness_name(state.nullness(reference(r)?));
    check(String::from_str(alloc, found)?, told)
}

/// `length r1 = s1+2`: the length of a reference.
pub fn length(alloc: Global, state: &AbsState, argument: &str) -> Result<(), Failure> {
    let (r, told) = asked(argument)?;
    let r = reference(r)?;
    reached(state)?;
    has_reference(alloc, state, r)?;
    let mut text = String::new(alloc);
    append_number(&mut text, state.length(r))?;
    check(text, told)
}

/// `variable 0 = s1+2`: what a variable has.
pub fn variable(alloc: Global, state: &AbsState, argument: &str) -> Result<(), Failure> {
    let (i, told) = asked(argument)?;
    let Ok(i) = i.parse::<u32>() else {
        return Err(Failure::Unread("a number of a variable"));
    };
    if u64::from(i) >= state.var_count() {
        return Err(Failure::Unmet("the variable is there"));
    }
    let mut text = String::new(alloc);
    append_value(&mut text, state.var(i))?;
    check(text, told)
}
