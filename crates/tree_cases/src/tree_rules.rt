//! The rules on trees of clauses.

use crate::reading::can_test;
use crate::tree_text::tree;
use abs_state::AbsState;
use clause_trees::{TreeEnv, assume_tree, assume_tree_false, tree_shown, tree_shown_false};
use rule_text::{Failure, asked, check_yes};
use std::alloc::Global;

/// `arguments-at 1`: the variable that has argument 0; `result-at 2`: the one that has the result. Answers whether the
/// keyword is one of these.
pub fn place(env: &mut TreeEnv, keyword: &str, argument: &str) -> Result<bool, Failure> {
    if keyword != "arguments-at" && keyword != "result-at" {
        return Ok(false);
    }
    let Ok(index) = argument.parse::<u32>() else {
        return Err(Failure::Unread("a number of a variable"));
    };
    if keyword == "result-at" {
        env.result = Some(index);
    } else {
        env.args = index;
    }
    Ok(true)
}

/// `shown clt arg0 5 = yes`: whether the state shows a tree to be true.
pub fn shown(
    alloc: Global,
    state: &AbsState,
    env: &TreeEnv,
    argument: &str,
) -> Result<(), Failure> {
    let (text, told) = asked(argument)?;
    let tree = tree(alloc, text)?;
    can_test(alloc, state, env, &tree)?;
    check_yes(alloc, tree_shown(alloc, state, &tree, env)?, told)
}

/// `shown-false clt arg0 5 = yes`: whether the state shows a tree to be false.
pub fn shown_false(
    alloc: Global,
    state: &AbsState,
    env: &TreeEnv,
    argument: &str,
) -> Result<(), Failure> {
    let (text, told) = asked(argument)?;
    let tree = tree(alloc, text)?;
    can_test(alloc, state, env, &tree)?;
    check_yes(alloc, tree_shown_false(alloc, state, &tree, env)?, told)
}

/// `assume-tree clt arg0 5`: the state in which a tree is assumed to be true.
pub fn assumed(
    alloc: Global,
    state: &AbsState,
    env: &TreeEnv,
    argument: &str,
) -> Result<AbsState, Failure> {
    let tree = tree(alloc, argument)?;
    can_test(alloc, state, env, &tree)?;
    Ok(assume_tree(alloc, state, &tree, env)?)
}

/// `assume-tree-false clt arg0 5`: the state in which a tree is assumed to be false.
pub fn assumed_false(
    alloc: Global,
    state: &AbsState,
    env: &TreeEnv,
    argument: &str,
) -> Result<AbsState, Failure> {
    let tree = tree(alloc, argument)?;
    can_test(alloc, state, env, &tree)?;
    Ok(assume_tree_false(alloc, state, &tree, env)?)
}
