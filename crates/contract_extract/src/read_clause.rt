//! One clause, read from its code.

ghost use Rattle.std.specs.Prelude.{◌≡◌, true, false, None, Some, IfOk, IfSome, IsSome};
ghost use Rattle.cil_model.specs.ClauseTrees.{tree_of};
ghost use Rattle.cil_model.specs.Terms.{old_count};
ghost use Rattle.cil_model.specs.ShortCode.{AreOfShortCode};
ghost use Rattle.clause_faults.specs.TooLarge.{is_too_large};

use crate::trees::limits::Limits;
use crate::trees::tree_counts::old_values;
use crate::trees::tree_of::grow_clause;
use cil_model::{Instr, MAX_CONDITIONS, MAX_NODES, Tree};
use std::alloc::{AllocError, Global};

/// The tree of a clause, with what counts towards a limit of its method.
#[derive(Drop)]
pub(crate) struct ReadClause {
    pub(crate) tree: Tree,
    /// The number of old values that it has.
    pub(crate) old_values: usize,
}

/// The limits of one clause.
const CLAUSE_LIMITS: Limits = Limits {
    conditions: MAX_CONDITIONS,
    nodes: MAX_NODES,
};

/// Reads the clause whose code begins at an IL offset. Nothing is read where its tree is too large.
///
/// Each way forward is gone once, and the stack of trees is copied where it goes two ways. A tree of more nodes than a
/// clause may have is not kept, so no deeper one is copied or dropped. Instructions that make no node, or make only
/// what the closing call drops, are gone over at once: what lies ahead of each instruction is found before, in n log n
/// of the number of instructions. So each instruction that is gone makes a node that the tree has on some way ahead.
/// The nodes of a condition and of the end of a way are counted when they are met, and no way is gone further once
/// there are more than a clause may have, or at the eleventh condition. The time is that of these nodes, once for each
/// condition on their way, and the first way that has too many ends it all, after the time of n nodes for each
/// condition on that way.
pub(crate) fn read_clause(
    alloc: Global,
    instrs: &[Instr],
    start: u32,
) -> Result<Option<ReadClause>, AllocError>
    requires lie { AreOfShortCode instrs.now }
    // The code has a tree, as code with no fault has.
    requires has_tree { IsSome (tree_of instrs.now start) }
    ensures tree { IfOk result (λ read. IfSome read (λ clause. tree_of instrs.now start ≡ Some clause.tree)) }
    ensures within { IfOk result (λ read. IfSome read (λ clause. is_too_large clause.tree ≡ false)) }
    ensures old_values { IfOk result (λ read. IfSome read (λ clause. clause.old_values ≡ old_count clause.tree)) }
    // Where nothing is read, there is no tree that is not too large.
    ensures too_large { IfOk result (λ read. read ≡ None → IfSome (tree_of instrs.now start) (λ tree. is_too_large tree ≡ true)) }
{
    let Some(grown) = grow_clause(alloc, instrs, start, CLAUSE_LIMITS)? else {
        return Ok(None);
    };
    let old_values = old_values(&grown.tree);
    Ok(Some(ReadClause {
        tree: grown.tree,
        old_values,
    }))
}
