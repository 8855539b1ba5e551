//! What the operands of a list are.
ghost use Rattle.std.specs.Prelude.{◌≡◌, All, IfOk, map};
ghost use Rattle.layer_base.specs.Layers.{stack_table};
ghost use Rattle.shard_eval.specs.Operands.{keys_in, marks_in, operand_keys};
ghost use Rattle.shard_eval.specs.Found.{found_keys};
ghost use Rattle.shard_eval.specs.Grouped.{found_any};
ghost use Rattle.shard_eval.specs.Resolution.{found_prefix};
ghost use Rattle.shard_eval.specs.Sources.{found_by, found_lists, source_marks, AreRanked};
ghost use Rattle.shard_eval.specs.Witnesses.{found_in};
ghost use Rattle.uni_base.specs.Cursors.{IsRanked};

use crate::any::{cursors_of, postings_of};
use crate::joins::prefix_hits;
use crate::kept::Marked;
use crate::leaf::Leaf;
use crate::operand::{HitCursor, Operand};
use crate::prefix::PrefixWitness;
use crate::witness::{Postings, Witness};
use layer_stack::Stack;
use lineage_tree::HitRows;
use prefix_terms::prefix_cursor;
use query_tree::Mark;
use set_cursors::OrCursor;
use std::alloc::{AllocError, Global};
use std::collections::VecDeque;
use uni_base::Word;

// The most words of a prefix term that is read by a cursor. Each move of such a cursor looks at all of
// them, so with more it is dearer than to sort once what they lead to.
const FEW_WORDS: usize = 64;

/// An operand of a list: a term, a prefix term of few words, any of a few terms, or the hits of another node.
#[derive(Drop)]
pub(crate) enum Source {
    Term(Leaf),
    Prefix { type_no: u16, from: Word },
    Any(Vec<Leaf>),
    Hits(HitRows),
}

impl Source {
    // A cursor over its keys.
    fn operand<'a>(&'a self, alloc: Global, stack: &'a Stack) -> Result<Operand<'a>, AllocError>
        requires { IsRanked (found_keys (found_by (stack_table stack.now.0) self.now)) }
        ensures { IfOk result (λ operand. keys_in operand ≡ found_keys (found_by (stack_table stack.now.0) self.now)) }
    {
        match self {
            Source::Term(leaf) => Ok(Operand::Term(stack.cursor(alloc, &leaf.term())?)),
            Source::Prefix { type_no, from } => {
                Ok(Operand::Prefix(prefix_cursor(alloc, stack, *type_no, from)?))
            }
            Source::Any(leaves) => {
                let cursors = cursors_of(alloc, stack, leaves.as_slice())?;
                Ok(Operand::Any(OrCursor::new(cursors)))
            }
            Source::Hits(hits) => Ok(Operand::Hits(HitCursor::over(hits.as_slice()))),
        }
    }

    /// The trees of what it finds.
    pub(crate) fn witness(self, alloc: Global, stack: &Stack) -> Result<Witness<'_>, AllocError>
        ensures { IfOk result (λ witness. found_in witness ≡ found_by (stack_table stack.now.0) self) }
    {
        match self {
            Source::Term(leaf) => {
                let cursor = stack.cursor(alloc, &leaf.term())?;
                Ok(Witness::Term(Postings { leaf, cursor }))
            }
            Source::Prefix { type_no, from } => {
                let cursor = prefix_cursor(alloc, stack, type_no, &from)?;
                Ok(Witness::Prefix(PrefixWitness { type_no, cursor }))
            }
            Source::Any(leaves) => Ok(Witness::Any(postings_of(alloc, stack, leaves.as_slice())?)),
            Source::Hits(hits) => Ok(Witness::Hits(VecDeque::from(hits.into_vec()))),
        }
    }
}

/// A prefix term as an operand: as it is where it has few words, else by its hits.
pub(crate) fn prefix_source(
    alloc: Global,
    stack: &Stack,
    type_no: u16,
    from: &Word,
) -> Result<Source, AllocError>
    ensures { IfOk result (λ source. found_by (stack_table stack.now.0) source ≡ found_any (found_prefix (stack_table stack.now.0) type_no from.now)) }
{
    let words = prefix_cursor(alloc, stack, type_no, from)?.words();
    if words > FEW_WORDS {
        return Ok(Source::Hits(prefix_hits(alloc, stack, type_no, from, None)?));
    }
    let from = *from;
    Ok(Source::Prefix { type_no, from })
}

/// Cursors over the keys of operands, with their marks.
pub(crate) fn operands<'a>(
    alloc: Global,
    stack: &'a Stack,
    sources: &'a [(Source, Mark)],
) -> Result<Vec<Marked<'a>>, AllocError>
    requires { AreRanked (found_lists (stack_table stack.now.0) sources.now) }
    ensures keys { IfOk result (λ operands. operand_keys operands.items ≡ map found_keys (found_lists (stack_table stack.now.0) sources.now)) }
    ensures marks { IfOk result (λ operands. marks_in operands.items ≡ source_marks sources.now) }
{
    let mut operands = Vec::new(alloc);
    for (source, mark) in sources {
        operands.push((source.operand(alloc, stack)?, *mark))?;
    }
    Ok(operands)
}
