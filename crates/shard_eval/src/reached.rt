//! The postings that several terms lead to, term by term.
ghost use Rattle.std.specs.Prelude.{◌≡◌, ◌++◌, IfOk, OnOk, map, take};
ghost use Rattle.layer_base.specs.Layers.{stack_table};
ghost use Rattle.shard_eval.specs.Found.{found_posting, found_term};
ghost use Rattle.shard_eval.specs.Grouped.{firsts};
ghost use Rattle.shard_eval.specs.Kept.{up_to};
ghost use Rattle.shard_eval.specs.Reached.{found_listed, found_reached};

use crate::kept::is_full;
use crate::leaf::Leaf;
use layer_stack::Stack;
use posting_lists::Posting;
use std::alloc::{AllocError, Global};
use uni_base::{DocCursor, Rows};

/// A posting, and the term that leads to it.
#[derive(Clone, Copy)]
pub(crate) struct Reached<'a> {
    pub leaf: &'a Leaf,
    pub posting: Posting,
}

/// Postings, term by term.
pub(crate) type ReachedRows<'a> = Rows<Reached<'a>>;

/// Postings that are at hand, as those of a term.
#[derive(Clone, Copy)]
pub(crate) struct Listed<'a> {
    pub leaf: Leaf,
    pub rows: &'a [Posting],
}

/// The first postings of each term, as many as the limit says, or all.
pub(crate) fn reached_by<'a>(
    alloc: Global,
    stack: &Stack,
    leaves: &'a [Leaf],
    limit: Option<u32>,
) -> Result<ReachedRows<'a>, AllocError>
    ensures { IfOk result (λ reached. map found_reached reached ≡ firsts limit (map (found_term (stack_table stack.now.0)) leaves.now)) }
{
    let mut reached = ReachedRows::new(alloc);
    for leaf in leaves {
        read_term(alloc, stack, leaf, limit, &mut reached)?;
    }
    Ok(reached)
}

fn read_term<'a>(
    alloc: Global,
    stack: &Stack,
    leaf: &'a Leaf,
    limit: Option<u32>,
    reached: &mut ReachedRows<'a>,
) -> Result<(), AllocError>
    ensures { OnOk result (map found_reached reached.new ≡ map found_reached reached.old ++ up_to limit (found_term (stack_table stack.now.0) leaf.now)) }
{
    let mut cursor = stack.cursor(alloc, &leaf.term())?;
    let before = reached.len();
    while let Some(posting) = cursor.posting() {
        if is_full(reached.len() - before, limit) {
            break;
        }
        reached.push(Reached { leaf, posting })?;
        cursor.step();
    }
    Ok(())
}

/// The first postings of each list.
pub(crate) fn reached_in<'a>(
    alloc: Global,
    lists: &'a [Listed<'a>],
    limit: Option<u32>,
) -> Result<ReachedRows<'a>, AllocError>
    ensures { IfOk result (λ reached. map found_reached reached ≡ firsts limit (map found_listed lists.now)) }
{
    let mut reached = ReachedRows::new(alloc);
    for list in lists {
        read_list(list, limit, &mut reached)?;
    }
    Ok(reached)
}

fn read_list<'a>(
    list: &'a Listed<'a>,
    limit: Option<u32>,
    reached: &mut ReachedRows<'a>,
) -> Result<(), AllocError>
    ensures { OnOk result (map found_reached reached.new ≡ map found_reached reached.old ++ up_to limit (found_listed list.now)) }
{
    let leaf = &list.leaf;
    let rows = first_rows(list.rows, limit);
    for posting in rows {
        let posting = *posting;
        reached.push(Reached { leaf, posting })?;
    }
    Ok(())
}

fn first_rows(rows: &[Posting], limit: Option<u32>) -> &[Posting]
    ensures { result.now ≡ up_to limit rows.now }
{
    let Some(limit) = limit else {
        return rows;
    };
    if limit as usize >= rows.len() {
        return rows;
    }
    &rows[..limit as usize]
}
