//! The keys that an operator keeps of its operands' keys.
ghost use Rattle.std.specs.Prelude.{◌≡◌, ◌≤◌, ◌<◌, ◌++◌, All, IfOk, length, map, take};
ghost use Rattle.shard_eval.specs.Kept.{alone, bare, is_full, kept, up_to, weight_alone, IsShare};
ghost use Rattle.uni_meaning.specs.Hits.{quota_of};
ghost use Rattle.shard_eval.specs.Operands.{keys_in, marks_in, operand_keys};
ghost use Rattle.weak_strong.specs.Marks.{strong_quota, weak_quota};

use crate::operand::{Operand, Side};
use query_tree::{ListKind, Mark};
use set_cursors::{AndCursor, DifferenceCursor, OrCursor};
use std::alloc::{AllocError, Global};
use std::collections::VecDeque;
use uni_base::{DocCursor, DocKey, DocList};
use weak_strong::{Fraction, StrongOrCursor, WeakAndCursor, WeakMark};

/// An operand with its mark.
pub(crate) type Marked<'a> = (Operand<'a>, Mark);

/// The first keys that an operator keeps, as many as the limit says, or all.
pub(crate) fn kept_keys(
    alloc: Global,
    kind: ListKind,
    operands: Vec<Marked<'_>>,
    limit: Option<u32>,
) -> Result<DocList, AllocError>
    requires { All IsShare (marks_in operands.items) }
    ensures { IfOk result (λ keys. keys ≡ up_to limit (kept kind (marks_in operands.entry.items) (operand_keys operands.entry.items))) }
{
    match kind {
        ListKind::And => first_keys(alloc, AndCursor::new(cursors(alloc, operands)?), limit),
        ListKind::Or => first_keys(alloc, OrCursor::new(cursors(alloc, operands)?), limit),
        ListKind::Difference => lone_keys(alloc, cursors(alloc, operands)?, limit),
        ListKind::WeakAnd => {
            let operands = weak_operands(alloc, operands)?;
            first_keys(alloc, WeakAndCursor::new(alloc, operands)?, limit)
        }
        ListKind::StrongOr => {
            let operands = strong_operands(alloc, operands)?;
            first_keys(alloc, StrongOrCursor::new(alloc, operands)?, limit)
        }
    }
}

/// The first keys of a cursor, as many as the limit says, or all.
pub(crate) fn first_keys<C: DocCursor + Drop>(
    alloc: Global,
    cursor: C,
    limit: Option<u32>,
) -> Result<DocList, AllocError>
    ensures { IfOk result (λ keys. keys ≡ up_to limit (C.remaining cursor)) }
{
    let mut cursor = cursor;
    let mut keys = DocList::new(alloc);
    while let Some(key) = cursor.peek() {
        if is_full(keys.len(), limit) {
            break;
        }
        keys.push(key)?;
        cursor.step();
    }
    Ok(keys)
}

/// Whether so many are as many as the limit says.
pub(crate) fn is_full(count: usize, limit: Option<u32>) -> bool
    ensures { result ≡ is_full count limit }
{
    match limit {
        Some(limit) => count >= limit as usize,
        None => false,
    }
}

// The operands without their marks.
fn cursors<'a>(alloc: Global, operands: Vec<Marked<'a>>) -> Result<Vec<Operand<'a>>, AllocError>
    ensures { IfOk result (λ cursors. map keys_in cursors.items ≡ operand_keys operands.entry.items) }
{
    let mut cursors = Vec::new(alloc);
    for (operand, _) in operands {
        cursors.push(operand)?;
    }
    Ok(cursors)
}

// The first keys of the first operand that no other has.
fn lone_keys(
    alloc: Global,
    operands: Vec<Operand<'_>>,
    limit: Option<u32>,
) -> Result<DocList, AllocError>
    ensures { IfOk result (λ keys. keys ≡ up_to limit (alone (map keys_in operands.entry.items))) }
{
    let mut others = VecDeque::from(operands);
    let Some(first) = others.pop_front() else {
        return Ok(DocList::new(alloc));
    };
    let others = OrCursor::new(Vec::from(others));
    let cursor = DifferenceCursor::new(Side::First(first), Side::Others(others));
    first_keys(alloc, cursor, limit)
}

// The operands of a weak walk. One without a mark is one that no hit may lack.
fn weak_operands<'a>(
    alloc: Global,
    operands: Vec<Marked<'a>>,
) -> Result<Vec<(Operand<'a>, WeakMark)>, AllocError>
    requires { All IsShare (marks_in operands.items) }
    ensures { IfOk result (λ weak. (map (λ o. keys_in o.0) weak.items ≡ operand_keys operands.entry.items)
        × (map (λ o. weak_quota o.1) weak.items ≡ map (λ mark. bare (quota_of mark)) (marks_in operands.entry.items))) }
{
    let mut weak = Vec::new(alloc);
    for (operand, mark) in operands {
        weak.push((operand, weak_mark(mark)))?;
    }
    Ok(weak)
}

fn weak_mark(mark: Mark) -> WeakMark
    requires { IsShare mark }
    ensures { weak_quota result ≡ bare (quota_of mark) }
{
    match mark {
        Mark::Plain => WeakMark::Hits(0),
        Mark::Hits(hits) => WeakMark::Hits(hits),
        Mark::Weight(n, d) => WeakMark::Weight(Fraction { n, d }),
    }
}

// The operands of a strong walk.
fn strong_operands<'a>(
    alloc: Global,
    operands: Vec<Marked<'a>>,
) -> Result<Vec<(Operand<'a>, Option<Fraction>)>, AllocError>
    requires { All IsShare (marks_in operands.items) }
    ensures { IfOk result (λ strong. (map (λ o. keys_in o.0) strong.items ≡ operand_keys operands.entry.items)
        × (map (λ o. strong_quota o.1) strong.items ≡ map (λ mark. weight_alone (quota_of mark)) (marks_in operands.entry.items))) }
{
    let mut strong = Vec::new(alloc);
    for (operand, mark) in operands {
        strong.push((operand, share(mark)))?;
    }
    Ok(strong)
}

fn share(mark: Mark) -> Option<Fraction>
    requires { IsShare mark }
    ensures { strong_quota result ≡ weight_alone (quota_of mark) }
{
    match mark {
        Mark::Weight(n, d) => Some(Fraction { n, d }),
        Mark::Plain | Mark::Hits(_) => None,
    }
}
