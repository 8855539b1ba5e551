ghost use Rattle.std.specs.Prelude.{◌≡◌, ◌∷◌, ◌++◌, IfOk, MatchResult, None, Ok, OnOk, OnErr, []};
ghost use Rattle.query_tree.specs.Tree.{joined, joined_of, listed, listed_of, tree_of};
ghost use Rattle.query_check.specs.Verticals.{AreStated, IsOf};
ghost use Rattle.query_check.specs.Plan.{all_inner, inner_of, operands_seen, plans_of, seen_node, stated_of};
ghost use Rattle.query_check.specs.Typing.{IsFault, is_other, join_store, operands_typed, starts_at, typed};

use crate::checked::{Checked, CheckedNode, CheckedOperand};
use crate::fault::{APPLY_SOURCE, NESTED_JOINS, VERTICAL_MISMATCH};
use crate::leaf::check_term;
use crate::lookup::find_type;
use query_tree::{JoinKind, JoinNode, ListKind, ListNode, Mark, Query, QueryRefusal, TermKind};
use std::alloc::Global;
use uni_base::Limits;
use uni_schema::{Origin, Schema, Store};

/// Types a query under a schema: its first fault, or what it asks for. A query has at most as many
/// joins around one another as the limits say.
pub fn check(
    alloc: Global,
    schema: &Schema,
    limits: &Limits,
    query: &Query,
) -> Result<Checked, QueryRefusal>
    // The query is what it is under the schema, or the fault is its first one.
    ensures typed { MatchResult result
        (λ checked. typed schema.now limits.now.joins 0 (tree_of query.now) ≡ Ok (stated_of checked))
        (IsFault (typed schema.now limits.now.joins 0 (tree_of query.now))) }

    // It is declared, and of the vertical that it says.
    ensures declared { IfOk result
        (λ checked. IsOf schema.now (stated_of checked).plan (stated_of checked).vertical) }

    // So is the inner query of each join in it.
    ensures inner { IfOk result (λ checked. AreStated schema.now (inner_of checked)) }
{
    check_node(alloc, schema, limits.joins, 0, query)
}

// Types a node that lies inside so many joins.
#[cycle(check)]
fn check_node(
    alloc: Global,
    schema: &Schema,
    joins: u64,
    around: u64,
    query: &Query,
) -> Result<Checked, QueryRefusal>
    ensures typed { MatchResult result
        (λ checked. typed schema.now joins around (tree_of query.now) ≡ Ok (stated_of checked))
        (IsFault (typed schema.now joins around (tree_of query.now))) }
    ensures inner { IfOk result (λ checked. AreStated schema.now (inner_of checked)) }
{
    match query {
        Query::Term(term) => check_term(schema, TermKind::Whole, term),
        Query::Prefix(term) => check_term(schema, TermKind::Prefix, term),
        Query::And(list) => check_list(alloc, schema, joins, around, ListKind::And, list),
        Query::Or(list) => check_list(alloc, schema, joins, around, ListKind::Or, list),
        Query::Difference(list) => {
            check_list(alloc, schema, joins, around, ListKind::Difference, list)
        }
        Query::WeakAnd(list) => check_list(alloc, schema, joins, around, ListKind::WeakAnd, list),
        Query::StrongOr(list) => check_list(alloc, schema, joins, around, ListKind::StrongOr, list),
        Query::Apply(join) => check_join(alloc, schema, joins, around, JoinKind::Apply, join),
        Query::Extract(join) => check_join(alloc, schema, joins, around, JoinKind::Extract, join),
    }
}

// Types a list of operands.
#[cycle(check)]
fn check_list(
    alloc: Global,
    schema: &Schema,
    joins: u64,
    around: u64,
    kind: ListKind,
    list: &ListNode,
) -> Result<Checked, QueryRefusal>
    ensures typed { MatchResult result
        (λ checked. typed schema.now joins around (listed kind (listed_of list.now)) ≡ Ok (stated_of checked))
        (IsFault (typed schema.now joins around (listed kind (listed_of list.now)))) }
    ensures inner { IfOk result (λ checked. AreStated schema.now (inner_of checked)) }
{
    let (vertical, operands) = check_operands(alloc, schema, joins, around, list)?;
    match vertical {
        Some(vertical) => Ok(Checked {
            vertical,
            node: CheckedNode::list(kind, operands),
        }),
        None => Err(QueryRefusal::Fault {
            code: VERTICAL_MISMATCH,
            column: list.column,
        }),
    }
}

// Types operands from the left, each of the vertical of those before it; with their vertical, if there
// is one of them.
#[cycle(check)]
fn check_operands(
    alloc: Global,
    schema: &Schema,
    joins: u64,
    around: u64,
    list: &ListNode,
) -> Result<(Option<u16>, Vec<CheckedOperand>), QueryRefusal>
    ensures typed { MatchResult result
        (λ found. operands_typed schema.now joins around None (listed_of list.now).operands
        ≡ Ok (record { plans = plans_of (operands_seen found.1.items); vertical = found.0 }))
        (IsFault (operands_typed schema.now joins around None (listed_of list.now).operands)) }
    ensures inner { IfOk result (λ found. AreStated schema.now (all_inner (operands_seen found.1.items))) }
{
    let mut vertical = None;
    let mut operands = Vec::new(alloc);
    for operand in &list.operands {
        let checked = check_node(alloc, schema, joins, around, &operand.node)?;
        if is_other(vertical, checked.vertical) {
            return Err(QueryRefusal::Fault {
                code: VERTICAL_MISMATCH,
                column: operand.node.column(),
            });
        }
        vertical = Some(checked.vertical);
        push_operand(&mut operands, checked.node, operand.mark)?;
    }
    Ok((vertical, operands))
}

// Types a join: its type first, then its inner query, then whether the type starts there.
#[cycle(check)]
fn check_join(
    alloc: Global,
    schema: &Schema,
    joins: u64,
    around: u64,
    kind: JoinKind,
    join: &JoinNode,
) -> Result<Checked, QueryRefusal>
    ensures typed { MatchResult result
        (λ checked. typed schema.now joins around (joined kind (joined_of join.now)) ≡ Ok (stated_of checked))
        (IsFault (typed schema.now joins around (joined kind (joined_of join.now)))) }
    ensures inner { IfOk result (λ checked. AreStated schema.now (inner_of checked)) }
{
    if around >= joins {
        return Err(QueryRefusal::Fault {
            code: NESTED_JOINS,
            column: join.column,
        });
    }
    let found = find_type(schema, join_store(kind), join.type_column, &join.type_name)?;
    let origin = found.def.origin;
    let vertical = found.def.target;
    let inner = check_node(alloc, schema, joins, around + 1, &join.node)?;
    if !starts_at(origin, inner.vertical) {
        return Err(QueryRefusal::Fault {
            code: APPLY_SOURCE,
            column: join.type_column,
        });
    }
    let Ok(inner) = Box::new(alloc, inner) else {
        return Err(QueryRefusal::Memory);
    };
    Ok(Checked {
        vertical,
        node: CheckedNode::join(kind, found.number, join.limit, inner),
    })
}

// Adds an operand at the end.
fn push_operand(
    operands: &mut Vec<CheckedOperand>,
    node: CheckedNode,
    mark: Mark,
) -> Result<(), QueryRefusal>
    ensures { MatchResult result
        (λ done. operands_seen operands.new.items
        ≡ operands_seen operands.old.items ++ record { node = seen_node node; mark = mark } ∷ [])
        (λ refusal. refusal ≡ QueryRefusal.Memory) }
{
    match operands.push(CheckedOperand { node, mark }) {
        Ok(()) => Ok(()),
        Err(_) => Err(QueryRefusal::Memory),
    }
}

// Whether an operand is of another vertical than those before it.
fn is_other(before: Option<u16>, vertical: u16) -> bool
    ensures { result ≡ is_other before vertical }
{
    match before {
        Some(before) => before != vertical,
        None => false,
    }
}

// How the edges are kept that a join follows.
fn join_store(kind: JoinKind) -> Store
    ensures { result ≡ join_store kind }
{
    match kind {
        JoinKind::Apply => Store::Index,
        JoinKind::Extract => Store::Forward,
    }
}

// Whether edges start at the vertical.
fn starts_at(origin: Origin, vertical: u16) -> bool
    ensures { result ≡ starts_at origin vertical }
{
    match origin {
        Origin::Vertical(source) => source == vertical,
        Origin::Words => false,
    }
}
