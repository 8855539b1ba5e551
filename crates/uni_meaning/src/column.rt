//! How entities stand under the operands of a list.
ghost use Rattle.std.specs.Prelude.{◌≡◌, ◌<◌, All, IfOk, length, map};
ghost use Rattle.std.specs.List.{list_all, list_any, range_with_len};
ghost use Rattle.uni_meaning.specs.Standings.{all_of, first_of, first_only, hit_by, is_found, is_set, row_at, set_keeps, under_set};

use crate::standing::Standing;
use query_tree::{ListKind, Mark};
use std::alloc::{AllocError, Global};

/// An operand of a list: its mark, and how each entity stands under it.
#[derive(Drop)]
pub(crate) struct Column {
    pub mark: Mark,
    pub standings: Vec<Standing>,
}

/// Whether an operator keeps no quotas.
pub(crate) fn is_set(kind: ListKind) -> bool
    ensures { result ≡ is_set kind }
{
    match kind {
        ListKind::And | ListKind::Or | ListKind::Difference => true,
        ListKind::WeakAnd | ListKind::StrongOr => false,
    }
}

/// How so many entities stand under a set operator, by how they stand under its operands.
pub(crate) fn under_set(
    alloc: Global,
    kind: ListKind,
    columns: &[Column],
    count: usize,
) -> Result<Vec<Standing>, AllocError>
    requires { All (λ c. length c.standings.items ≡ count) columns.now }
    ensures { IfOk result (λ standings. standings.items ≡ map (λ i. under_set kind (row_at columns.now i)) (range_with_len 0 count)) }
{
    let mut standings = Vec::new(alloc);
    for i in 0..count {
        let standing = if keeps(kind, columns, i) {
            hit_by(alloc, kind, columns, i)?
        } else {
            Standing::Missed
        };
        standings.push(standing)?;
    }
    Ok(standings)
}

// Whether the entity at a place is a hit of a set operator.
fn keeps(kind: ListKind, columns: &[Column], i: usize) -> bool
    requires { All (λ c. i < length c.standings.items) columns.now }
    ensures { result ≡ set_keeps kind (row_at columns.now i) }
{
    match kind {
        ListKind::And => all_found(columns, i),
        ListKind::Or => any_found(columns, i),
        ListKind::Difference => first_only(columns, i),
        ListKind::WeakAnd | ListKind::StrongOr => false,
    }
}

// Whether the first operand alone has the entity at a place.
fn first_only(columns: &[Column], i: usize) -> bool
    requires { All (λ c. i < length c.standings.items) columns.now }
    ensures { result ≡ first_only (row_at columns.now i) }
{
    match columns.first() {
        Some(first) => first.standings[i].is_found() && !any_found(&columns[1..], i),
        None => false,
    }
}

fn all_found(columns: &[Column], i: usize) -> bool
    requires { All (λ c. i < length c.standings.items) columns.now }
    ensures { result ≡ list_all is_found (row_at columns.now i) }
{
    for column in columns {
        if !column.standings[i].is_found() {
            return false;
        }
    }
    true
}

/// Whether some operand has the entity at a place.
pub(crate) fn any_found(columns: &[Column], i: usize) -> bool
    requires { All (λ c. i < length c.standings.items) columns.now }
    ensures { result ≡ list_any is_found (row_at columns.now i) }
{
    for column in columns {
        if column.standings[i].is_found() {
            return true;
        }
    }
    false
}

/// How a hit of an operator stands, by how it stands under the operands.
pub(crate) fn hit_by(
    alloc: Global,
    kind: ListKind,
    columns: &[Column],
    i: usize,
) -> Result<Standing, AllocError>
    requires { All (λ c. i < length c.standings.items) columns.now }
    ensures { IfOk result (λ standing. standing ≡ hit_by kind (row_at columns.now i)) }
{
    match kind {
        ListKind::And | ListKind::WeakAnd => all_of(alloc, columns, i),
        ListKind::Or | ListKind::StrongOr => first_of(alloc, columns, i),
        ListKind::Difference => match columns.first() {
            Some(first) => first.standings[i].copy(alloc),
            None => Ok(Standing::Missed),
        },
    }
}

fn all_of(alloc: Global, columns: &[Column], i: usize) -> Result<Standing, AllocError>
    requires { All (λ c. i < length c.standings.items) columns.now }
    ensures { IfOk result (λ standing. standing ≡ all_of (row_at columns.now i)) }
{
    let mut standing = Standing::Missed;
    for column in columns {
        standing = standing.and(alloc, &column.standings[i])?;
    }
    Ok(standing)
}

fn first_of(alloc: Global, columns: &[Column], i: usize) -> Result<Standing, AllocError>
    requires { All (λ c. i < length c.standings.items) columns.now }
    ensures { IfOk result (λ standing. standing ≡ first_of (row_at columns.now i)) }
{
    let mut standing = Standing::Missed;
    for column in columns {
        standing = standing.or(alloc, &column.standings[i])?;
    }
    Ok(standing)
}
