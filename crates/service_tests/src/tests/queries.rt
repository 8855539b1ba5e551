//! Queries at random, over all operators.
use super::draws::{Draws, fill, filled};
use super::text;
use std::alloc::Global;
use std::test::Fail;
use uni_base::{Rows, Text};

const TOWNS: [&[u8]; 5] = [b"rome", b"rome", b"roma", b"roma", b"oslo"];

const STEMS: [&[u8]; 5] = [b"r*", b"rom*", b"rome*", b"os*", b"rom*"];

// A query of one term, for users.
fn leaf(alloc: Global, draws: &mut Draws, format: u64) -> Result<Text, Fail> {
    match draws.below(8) {
        0 => filled(alloc, b"(term friend:%)", &[draws.up_to(6)]),
        1 => filled(alloc, b"blocked:%", &[draws.up_to(4)]),
        2 | 3 => text(alloc, &[b"lives:", draws.part_of(&TOWNS)]),
        4 if format == 2 => text(alloc, &[b"lives:", draws.part_of(&STEMS)]),
        5 if format == 2 => text(alloc, &[b"(term lives:", draws.part_of(&STEMS), b")"]),
        _ => filled(alloc, b"friend:%", &[draws.up_to(5)]),
    }
}

// One of the queries so far.
fn chosen<'a>(draws: &mut Draws, queries: &'a [Text]) -> &'a [u8] {
    match queries.get(draws.place(queries.len())) {
        Some(query) => query.as_slice(),
        None => b"friend:1",
    }
}

// A query with an option, which an operand may have.
fn with_option(alloc: Global, query: &[u8], option: &[u8]) -> Result<Text, Fail> {
    match query.strip_suffix(b")") {
        Some(open) => text(alloc, &[open, option, b")"]),
        None => text(alloc, &[b"(term ", query, option, b")"]),
    }
}

fn hits_option(alloc: Global, draws: &mut Draws) -> Result<Text, Fail> {
    filled(alloc, b" :optional-hits %", &[draws.below(4)])
}

fn weight_option(alloc: Global, draws: &mut Draws) -> Result<Text, Fail> {
    let most = draws.up_to(5);
    filled(alloc, b" :optional-weight %/%", &[draws.up_to(most), most])
}

// An option for an operand of an operator, or none.
fn option(alloc: Global, draws: &mut Draws, format: u64, operator: &[u8]) -> Result<Text, Fail> {
    let weak = operator == b"weak-and".as_slice();
    let strong = operator == b"strong-or".as_slice();
    match draws.below(4) {
        0 | 1 if weak => hits_option(alloc, draws),
        2 if weak && format == 2 => weight_option(alloc, draws),
        0 | 1 if strong => weight_option(alloc, draws),
        _ => Ok(Rows::new(alloc)),
    }
}

const OPERATORS: [&[u8]; 4] = [b"and", b"or", b"weak-and", b"strong-or"];

// An operator over one to three of the queries so far.
fn listed(alloc: Global, draws: &mut Draws, format: u64, queries: &[Text]) -> Result<Text, Fail> {
    let operator = draws.part_of(&OPERATORS);
    let mut query = text(alloc, &[b"(", operator])?;
    for _ in 0..draws.up_to(3) {
        let operand = chosen(draws, queries);
        let option = option(alloc, draws, format, operator)?;
        query.push(b' ')?;
        if option.is_empty() {
            query.extend_from_slice(operand)?;
        } else {
            let marked = with_option(alloc, operand, option.as_slice())?;
            query.extend_from_slice(marked.as_slice())?;
        }
    }
    query.push(b')')?;
    Ok(query)
}

fn without(alloc: Global, draws: &mut Draws, queries: &[Text]) -> Result<Text, Fail> {
    let first = chosen(draws, queries);
    let second = chosen(draws, queries);
    text(alloc, &[b"(difference ", first, b" ", second, b")"])
}

// A join through a type.
fn joined(
    alloc: Global,
    draws: &mut Draws,
    through: &[u8],
    queries: &[Text],
) -> Result<Text, Fail> {
    let mut query = text(alloc, &[b"(", through, b" ", chosen(draws, queries)])?;
    if draws.one_in(2) {
        fill(alloc, &mut query, b" :limit %", &[draws.up_to(4)])?;
    }
    query.push(b')')?;
    Ok(query)
}

// One more query for users.
fn for_users(
    alloc: Global,
    draws: &mut Draws,
    format: u64,
    users: &[Text],
    photos: &[Text],
) -> Result<Text, Fail> {
    match draws.below(8) {
        0 => leaf(alloc, draws, format),
        1 => without(alloc, draws, users),
        2 => joined(alloc, draws, b"apply friend:", users),
        3 => joined(alloc, draws, b"extract shows:", photos),
        _ => listed(alloc, draws, format, users),
    }
}

// One more query for photos.
fn for_photos(
    alloc: Global,
    draws: &mut Draws,
    format: u64,
    users: &[Text],
    photos: &[Text],
) -> Result<Text, Fail> {
    match draws.below(6) {
        0 => filled(alloc, b"tagged:%", &[draws.up_to(5)]),
        1 => without(alloc, draws, photos),
        2 => listed(alloc, draws, format, photos),
        _ => joined(alloc, draws, b"apply tagged:", users),
    }
}

// A query, which a few more of the queries so far are built from.
pub(super) fn query(alloc: Global, draws: &mut Draws, format: u64) -> Result<Text, Fail> {
    let mut users = Vec::new(alloc);
    let mut photos = Vec::new(alloc);
    users.push(leaf(alloc, draws, format)?)?;
    users.push(leaf(alloc, draws, format)?)?;
    photos.push(filled(alloc, b"tagged:%", &[draws.up_to(5)])?)?;
    for _ in 0..draws.below(5) {
        if draws.one_in(3) {
            let next = for_photos(alloc, draws, format, users.as_slice(), photos.as_slice())?;
            photos.push(next)?;
        } else {
            let next = for_users(alloc, draws, format, users.as_slice(), photos.as_slice())?;
            users.push(next)?;
        }
    }
    let last = if draws.one_in(4) {
        photos.pop()
    } else {
        users.pop()
    };
    Ok(last.ok_or("no query")?)
}
