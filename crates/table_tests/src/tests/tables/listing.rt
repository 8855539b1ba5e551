//! What a table lists, beside what a step says.
use super::changed::{has_edge_changes, has_entity_changes, has_everyone};
use super::reading::{id, number, part, vertical};
use uni_base::{Audience, DocKey, EdgeRef, Fields, Held, Key, cut_at, read_between, read_id};
use uni_table::Table;

// Whether a key is that of a text: an id, or a word that spells none.
pub(super) fn is_key(key: &Key, text: &[u8]) -> bool {
    match key {
        Key::Id(id) => read_id(text) == Some(*id),
        Key::Word(word) => read_id(text).is_none() && word.bytes() == text,
    }
}

// Whether an edge has a type's number, a key and a target.
pub(super) fn is_edge(edge: &EdgeRef, text: &[u8]) -> bool {
    let mut fields = Fields::of(text);
    number(&mut fields) == Some(edge.type_no as u64)
        && fields.next().is_some_and(|key| is_key(&edge.key, key))
        && id(&mut fields) == Some(edge.target)
        && fields.next().is_none()
}

// Whether edges are some in order, which commas part.
fn are_edges(edges: &[EdgeRef], texts: &[u8]) -> bool {
    let mut rest = texts;
    for edge in edges {
        let (text, others) = part(rest, b',');
        if !is_edge(edge, text) {
            return false;
        }
        rest = others;
    }
    rest.is_empty()
}

fn are_held(held: &[Held], texts: &[u8]) -> bool {
    let mut rest = texts;
    for held in held {
        let (text, others) = part(rest, b',');
        if !is_edge(&held.edge, text) {
            return false;
        }
        rest = others;
    }
    rest.is_empty()
}

// Whether entities are some in order, which commas part.
fn are_ids(docs: &[DocKey], texts: &[u8]) -> bool {
    let mut rest = texts;
    for doc in docs {
        let (text, others) = part(rest, b',');
        if read_id(text) != Some(doc.id) {
            return false;
        }
        rest = others;
    }
    rest.is_empty()
}

// Whether there are so many entities and edges.
fn has_counts(table: &Table, texts: &[u8]) -> bool {
    let mut fields = Fields::of(texts);
    number(&mut fields) == Some(table.entities()) && number(&mut fields) == Some(table.edges())
}

// Whether the friends of a user are some edges.
fn has_friends(table: &Table, user: &[u8], texts: &[u8]) -> Option<bool> {
    if table.schema().types() == 0 {
        return None;
    }
    let held = table.reached(0, &Key::Id(read_id(user)?)).ok()?;
    Some(are_held(held.as_slice(), texts))
}

// Whether a shard of a vertical has some entities.
fn has_ranked(table: &Table, shard: &[u8], texts: &[u8]) -> Option<bool> {
    let (of, shard) = cut_at(shard, b' ')?;
    let vertical = vertical(table.schema(), of)?;
    let docs = table
        .ranked(vertical, read_between(shard, 0, 65_535)? as u32)
        .ok()?;
    Some(are_ids(docs.as_slice(), texts))
}

// Whether a shard of a vertical keeps some edges.
fn has_kept(table: &Table, shard: &[u8], texts: &[u8]) -> Option<bool> {
    let (of, shard) = cut_at(shard, b' ')?;
    let vertical = vertical(table.schema(), of)?;
    let held = table
        .shard_edges(vertical, read_between(shard, 0, 65_535)? as u32)
        .ok()?;
    Some(are_held(held.as_slice(), texts))
}

// Whether some edges leave or reach an entity.
fn has_touching(table: &Table, entity: &[u8], texts: &[u8]) -> Option<bool> {
    let held = table.touching(read_id(entity)?).ok()?;
    Some(are_held(held.as_slice(), texts))
}

// Whether some edges end at a publish or before it.
fn has_ending(table: &Table, publish: &[u8], texts: &[u8]) -> Option<bool> {
    let edges = table.ending(read_between(publish, 0, u64::MAX)?).ok()?;
    Some(are_edges(edges.as_slice(), texts))
}

// Whether an edge between entities is for an audience.
fn has_audience(table: &Table, edge: &[u8], text: &[u8]) -> Option<bool> {
    let mut fields = Fields::of(edge);
    let edge = EdgeRef {
        type_no: read_between(fields.next()?, 0, 65_535)? as u16,
        key: Key::Id(id(&mut fields)?),
        target: id(&mut fields)?,
    };
    Some(is_audience(&table.audience(&edge)?, text))
}

// Whether an audience is everybody, the owners alone, or a circle: `TYPE:KEY`.
pub(super) fn is_audience(audience: &Audience, text: &[u8]) -> bool {
    match audience {
        Audience::Public => text == b"public".as_slice(),
        Audience::Only => text == b"only".as_slice(),
        Audience::Circle(type_no, key) => is_circle(*type_no, key, text),
    }
}

fn is_circle(type_no: u16, key: &Key, text: &[u8]) -> bool {
    match cut_at(text, b':') {
        Some((circle, at)) => {
            read_between(circle, 0, 65_535) == Some(type_no as u64) && is_key(key, at)
        }
        None => false,
    }
}

// Whether the table has what is listed: `counts`, `friends USER`, `ranked VERTICAL SHARD`,
// `kept VERTICAL SHARD`, `touching ID`, `ending PUBLISH`, `audience EDGE`, `everyone`, `entities changed`
// or `edges changed`.
pub(super) fn lists(table: &Table, of: &[u8], texts: &[u8]) -> Option<bool> {
    let (kind, of) = part(of, b' ');
    if kind == b"counts".as_slice() {
        Some(has_counts(table, texts))
    } else if kind == b"friends".as_slice() {
        has_friends(table, of, texts)
    } else if kind == b"ranked".as_slice() {
        has_ranked(table, of, texts)
    } else if kind == b"kept".as_slice() {
        has_kept(table, of, texts)
    } else if kind == b"touching".as_slice() {
        has_touching(table, of, texts)
    } else if kind == b"ending".as_slice() {
        has_ending(table, of, texts)
    } else if kind == b"audience".as_slice() {
        has_audience(table, of, texts)
    } else if kind == b"everyone".as_slice() {
        has_everyone(table, texts)
    } else if kind == b"entities".as_slice() {
        has_entity_changes(table, texts)
    } else if kind == b"edges".as_slice() {
        has_edge_changes(table, texts)
    } else {
        None
    }
}
