//! Where edges start, each with what its edges lead to, beside a text.
use super::listing::is_key;
use super::reading::{number, part};
use std::alloc::{AllocError, Global};
use uni_base::{EdgeRef, Fields, read_id};
use uni_table::{Source, Table, Target, TargetList};

// Whether a type and a key are `TYPE KEY`.
fn is_source(source: &Source, text: &[u8]) -> bool {
    let mut fields = Fields::of(text);
    number(&mut fields) == Some(source.type_no as u64)
        && fields.next().is_some_and(|key| is_key(&source.key, key))
        && fields.next().is_none()
}

// Whether the table has the edge of a type and key to a target, with its audience.
fn stands(table: &Table, source: &Source, target: &Target) -> bool {
    let key = source.key;
    let edge = EdgeRef {
        type_no: source.type_no,
        key,
        target: target.doc.id,
    };
    table.audience(&edge) == Some(target.audience)
}

// Whether targets of a type and key are some in order, which blanks part.
fn are_targets(table: &Table, source: &Source, targets: &[Target], texts: &[u8]) -> bool {
    let mut rest = texts;
    for target in targets {
        let (text, others) = part(rest, b' ');
        if read_id(text) != Some(target.doc.id) || !stands(table, source, target) {
            return false;
        }
        rest = others;
    }
    rest.is_empty()
}

// Whether the types and keys at which edges start, or started, are some in order, which commas part: each is
// `TYPE KEY:TARGETS`.
pub(super) fn has_sources(alloc: Global, table: &Table, texts: &[u8]) -> Result<bool, AllocError> {
    let sources = table.edge_sources()?;
    let mut list = TargetList::new(alloc);
    let mut rest = texts;
    for at in 0..sources.len() {
        sources.read(at, &mut list)?;
        let source = sources.source(at);
        let (text, others) = part(rest, b',');
        let (start, targets) = part(text, b':');
        if !is_source(&source, start) || !are_targets(table, &source, list.as_slice(), targets) {
            return Ok(false);
        }
        rest = others;
    }
    Ok(rest.is_empty())
}
