//! What steps say of an index.
ghost use Rattle.std.specs.Prelude.{◌≡◌, IfOk};
ghost use Rattle.shard_index.specs.Versions.{layers_of};

use forward_data::ForwardItem;
use layer_stack::TermKey;
use shard_index::{ShardIndex, Version};
use std::alloc::{AllocError, Global};
use uni_base::{
    DocCursor, DocKey, EdgeRef, EntityId, Fields, Key, Rank, Word, cut_at, read_between, read_id,
};

// The text before the first of a byte, and what is after it.
pub(super) fn part(text: &[u8], byte: u8) -> (&[u8], &[u8]) {
    cut_at(text, byte).unwrap_or((text, b""))
}

fn number(text: &[u8]) -> Option<u16> {
    Some(read_between(text, 0, 65_535)? as u16)
}

// An id, or a word that spells none.
pub(super) fn key(text: &[u8]) -> Option<Key> {
    match read_id(text) {
        Some(id) => Some(Key::Id(id)),
        None => Some(Key::Word(Word::read(text)?)),
    }
}

// A type and a key.
pub(super) fn term(text: &[u8]) -> Option<TermKey> {
    let mut fields = Fields::of(text);
    Some(TermKey {
        type_no: number(fields.next()?)?,
        key: key(fields.next()?)?,
    })
}

// A rank and an id.
pub(super) fn doc_key(text: &[u8]) -> Option<DocKey> {
    let mut fields = Fields::of(text);
    Some(DocKey {
        rank: Rank(number(fields.next()?)? as u32),
        id: read_id(fields.next()?)?,
    })
}

// A type, a key and a target.
fn edge(text: &[u8]) -> Option<EdgeRef> {
    let mut fields = Fields::of(text);
    Some(EdgeRef {
        type_no: number(fields.next()?)?,
        key: key(fields.next()?)?,
        target: read_id(fields.next()?)?,
    })
}

// Whether an entity has a rank, or none.
fn has_rank(index: &ShardIndex, of: &[u8], rank: &[u8]) -> Option<bool> {
    let found = index.rank_of(read_id(of)?);
    Some(match found {
        Some(found) => read_between(rank, 0, 65_535) == Some(found.0 as u64),
        None => rank.is_empty(),
    })
}

// Whether a term leads to some entities in order, which commas part.
fn has_postings(alloc: Global, index: &ShardIndex, of: &[u8], ids: &[u8]) -> Option<bool> {
    let mut cursor = index.term_cursor(alloc, &term(of)?).ok()?;
    let mut rest = ids;
    for _ in 0..10 {
        let Some(found) = cursor.peek() else {
            return Some(rest.is_empty());
        };
        let (id, others) = part(rest, b',');
        if read_id(id) != Some(found.id) {
            return Some(false);
        }
        rest = others;
        cursor.step();
    }
    None
}

// Whether edges lead to some entities in order, which commas part.
fn are_targets(items: &[ForwardItem], ids: &[u8]) -> bool {
    let mut rest = ids;
    for item in items {
        let (id, others) = part(rest, b',');
        if read_id(id) != Some(item.target) {
            return false;
        }
        rest = others;
    }
    rest.is_empty()
}

// Whether a record leads to some entities in order.
fn has_record(index: &ShardIndex, of: &[u8], ids: &[u8]) -> Option<bool> {
    let (type_no, id) = cut_at(of, b' ')?;
    let id: EntityId = read_id(id)?;
    Some(are_targets(index.forward(number(type_no)?, id), ids))
}

// Whether a layer has so many entries.
fn has_entries(index: &ShardIndex, layer: &[u8], count: &[u8]) -> Option<bool> {
    let layer = number(layer)? as usize;
    if layer >= index.layers() {
        return None;
    }
    Some(number(count)? as u64 == index.layer_entries(layer))
}

// Whether the oldest layers leave so many entities, and there are as many of postings and records.
fn has_merged(alloc: Global, index: &ShardIndex, count: &[u8], entities: &[u8]) -> Option<bool> {
    let count = number(count)? as usize;
    if count > index.layers() {
        return None;
    }
    let merged = index.merge_entities(alloc, count).ok()?;
    let as_many = index.postings().layers() == index.forward_stack().layers();
    Some(as_many && number(entities)? as u64 == merged.entries())
}

// Whether an index has what a step says: `rank ID=RANK`, `term TYPE KEY=IDS`, `record TYPE ID=IDS`,
// `entries LAYER=COUNT`, `merged LAYERS=COUNT` or `edge TYPE KEY TARGET=yes`.
pub(super) fn is_met(alloc: Global, index: &ShardIndex, step: &[u8]) -> Option<bool> {
    let (of, wanted) = cut_at(step, b'=')?;
    let (kind, of) = cut_at(of, b' ')?;
    if kind == b"rank".as_slice() {
        has_rank(index, of, wanted)
    } else if kind == b"term".as_slice() {
        has_postings(alloc, index, of, wanted)
    } else if kind == b"record".as_slice() {
        has_record(index, of, wanted)
    } else if kind == b"entries".as_slice() {
        has_entries(index, of, wanted)
    } else if kind == b"merged".as_slice() {
        has_merged(alloc, index, of, wanted)
    } else {
        Some(index.has_edge(&edge(of)?) == (wanted == b"yes".as_slice()))
    }
}

// Equal stacks, with room.
pub(super) fn copies(alloc: Global, version: &Version) -> Result<Vec<ShardIndex>, AllocError>
    ensures { IfOk result (λ stacks. layers_of stacks.items ≡ version.now.stacks) }
{
    let mut stacks = Vec::new(alloc);
    for stack in version.stacks() {
        stacks.push(stack.roomy(1)?)?;
    }
    Ok(stacks)
}
