//! Whether versions read the same.
use layer_stack::TermKey;
use shard_index::{ShardIndex, Version};
use std::alloc::Global;
use uni_base::{DocCursor, EntityId, Key, Word, read_id};

// The keys in use: all ids, and words.
const KEYS: &[u8] = b"1 2 3 4 5 6 7 8 101 102 rome oslo";

// The types in use.
const TYPES: u16 = 5;

// More postings than a term has.
const MOST: u64 = 16;

// Whether a term has the same postings.
fn is_term_alike(
    alloc: Global,
    one: &ShardIndex,
    other: &ShardIndex,
    term: &TermKey,
) -> Option<bool> {
    let mut cursor = one.term_cursor(alloc, term).ok()?;
    let mut beside = other.term_cursor(alloc, term).ok()?;
    for _ in 0..MOST {
        let posting = cursor.posting();
        if posting != beside.posting() {
            return Some(false);
        }
        if posting.is_none() {
            return Some(true);
        }
        cursor.step();
        beside.step();
    }
    None
}

// Whether an entity has the same rank, and the same record of a type.
fn is_entity_alike(one: &ShardIndex, other: &ShardIndex, type_no: u16, id: EntityId) -> bool {
    one.rank_of(id) == other.rank_of(id) && one.forward(type_no, id) == other.forward(type_no, id)
}

// Whether all is the same that goes by a type and an id, or a word that spells none.
fn is_key_alike(
    alloc: Global,
    one: &ShardIndex,
    other: &ShardIndex,
    type_no: u16,
    text: &[u8],
) -> Option<bool> {
    let Some(id) = read_id(text) else {
        let key = Key::Word(Word::read(text)?);
        return is_term_alike(alloc, one, other, &TermKey { type_no, key });
    };
    let key = Key::Id(id);
    Some(
        is_entity_alike(one, other, type_no, id)
            && is_term_alike(alloc, one, other, &TermKey { type_no, key })?,
    )
}

// Whether stacks have the same of a type.
fn is_type_alike(
    alloc: Global,
    one: &ShardIndex,
    other: &ShardIndex,
    type_no: u16,
) -> Option<bool> {
    for text in KEYS.split(|byte| *byte == b' ') {
        if !is_key_alike(alloc, one, other, type_no, text)? {
            return Some(false);
        }
    }
    Some(true)
}

// Whether stacks have the same ranks, terms and records.
pub(super) fn is_stack_alike(alloc: Global, one: &ShardIndex, other: &ShardIndex) -> Option<bool> {
    for type_no in 0..TYPES {
        if !is_type_alike(alloc, one, other, type_no)? {
            return Some(false);
        }
    }
    Some(true)
}

// Whether two versions have the same number, and each stack reads the same.
pub(super) fn are_alike(alloc: Global, one: &Version, other: &Version) -> Option<bool> {
    for (number, stack) in one.stacks().iter().enumerate() {
        if !is_stack_alike(alloc, stack, other.stacks().get(number)?)? {
            return Some(false);
        }
    }
    Some(one.publishes() == other.publishes() && one.stacks().len() == other.stacks().len())
}
