//! Stacks of layers, read and merged like a table.
ghost use Rattle.std.specs.Prelude.{◌≡◌, ◌<◌};

use super::Noise;
use layer_stack::{Delta, Layer, Stack, TermKey};
use posting_lists::Posting;
use std::alloc::Global;
use std::marker::Brand;
use std::sync::Arc;
use std::sync::ledger::{Blank, Ledger};
use std::test::Fail;
use uni_base::{
    Audience, DocCursor, DocKey, EntityId, Key, Rank, Steps, Word, cut_at, read_between,
};

/// How many places there are: two terms with eight keys each, one of an entity and one of a word.
const PLACES: usize = 16;

// What a plain fold over all changes makes: the audience at each place, where there is a posting.
type Folded = [Option<Audience>; PLACES];

fn word_term(type_no: u16, text: &[u8]) -> Option<TermKey> {
    Some(TermKey {
        type_no,
        key: Key::Word(Word::read(text)?),
    })
}

// The term of a number: 0 is a word's.
fn term(n: u64) -> Option<TermKey> {
    if n == 0 {
        return word_term(3, b"hiking");
    }
    Some(TermKey {
        type_no: 3,
        key: Key::Id(EntityId::new(n)?),
    })
}

fn key(n: u64) -> Option<DocKey> {
    Some(DocKey {
        rank: Rank(7),
        id: EntityId::new(n.saturating_add(1))?,
    })
}

// What a change puts, by a number below 4. None where it deletes.
fn change(n: u64) -> Option<Audience> {
    match n {
        0 => Some(Audience::Public),
        1 => Some(Audience::Only),
        _ => None,
    }
}

// Puts a posting, or deletes it.
fn note(delta: &mut Delta, term: TermKey, key: DocKey, change: Option<Audience>) -> Option<()> {
    match change {
        Some(audience) => delta.put(term, Posting { key, audience }).ok(),
        None => delta.delete(term, key).ok(),
    }
}

// Writes a change of a layer: `puts` has what the layer puts, which stands over what it deletes.
fn fold(folded: &mut Folded, puts: &mut Folded, place: usize, change: Option<Audience>) {
    if place >= PLACES {
        return;
    }
    match change {
        Some(_) => puts[place] = change,
        None => folded[place] = None,
    }
}

// Changes of a layer.
fn noisy_delta(
    alloc: Global,
    noise: &mut Noise,
    folded: &mut Folded,
    puts: &mut Folded,
) -> Option<Delta> {
    let mut delta = Delta::new(alloc);
    for _ in 0..noise.below(12) {
        let place = noise.below(16);
        let change = change(noise.below(4));
        note(&mut delta, term(place / 8)?, key(place % 8)?, change)?;
        fold(folded, puts, place as usize, change);
    }
    Some(delta)
}

// A layer of some deletes and puts; `folded` is changed as the layer changes a table.
fn noisy_layer(alloc: Global, noise: &mut Noise, folded: &mut Folded) -> Option<Layer> {
    let mut puts = [None; PLACES];
    let delta = noisy_delta(alloc, noise, folded, &mut puts)?;
    for place in 0..PLACES {
        if puts[place].is_some() {
            folded[place] = puts[place];
        }
    }
    Layer::build(alloc, delta).ok()
}

// A stack of one layer.
fn stack_of(alloc: Global, layer: Layer) -> Option<Stack> {
    Stack::of(alloc, Arc::new(alloc, layer).ok()?).ok()
}

// A stack with one more layer above all others.
fn with_layer(alloc: Global, stack: &Stack, layer: Layer) -> Option<Stack> {
    let mut next = stack.roomy(1).ok()?;
    next.push_reserved(Arc::new(alloc, layer).ok()?);
    Some(next)
}

// A stack of 1 to 9 layers.
fn noisy_stack(alloc: Global, case: u64, folded: &mut Folded) -> Option<Stack> {
    let mut noise = Noise { state: case };
    let base = noisy_layer(alloc, &mut noise, folded)?;
    let mut stack = stack_of(alloc, base)?;
    for _ in 0..noise.below(9) {
        let layer = noisy_layer(alloc, &mut noise, folded)?;
        stack = with_layer(alloc, &stack, layer)?;
    }
    Some(stack)
}

// Whether a posting is found, and a cursor stands at it, exactly where there is one; then the cursor passes it.
fn is_at<C: DocCursor>(cursor: &mut C, key: DocKey, is_there: bool) -> bool {
    let is_at = cursor.peek() == Some(key);
    if is_at {
        cursor.step();
    }
    is_at == is_there
}

// Whether the term of a number is read as it is folded, from a place on.
fn is_term_read(
    alloc: Global,
    stack: &Stack,
    n: u64,
    from: usize,
    folded: &Folded,
) -> Option<bool> {
    let term = term(n)?;
    let mut cursor = stack.cursor(alloc, &term).ok()?;
    for k in 0..8usize {
        let key = key(k as u64)?;
        let want = *folded.get(from.checked_add(k)?)?;
        if cursor.peek() == Some(key) && cursor.audience() != want {
            return Some(false);
        }
        if stack.find(&term, key) != want || !is_at(&mut cursor, key, want.is_some()) {
            return Some(false);
        }
    }
    Some(cursor.peek().is_none())
}

// Whether both terms of a stack are read as they are folded.
fn are_terms_read(alloc: Global, stack: &Stack, folded: &Folded) -> Option<bool> {
    let word = is_term_read(alloc, stack, 0, 0, folded)?;
    Some(word && is_term_read(alloc, stack, 1, 8, folded)?)
}

// Whether a stack, and all its layers as one, are read as the fold over its changes is.
fn is_read(alloc: Global, case: u64) -> Option<bool> {
    let mut folded = [None; PLACES];
    let stack = noisy_stack(alloc, case, &mut folded)?;
    let layer = stack.combined(alloc, stack.layers()).ok()?;
    let combined = stack_of(alloc, layer)?;
    Some(are_terms_read(alloc, &stack, &folded)? && are_terms_read(alloc, &combined, &folded)?)
}

// Stacks of 1 to 9 layers are read like the table that a plain fold over their changes makes.
#[test]
fn stacks_are_read_like_a_table(rt: HostRuntime) -> Result<(), Fail> {
    for case in 0..300u64 {
        assert!(rt; is_read(rt.alloc(), case) == Some(true), "case {case}");
    }
    Ok(())
}

// A layer that puts postings of the term of some number at some keys, or deletes them. Each key is a digit.
fn one_term_layer(alloc: Global, n: u64, keys: &[u8], change: Option<Audience>) -> Option<Layer> {
    let mut delta = Delta::new(alloc);
    for digit in keys {
        note(&mut delta, term(n)?, key((*digit % 16) as u64)?, change)?;
    }
    Layer::build(alloc, delta).ok()
}

// A stack whose first layers put and delete at the keys of one term, and whose newest has another
// term alone. A bar parts the layers that delete.
fn emptied_stack(alloc: Global, puts: &[u8], deletes: &[u8]) -> Option<Stack> {
    let everybody = Some(Audience::Public);
    let mut stack = stack_of(alloc, one_term_layer(alloc, 1, puts, everybody)?)?;
    for keys in deletes.split(|byte| *byte == b'|') {
        let layer = one_term_layer(alloc, 1, keys, None)?;
        stack = with_layer(alloc, &stack, layer)?;
    }
    with_layer(alloc, &stack, one_term_layer(alloc, 0, b"4", everybody)?)
}

// Whether a cursor has no posting, and does not move.
fn is_at_end<C: DocCursor>(cursor: &mut C) -> Option<bool> {
    let before = cursor.peek().is_none();
    cursor.step();
    cursor.seek(key(0)?);
    Some(before && cursor.peek().is_none())
}

// Whether a stack has no posting of the first term, and that of the other one.
fn is_emptied(alloc: Global, deletes: &[u8]) -> Option<bool> {
    let stack = emptied_stack(alloc, b"123", deletes)?;
    Some(has_nothing(alloc, &stack)? && has_the_other(alloc, &stack)?)
}

// Whether a stack has no posting of the first term.
fn has_nothing(alloc: Global, stack: &Stack) -> Option<bool> {
    let first = term(1)?;
    for k in 0..5 {
        if stack.find(&first, key(k)?).is_some() {
            return Some(false);
        }
    }
    let mut cursor = stack.cursor(alloc, &first).ok()?;
    Some(cursor.posting().is_none() && is_at_end(&mut cursor)?)
}

// Whether it has that of the other one.
fn has_the_other(alloc: Global, stack: &Stack) -> Option<bool> {
    let other = term(0)?;
    let cursor = stack.cursor(alloc, &other).ok()?;
    Some(cursor.peek() == key(4))
}

// Whether one posting is left of three.
fn is_left(alloc: Global) -> Option<bool> {
    let stack = emptied_stack(alloc, b"123", b"1|3")?;
    let mut cursor = stack.cursor(alloc, &term(1)?).ok()?;
    let left = cursor.peek() == key(2);
    cursor.seek(key(3)?);
    Some(left && cursor.peek().is_none())
}

// A term that only an older layer puts, and all whose postings newer layers delete: in one layer,
// in two that each delete a part, and, with one posting left, in part.
#[test]
fn all_postings_of_an_older_layer_are_deleted(rt: HostRuntime) -> Result<(), Fail> {
    assert!(rt; is_emptied(rt.alloc(), b"123") == Some(true));
    assert!(rt; is_emptied(rt.alloc(), b"13|27") == Some(true));
    assert!(rt; is_left(rt.alloc()) == Some(true));
    Ok(())
}

// Words at the ends of the byte order, all of which a layer puts but one that it deletes.
const WORDS: &[u8] = b"- 0 _ a a-b zzzzzzzzzzzzzzzzzzzzzzzzzzzzzzzz";

const DELETED: &[u8] = b"m";

// That layer, with other terms beside them.
fn worded_layer(alloc: Global) -> Option<Layer> {
    let mut delta = Delta::new(alloc);
    note_words(&mut delta)?;
    Layer::build(alloc, delta).ok()
}

fn note_words(delta: &mut Delta) -> Option<()> {
    let key = key(1)?;
    let everybody = Some(Audience::Public);
    for text in WORDS.split(|byte| *byte == b' ') {
        note(delta, word_term(5, text)?, key, everybody)?;
    }
    note(delta, word_term(5, DELETED)?, key, None)?;
    note(delta, word_term(4, b"b")?, key, everybody)?;
    note(delta, word_term(6, b"z")?, key, everybody)?;
    note(delta, term(7)?, key, everybody)
}

// The least word of a type from a word on, or past it.
fn least<L: Ledger>(
    layer: &Layer,
    type_no: u16,
    from: &Word,
    strict: bool,
    blank: Blank,
) -> Option<Word>
    requires name { blank.name ≡ L.name }
    requires parts { (blank.parts ≡ L.parts) × (0 < blank.parts) }
{
    let mut steps = Steps::<L>::new(blank);
    layer.word_from(type_no, from, strict, &mut steps)
}

// Whether the least word of a type from a text on, or past it, is another text, or none where that is empty.
fn is_least(layer: &Layer, type_no: u16, from: &[u8], strict: bool, want: &[u8]) -> Option<bool> {
    let from = Word::read(from)?;
    let found = least::<Brand>(layer, type_no, &from, strict, Blank::new(1));
    Some(found == Word::read(want))
}

// A type, a text, the least word from there on, and that past it.
const LEAST: &[u8] =
    b"5 - - 0;5 -- 0 0;5 a a a-b;5 b m m;5 m m zzzzzzzzzzzzzzzzzzzzzzzzzzzzzzzz;5 zzzzzzzzzzzzzzzzzzzzzzzzzzzzzzzz zzzzzzzzzzzzzzzzzzzzzzzzzzzzzzzz ;4 c  ";

// Whether a row is true of the layer.
fn has_least(layer: &Layer, row: &[u8]) -> Option<bool> {
    let (type_no, row) = cut_at(row, b' ')?;
    let (from, row) = cut_at(row, b' ')?;
    let (at, past) = cut_at(row, b' ')?;
    let type_no = read_between(type_no, 0, 9)? as u16;
    let is_at = is_least(layer, type_no, from, false, at)?;
    Some(is_at && is_least(layer, type_no, from, true, past)?)
}

// The first row that is not true of the layer.
fn wrong_row(layer: &Layer) -> Option<&'static [u8]> {
    for row in LEAST.split(|byte| *byte == b';') {
        if has_least(layer, row) != Some(true) {
            return Some(row);
        }
    }
    None
}

#[test]
fn words_from_a_word_on(rt: HostRuntime) -> Result<(), Fail> {
    let layer = worded_layer(rt.alloc()).ok_or("no layer")?;
    assert!(rt; wrong_row(&layer).is_none() && layer.entries() == 10);
    Ok(())
}

/// How many terms a wide layer has, of one posting each, beside the two that change.
const WIDE: u64 = 200;

fn wide_layer(alloc: Global) -> Option<Layer> {
    let mut delta = Delta::new(alloc);
    for n in 0..WIDE {
        let term = term(n.saturating_add(10))?;
        note(&mut delta, term, key(0)?, Some(Audience::Public))?;
    }
    Layer::build(alloc, delta).ok()
}

// A stack with one more layer, as one layer.
fn merged_with(alloc: Global, stack: &Stack, layer: Layer) -> Option<Stack> {
    let next = with_layer(alloc, stack, layer)?;
    let layer = next.combined(alloc, next.layers()).ok()?;
    stack_of(alloc, layer)
}

// How many entries the layers of a stack have.
fn entries(stack: &Stack) -> u64 {
    let mut entries = 0_u64;
    for i in 0..stack.layers() {
        entries = entries.saturating_add(stack.layer(i).entries());
    }
    entries
}

// How many postings there are, with those of a wide layer.
fn count(folded: &Folded) -> u64 {
    let mut count = WIDE;
    for audience in folded {
        if audience.is_some() {
            count = count.saturating_add(1);
        }
    }
    count
}

// Whether the word's term has a posting.
fn has_word(folded: &Folded) -> bool {
    for place in 0..8usize {
        if folded[place].is_some() {
            return true;
        }
    }
    false
}

// Whether each layer of a stack has the word exactly where it is wanted.
fn have_word(stack: &Stack, is_wanted: bool) -> Option<bool> {
    let want: &[u8] = if is_wanted { b"hiking" } else { b"" };
    for i in 0..stack.layers() {
        if !is_least(stack.layer(i), 3, b"a", false, want)? {
            return Some(false);
        }
    }
    Some(true)
}

// Whether the first and the last term of a wide layer have their posting.
fn has_wide_terms(stack: &Stack) -> Option<bool> {
    let key = key(0)?;
    let first = stack.find(&term(10)?, key);
    let last = stack.find(&term(WIDE.saturating_add(9))?, key);
    Some(first == Some(Audience::Public) && last == first)
}

// Whether a merged stack is read as it is folded, and has as many entries as there are postings.
fn is_merged_read(alloc: Global, stack: &Stack, folded: &Folded) -> Option<bool> {
    let are_read = are_terms_read(alloc, stack, folded)? && has_wide_terms(stack)?;
    Some(are_read && have_word(stack, has_word(folded))? && entries(stack) == count(folded))
}

// Whether layers that are merged six times over, each with one of noise, are read as they are folded.
fn are_merged_read(alloc: Global, case: u64) -> Option<bool> {
    let mut noise = Noise { state: case };
    let mut folded = [None; PLACES];
    let mut stack = stack_of(alloc, wide_layer(alloc)?)?;
    for _ in 0..6 {
        let layer = noisy_layer(alloc, &mut noise, &mut folded)?;
        stack = merged_with(alloc, &stack, layer)?;
        if !is_merged_read(alloc, &stack, &folded)? {
            return Some(false);
        }
    }
    Some(true)
}

// A layer that is merged of few changes and of a wide layer shares what did not change, over and over.
#[test]
fn merged_layers_are_read_like_a_table(rt: HostRuntime) -> Result<(), Fail> {
    for case in 0..100u64 {
        assert!(rt;
            are_merged_read(rt.alloc(), case) == Some(true),
            "case {case}"
        );
    }
    Ok(())
}
