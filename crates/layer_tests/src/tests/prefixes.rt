//! Terms of a prefix, through layers.
ghost use Rattle.std.specs.Prelude.{◌≡◌, ◌<◌};

use super::Noise;
use layer_stack::{Delta, Layer, Stack, TermKey};
use posting_lists::Posting;
use prefix_terms::{PrefixCursor, prefix_cursor, words_with};
use std::alloc::Global;
use std::marker::Brand;
use std::sync::Arc;
use std::sync::ledger::{Blank, Ledger};
use std::test::Fail;
use uni_base::{Audience, DocCursor, DocKey, EntityId, Key, Rank, Steps, Word, WordList, cut_at};

/// The type of the prefix terms.
const TYPE: u16 = 3;

/// The words of the stacks that are made from a seed, in the order of their bytes.
const WORDS: &[u8] = b"- a a-b ab abc b";

/// How many keys each of them may have.
const KEYS: usize = 4;

/// How many places there are.
const PLACES: usize = 24;

// What a plain fold over all changes makes: the audience at each place, where there is a posting.
type Folded = [Option<Audience>; PLACES];

fn key(n: u64) -> Option<DocKey> {
    Some(DocKey {
        rank: Rank(7),
        id: EntityId::new(n.saturating_add(1))?,
    })
}

// A letter's change: P puts a posting for everybody and O one for nobody, any other deletes it.
fn change(letter: u8) -> Option<Audience> {
    match letter {
        b'P' => Some(Audience::Public),
        b'O' => Some(Audience::Only),
        _ => None,
    }
}

// Puts a posting of a word, or deletes it.
fn note(
    delta: &mut Delta,
    type_no: u16,
    word: Word,
    key: DocKey,
    change: Option<Audience>,
) -> Option<()> {
    let term = TermKey {
        type_no,
        key: Key::Word(word),
    };
    match change {
        Some(audience) => delta.put(term, Posting { key, audience }).ok(),
        None => delta.delete(term, key).ok(),
    }
}

// A stack with one more layer above all others.
fn with_layer(alloc: Global, stack: &Stack, delta: Delta) -> Option<Stack> {
    let layer = Layer::build(alloc, delta).ok()?;
    let mut next = stack.roomy(1).ok()?;
    next.push_reserved(Arc::new(alloc, layer).ok()?);
    Some(next)
}

// A stack of one layer that changes nothing.
fn empty_stack(alloc: Global) -> Option<Stack> {
    let layer = Layer::build(alloc, Delta::new(alloc)).ok()?;
    Stack::of(alloc, Arc::new(alloc, layer).ok()?).ok()
}

// The changes of rows like `P3 2 word`: a letter and the digit of a type, the digit of a key, and a word.
fn noted(alloc: Global, rows: &[u8]) -> Option<Delta> {
    let mut delta = Delta::new(alloc);
    for row in rows.split(|byte| *byte == b';') {
        note_row(&mut delta, row)?;
    }
    Some(delta)
}

fn note_row(delta: &mut Delta, row: &[u8]) -> Option<()> {
    let (front, row) = cut_at(row, b' ')?;
    let (digit, word) = cut_at(row, b' ')?;
    let type_no = (*front.get(1)? % 16) as u16;
    let key = key((*digit.first()? % 16) as u64)?;
    let word = Word::read(word)?;
    note(delta, type_no, word, key, change(*front.first()?))
}

// The stack of layers of such rows, the oldest first, with a bar between any two.
fn stack_of(alloc: Global, layers: &[u8]) -> Option<Stack> {
    let mut stack = empty_stack(alloc)?;
    for rows in layers.split(|byte| *byte == b'|') {
        stack = with_layer(alloc, &stack, noted(alloc, rows)?)?;
    }
    Some(stack)
}

// The words of a prefix term.
fn words_of<L: Ledger>(
    alloc: Global,
    stack: &Stack,
    type_no: u16,
    from: &Word,
    blank: Blank,
) -> Option<WordList>
    requires name { blank.name ≡ L.name }
    requires parts { (blank.parts ≡ L.parts) × (0 < blank.parts) }
{
    let mut steps = Steps::<L>::new(blank);
    words_with(alloc, stack, type_no, from, &mut steps).ok()
}

// Whether a prefix term has the words of a text, in their order; none where that is empty.
fn has_words(alloc: Global, stack: &Stack, type_no: u16, from: &Word, want: &[u8]) -> Option<bool> {
    let words = words_of::<Brand>(alloc, stack, type_no, from, Blank::new(1))?;
    let mut at = 0usize;
    for text in want.split(|byte| *byte == b' ') {
        if text.is_empty() {
            break;
        }
        if words.get(at)?.bytes() != text {
            return Some(false);
        }
        at = at.saturating_add(1);
    }
    Some(at == words.len())
}

const LAYERS: &[u8] =
    b"P3 1 ab;O3 2 -;P3 1 __;P3 3 a;P5 1 abba;P3 1 abacusabacusabacusabacusabacusab\
|D3 1 ab;P3 2 abc;D3 7 abd;P3 4 zzzzzzzzzzzzzzzzzzzzzzzzzzzzzzzz;P5 2 zzzzzzzzzzzzzzzzzzzzzzzzzzzzzzzz\
|P3 5 b;D3 1 bb;P3 1 bba;D3 3 a;P3 2 a;P4 1 abe";

// A type, the beginning of words, and the words.
const ROWS: &[u8] =
    b"3 a a abacusabacusabacusabacusabacusab abc;3 ab abacusabacusabacusabacusabacusab abc;3 abc abc;\
3 abd ;3 - -;3 _ __;3 z zzzzzzzzzzzzzzzzzzzzzzzzzzzzzzzz;3 zzzzzzzzzzzzzzzzzzzzzzzzzzzzzzzz zzzzzzzzzzzzzzzzzzzzzzzzzzzzzzzz;\
3 b b bba;3 bb bba;3 c ;5 a abba;5 ab abba;4 a abe;6 a ;5 z zzzzzzzzzzzzzzzzzzzzzzzzzzzzzzzz";

// Whether a row is true of the stack.
fn is_true(alloc: Global, stack: &Stack, row: &[u8]) -> Option<bool> {
    let (digit, row) = cut_at(row, b' ')?;
    let (from, want) = cut_at(row, b' ')?;
    let type_no = (*digit.first()? % 16) as u16;
    has_words(alloc, stack, type_no, &Word::read(from)?, want)
}

// The first row that is not true of the stack.
fn wrong_row(alloc: Global, stack: &Stack) -> Option<&'static [u8]> {
    for row in ROWS.split(|byte| *byte == b';') {
        if is_true(alloc, stack, row) != Some(true) {
            return Some(row);
        }
    }
    None
}

// Words at the ends of the byte order, words of 32 bytes, a beginning that is itself a word, a word of
// which an older layer alone has postings, and one whose postings a newer layer deletes.
#[test]
fn words_of_prefix_terms(rt: HostRuntime) -> Result<(), Fail> {
    let stack = stack_of(rt.alloc(), LAYERS).ok_or("no stack")?;
    assert!(rt; wrong_row(rt.alloc(), &stack).is_none());
    Ok(())
}

fn word(n: usize) -> Option<Word> {
    for (number, text) in WORDS.split(|byte| *byte == b' ').enumerate() {
        if number == n {
            return Word::read(text);
        }
    }
    None
}

// Changes of a layer, and what they make of the postings.
fn noisy_delta(alloc: Global, noise: &mut Noise, folded: &mut Folded) -> Option<Delta> {
    let mut delta = Delta::new(alloc);
    let mut puts = [None; PLACES];
    for _ in 0..noise.below(16) {
        let place = noise.below(24) as usize;
        let change = change(b"POD"[noise.below(3) as usize]);
        note(
            &mut delta,
            TYPE,
            word(place / KEYS)?,
            key((place % KEYS) as u64)?,
            change,
        )?;
        match change {
            Some(_) => puts[place] = change,
            None => folded[place] = None,
        }
    }
    put_all(folded, &puts);
    Some(delta)
}

fn put_all(folded: &mut Folded, puts: &Folded) {
    for place in 0..PLACES {
        if puts[place].is_some() {
            folded[place] = puts[place];
        }
    }
}

// A stack of 1 to 5 layers, the oldest of which changes nothing.
fn noisy_stack(alloc: Global, case: u64, folded: &mut Folded) -> Option<Stack> {
    let mut noise = Noise { state: case };
    let mut stack = empty_stack(alloc)?;
    for _ in 0..noise.below(5) {
        let delta = noisy_delta(alloc, &mut noise, folded)?;
        stack = with_layer(alloc, &stack, delta)?;
    }
    Some(stack)
}

// Whether a word has a posting.
fn is_posted(n: usize, folded: &Folded) -> bool {
    for place in 0..PLACES {
        if place / KEYS == n && folded[place].is_some() {
            return true;
        }
    }
    false
}

// The words of a stack from a seed that begin so and have a posting, with the number of each.
fn folded_words(alloc: Global, from: &Word, folded: &Folded) -> Option<Vec<usize>> {
    let mut words = Vec::new(alloc);
    for n in 0..6usize {
        if word(n)?.bytes().starts_with(from.bytes()) && is_posted(n, folded) {
            words.push(n).ok()?;
        }
    }
    Some(words)
}

// Whether a cursor has the words of these numbers.
fn has_numbers(cursor: &PrefixCursor<'_>, numbers: &[usize]) -> Option<bool> {
    if cursor.words() != numbers.len() {
        return Some(false);
    }
    for i in 0..cursor.words() {
        if cursor.word(i) != word(*numbers.get(i)?)? {
            return Some(false);
        }
    }
    Some(true)
}

// Whether the cursor is at a key where the words have a posting there, with these audiences.
fn is_at(cursor: &PrefixCursor<'_>, k: usize, numbers: &[usize], folded: &Folded) -> Option<bool> {
    let is_there = cursor.peek() == Some(key(k as u64)?);
    let mut some = false;
    for i in 0..cursor.words() {
        let place = numbers.get(i)?.checked_mul(KEYS)?.checked_add(k)?;
        let want = *folded.get(place)?;
        some = some || want.is_some();
        if is_there && cursor.audience(i) != want {
            return Some(false);
        }
    }
    Some(is_there == some)
}

// Whether the postings of a prefix term are read as they are folded, by steps and by a seek to each key.
fn is_prefix_read(alloc: Global, stack: &Stack, from: &Word, folded: &Folded) -> Option<bool> {
    let numbers = folded_words(alloc, from, folded)?;
    let mut cursor = prefix_cursor(alloc, stack, TYPE, from).ok()?;
    let mut right = has_numbers(&cursor, &numbers)?;
    for k in 0..KEYS {
        right = right
            && is_sought_at(alloc, stack, from, k, &numbers, folded)?
            && is_at(&cursor, k, &numbers, folded)?;
        if cursor.peek() == Some(key(k as u64)?) {
            cursor.step();
        }
    }
    Some(right && cursor.peek().is_none())
}

// Whether a cursor that is sought to a key stands at what is folded there.
fn is_sought_at(
    alloc: Global,
    stack: &Stack,
    from: &Word,
    k: usize,
    numbers: &[usize],
    folded: &Folded,
) -> Option<bool> {
    let key = key(k as u64)?;
    let mut sought = prefix_cursor(alloc, stack, TYPE, from).ok()?;
    sought.seek(key);
    is_at(&sought, k, numbers, folded)
}

// Whether all prefix terms of a stack from a seed are read as the fold over its changes is.
fn is_read(alloc: Global, case: u64) -> Option<bool> {
    let mut folded = [None; PLACES];
    let stack = noisy_stack(alloc, case, &mut folded)?;
    for n in 0..6 {
        if !is_prefix_read(alloc, &stack, &word(n)?, &folded)? {
            return Some(false);
        }
    }
    Some(true)
}

#[test]
fn prefix_terms_are_read_like_a_table(rt: HostRuntime) -> Result<(), Fail> {
    for case in 0..100u64 {
        assert!(rt; is_read(rt.alloc(), case) == Some(true), "case {case}");
    }
    Ok(())
}
