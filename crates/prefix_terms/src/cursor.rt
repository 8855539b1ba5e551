ghost use Rattle.std.specs.Prelude.{◌≡◌, ◌<◌, [], drop, is_some, length, map, slice_get, slice_index_or, Some, IfOk};
ghost use Rattle.set_cursors.specs.Passed.{HasMoved};
ghost use Rattle.uni_base.specs.declared.entity.DocKey.{DocKey as Keys};
ghost use Rattle.uni_base.specs.Cursors.{keys_from};
ghost use Rattle.uni_base.specs.KeySets.{has_first, united};
ghost use Rattle.layer_base.specs.Layers.{stack_table};
ghost use Rattle.prefix_terms.specs.PrefixCursors.{all_postings, audience_at, audience_of, word_postings};
ghost use Rattle.prefix_terms.specs.PrefixWords.{prefix_words};

use crate::words::{word_term, words_with};
use layer_stack::{Stack, StackCursor};
use set_cursors::{OperatorCursor, OrCursor};
use std::alloc::{AllocError, Global};
use std::marker::{Brand, Model};
use std::sync::ledger::{Blank, Ledger};
use uni_base::{Audience, DocCursor, DocKey, Steps, Word, WordList};

/// A cursor over the postings of all keys of a prefix term. Contracts see the table that the stack
/// stands for, the type's number, the keys, and for each of them what is left of its postings.
#[derive(Drop)]
pub struct PrefixCursor<'a> {
    stack: &'a Stack,
    type_no: u16,
    words: WordList,
    postings: OrCursor<StackCursor<'a>>,
}

impl<'a> Model for PrefixCursor<'a> {
    ghost use Rattle.std.specs.Coded.{codes};
    ghost use Rattle.std.specs.FinMap as finite;
    ghost use Rattle.layer_base.specs.Layers.{stack_table};
    ghost use Rattle.prefix_terms.specs.PrefixCursors.{PrefixPostings, postings_left, AreHeld};

    ghost Value = { PrefixPostings };

    ghost coded = { Prim.hlevel (codes, finite.code) };

    ghost view = { λ c. postings_left c.type_no (stack_table c.stack.now.0) c.words c.postings };

    ghost invariant = { λ c. AreHeld (postings_left c.type_no (stack_table c.stack.now.0) c.words c.postings) };
}

/// The cursor over all postings of the keys of a prefix term.
pub fn prefix_cursor<'a>(
    alloc: Global,
    stack: &'a Stack,
    type_no: u16,
    from: &Word,
) -> Result<PrefixCursor<'a>, AllocError>
    ensures { IfOk result (λ cursor. cursor ≡ all_postings type_no from.now (stack_table stack.now.0)) }
{
    let words = words_over::<Brand>(alloc, stack, type_no, from, Blank::new(1))?;
    let cursors = cursors(alloc, stack, type_no, words.as_slice())?;
    let postings = OrCursor::new(cursors);
    Ok(PrefixCursor {
        stack,
        type_no,
        words,
        postings,
    })
}

fn words_over<L: Ledger>(
    alloc: Global,
    stack: &Stack,
    type_no: u16,
    from: &Word,
    blank: Blank,
) -> Result<WordList, AllocError>
    requires name { blank.name ≡ L.name }
    requires parts { (blank.parts ≡ L.parts) × (0 < blank.parts) }
    ensures { IfOk result (λ words. words ≡ prefix_words type_no from.now (stack_table stack.now.0)) }
{
    words_with(alloc, stack, type_no, from, &mut Steps::<L>::new(blank))
}

// A cursor for each word.
fn cursors<'a>(
    alloc: Global,
    stack: &'a Stack,
    type_no: u16,
    words: &[Word],
) -> Result<Vec<StackCursor<'a>>, AllocError>
    ensures { IfOk result (λ cursors. cursors.items ≡ map (word_postings type_no (stack_table stack.now.0)) words.now) }
{
    let mut cursors = Vec::new(alloc);
    for word in words {
        cursors.push(stack.cursor(alloc, &word_term(type_no, word))?)?;
    }
    Ok(cursors)
}

impl<'a> PrefixCursor<'a> {
    /// How many keys the prefix term has.
    pub fn words(&self) -> usize
        ensures { result ≡ length self.now.words }
    {
        self.words.len()
    }

    /// A key, counted from 0, in the order of their bytes.
    pub fn word(&self, i: usize) -> Word
        requires { i < length self.now.words }
        ensures { slice_get self.now.words i ≡ Some result }
    {
        self.words.as_slice()[i]
    }

    /// The audience of a key's posting at the current key of an entity. None exactly where it has none there.
    pub fn audience(&self, i: usize) -> Option<Audience>
        requires { i < length self.now.words }
        ensures audience { result ≡ audience_at self.now i }
        ensures posting { (key : Keys) → slice_get (united self.now.lists) 0 ≡ Some key
            → result ≡ audience_of self.now.number self.now.table (slice_index_or self.now.words i []) key }
        ensures held { let lists = self.now.lists in
            is_some result ≡ has_first (slice_index_or lists i []) (united lists) }
    {
        if !self.postings.matches(i) {
            return None;
        }
        let key = self.postings.peek()?;
        self.stack
            .find(&word_term(self.type_no, &self.word(i)), key)
    }
}

impl<'a> DocCursor for PrefixCursor<'a> {
    ghost use Rattle.uni_base.specs.KeySets.{united};

    ghost remaining = { λ c. united c.lists };

    fn peek(&self) -> Option<DocKey> {
        self.postings.peek()
    }

    fn step(&mut self)
        ensures term { self.new ≡ record self.old { lists = self.new.lists } }
        ensures moved { HasMoved united (drop 1 (united self.old.lists)) self.old.lists self.new.lists }
    {
        self.postings.step();
    }

    fn seek(&mut self, from: DocKey)
        ensures term { self.new ≡ record self.old { lists = self.new.lists } }
        ensures moved { HasMoved united (keys_from from (united self.old.lists)) self.old.lists self.new.lists }
    {
        self.postings.seek(from);
    }
}
