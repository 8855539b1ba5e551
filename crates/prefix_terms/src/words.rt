ghost use Rattle.std.specs.Prelude.{◌≡◌, IfOk};
ghost use Rattle.layer_base.specs.Layers.{stack_table};
ghost use Rattle.layer_stack.specs.Places.{term_of};
ghost use Rattle.prefix_terms.specs.Occurring.{AreFewSteps};
ghost use Rattle.prefix_terms.specs.PrefixWords.{prefix_words, has_posting};

use crate::next::next_word;
use layer_stack::{Stack, TermKey};
use std::alloc::{AllocError, Global};
use std::sync::ledger::Ledger;
use uni_base::{DocCursor, Key, Steps, Word, WordList};

// The term of a type and a word.
pub(crate) fn word_term(type_no: u16, word: &Word) -> TermKey
    ensures { result ≡ term_of type_no (Key.Word word.now) }
{
    TermKey {
        type_no,
        key: Key::Word(*word),
    }
}

// Whether the stack has a posting of a word.
fn has_posting(alloc: Global, stack: &Stack, type_no: u16, word: &Word) -> Result<bool, AllocError>
    ensures { IfOk result (λ has. has ≡ has_posting type_no (stack_table stack.now.0) word.now) }
{
    let cursor = stack.cursor(alloc, &word_term(type_no, word))?;
    Ok(cursor.peek().is_some())
}

/// The keys of a prefix term: the words that begin with a given one and under which the stack has a
/// posting of the type, each once, in the order of their bytes. Each word with that beginning that
/// occurs in some layer, if only among its deletes, costs one step for each layer, and so does the
/// end of the search.
pub fn words_with<L: Ledger>(
    alloc: Global,
    stack: &Stack,
    type_no: u16,
    from: &Word,
    steps: &mut Steps<L>,
) -> Result<WordList, AllocError>
    ensures words { IfOk result (λ words. words ≡ prefix_words type_no from.now (stack_table stack.now.0)) }
    ensures few { AreFewSteps steps.old steps.new type_no from.now stack.now.0 }
{
    let mut words = WordList::new(alloc);
    let mut at = *from;
    let mut strict = false;
    while let Some(word) = next_word(stack, type_no, from, &at, strict, steps) {
        if has_posting(alloc, stack, type_no, &word)? {
            words.push(word)?;
        }
        at = word;
        strict = true;
    }
    Ok(words)
}
