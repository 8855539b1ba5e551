ghost use Rattle.std.specs.Prelude.{◌≡◌, ◌+◌, length, false};
ghost use Rattle.layer_stack.specs.Words.{IsWordFrom, is_word_before};
ghost use Rattle.uni_meaning.specs.Prefixes.{begins_with};
ghost use Rattle.prefix_terms.specs.Occurring.{occurs_in, occurs_so};

use layer_stack::{Stack, earlier};
use std::sync::ledger::Ledger;
use uni_base::{Steps, Word};

// The least word, from a given one on and past it where `strict`, at which some layer has
// something of the type. Each layer is asked once.
fn least_word<L: Ledger>(
    stack: &Stack,
    type_no: u16,
    at: &Word,
    strict: bool,
    steps: &mut Steps<L>,
) -> Option<Word>
    ensures least { IsWordFrom (occurs_in stack.now.0) type_no at.now strict result }
    ensures counted { steps.new ≡ steps.old + length stack.now.0 }
{
    let mut least = None;
    for i in 0..stack.layers() {
        least = earlier(least, stack.layer(i).word_from(type_no, at, strict, steps));
    }
    least
}

fn begins_with(word: &Word, from: &Word) -> bool
    ensures { result ≡ begins_with from.now word.now }
{
    word.bytes().starts_with(from.bytes())
}

// The least such word that begins so. Words that begin so stand together, from the beginning itself on, so
// where the least word of all does not begin so, none is left.
pub(crate) fn next_word<L: Ledger>(
    stack: &Stack,
    type_no: u16,
    from: &Word,
    at: &Word,
    strict: bool,
    steps: &mut Steps<L>,
) -> Option<Word>
    requires { is_word_before at.now from.now ≡ false }
    ensures least { IsWordFrom (occurs_so from.now stack.now.0) type_no at.now strict result }
    ensures counted { steps.new ≡ steps.old + length stack.now.0 }
{
    let word = least_word(stack, type_no, at, strict, steps)?;
    if begins_with(&word, from) {
        Some(word)
    } else {
        None
    }
}
