ghost use Rattle.std.specs.Prelude.{◌≡◌};
ghost use Rattle.layer_stack.specs.Places.{term_cmp};
ghost use Rattle.layer_stack.specs.Spans.{earlier, is_passed};

use crate::TermKey;
use crate::short_term::ShortTerm;
use std::cmp::Ordering;
use uni_base::Word;

// Whether a term comes before another, or also at it.
pub(crate) fn is_passed(also: bool, from: &TermKey, term: &ShortTerm) -> bool
    ensures { result ≡ is_passed also from.now term.now }
{
    match term.compare(from) {
        Ordering::Less => true,
        Ordering::Equal => also,
        Ordering::Greater => false,
    }
}

/// The lesser of two words that may be missing.
pub fn earlier(first: Option<Word>, second: Option<Word>) -> Option<Word>
    ensures { result ≡ earlier first second }
{
    match (first, second) {
        (None, word) | (word, None) => word,
        (Some(first), Some(second)) => Some(if second < first { second } else { first }),
    }
}
