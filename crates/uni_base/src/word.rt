ghost use Rattle.std.specs.Prelude.{◌≡◌, ◌≤◌, ◌++◌, true, false, length, Some, None, if◌then◌else◌, IfSome, MatchOption};
ghost use Rattle.std.specs.List.{list_all, prefix_len, take_while};
ghost use Rattle.uni_base.specs.Padding.{padded};
ghost use Rattle.std.proofs.Common.{rules};
ghost use Rattle.std.specs.Cmp.{partial_order_from_own_ties};
ghost use Rattle.std.specs.Cmp.Rules.{comparing, hashing};
ghost use Rattle.std.specs.Hash as fed;
ghost use Rattle.std.specs.Ordering.{as_partial_cmp, nat_cmp};
ghost use Rattle.std.specs.Cmp.Lexicographic.{pointwise, slice_cmp};
ghost use Rattle.std.specs.Prelude.{◌==◌};
ghost use Rattle.uni_base.specs.Words.{is_word, is_word_byte, starts_with_letter};

use std::cmp::Ordering;
use std::hash::{Hash, Hasher};
use std::marker::Model;

/// A word of a script: 1 to 32 bytes of `a-z 0-9 - _`, kept in place. Contracts see its bytes.
#[derive(Clone, Copy, Debug)]
pub struct Word {
    len: u8,
    bytes: [u8; 32],
}

impl Model for Word {
    ghost use Rattle.std.specs.Prelude.{List, ℕ, take, length};
    ghost use Rattle.uni_base.specs.Padding.{IsPadded, padded, padded-bytes, padded-len};

    ghost Value = { List ℕ };

    ghost view = { λ w. take w.len w.bytes };

    ghost invariant = { λ w. IsPadded w.len w.bytes };

    ghost inverse = { λ text. record { len = length text; bytes = padded text } };

    ghost inverse_ok = { λ w h. λ i. record { len = padded-len w.len w.bytes h i; bytes = padded-bytes w.len w.bytes h i } };
}

impl Word {
    /// Reads a word. None where the text is no word.
    pub fn read(text: &[u8]) -> Option<Word>
        ensures { result ≡ (if is_word text.now then Some text.now else None) }
    {
        if !is_word(text) {
            return None;
        }
        Some(Word {
            len: text.len() as u8,
            bytes: padded(text),
        })
    }

    /// The word that a text begins with, as far as its bytes belong to words, and the text after it. None
    /// where that is no word: it is empty, or of more than 32 bytes.
    pub fn read_front(text: &[u8]) -> Option<(Word, &[u8])>
        ensures front { MatchOption result (is_word (take_while is_word_byte text.now) ≡ false)
            (λ parts. (parts.0 ≡ take_while is_word_byte text.now) × (text.now ≡ parts.0 ++ parts.1.now)) }
        ensures word { IfSome result (λ parts. is_word parts.0 ≡ true) }
    {
        let len = word_bytes(text);
        if len == 0 || len > 32 {
            return None;
        }
        let word = Word {
            len: len as u8,
            bytes: padded(&text[..len]),
        };
        Some((word, &text[len..]))
    }

    pub fn bytes(&self) -> &[u8]
        ensures bytes { result.now ≡ self.now }
        ensures word { is_word self.now ≡ true }
    {
        &self.bytes[..self.len as usize]
    }

    /// Whether the word may name a vertical or a type.
    pub fn is_name(&self) -> bool
        ensures { result ≡ starts_with_letter self.now }
    {
        self.bytes[0].is_ascii_lowercase()
    }
}

impl PartialEq for Word {
    ghost eq = { pointwise ◌==◌ };

    ghost laws = { Prim.search (comparing, rules) };

    fn eq(&self, other: &Word) -> bool {
        self.bytes() == other.bytes()
    }
}

impl Eq for Word {
    ghost laws = { Prim.search (comparing, rules) };
}

impl Hash for Word {
    ghost hash_input = { fed.slice fed.u8 };

    ghost respects_eq = { Prim.search (hashing, rules) };

    fn hash<H: Hasher>(&self, state: &mut H) {
        self.bytes().hash(state);
    }
}

/// The order of their bytes, a prefix before the word.
impl Ord for Word {
    ghost cmp = { slice_cmp nat_cmp };

    ghost total = { Prim.search (comparing, rules) };

    ghost matches_partial_cmp = { Prim.search (comparing, rules) };

    ghost matches_eq = { Prim.search (comparing, rules) };

    fn cmp(&self, other: &Word) -> Ordering {
        self.bytes().cmp(other.bytes())
    }
}

impl PartialOrd for Word {
    ghost partial_cmp = { as_partial_cmp (slice_cmp nat_cmp) };

    ghost laws = { partial_order_from_own_ties (Prim.search (comparing, rules)) (Prim.search (comparing, rules)) };

    fn partial_cmp(&self, other: &Word) -> Option<Ordering> {
        Some(self.cmp(other))
    }
}

fn is_word(text: &[u8]) -> bool
    ensures { result ≡ is_word text.now }
{
    !text.is_empty() && text.len() <= 32 && all_word_bytes(text)
}

fn all_word_bytes(text: &[u8]) -> bool
    ensures { result ≡ list_all is_word_byte text.now }
{
    text.iter().all(|byte| is_word_byte(*byte))
}

// How many bytes at the front of a text belong to words.
fn word_bytes(text: &[u8]) -> usize
    ensures { result ≡ prefix_len is_word_byte text.now }
{
    for (i, byte) in text.iter().enumerate() {
        if !is_word_byte(*byte) {
            return i;
        }
    }
    text.len()
}

// The text in an array, followed by zeros.
fn padded(text: &[u8]) -> [u8; 32]
    requires { length text.now ≤ 32 }
    ensures { result ≡ padded text.now }
{
    let mut bytes = [0; 32];
    bytes[..text.len()].copy_from_slice(text);
    bytes
}

fn is_word_byte(byte: u8) -> bool
    ensures { result ≡ is_word_byte byte }
{
    matches!(byte, b'a'..=b'z' | b'0'..=b'9' | b'-' | b'_')
}
