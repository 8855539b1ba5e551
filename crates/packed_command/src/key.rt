//! Keys of few bytes.
ghost use Rattle.std.specs.Prelude.{◌≡◌, IfSome};

use std::marker::Model;
use uni_base::Word;

/// The most bytes of such a key.
const MOST: usize = 12;

/// A key of at most 12 bytes, kept in place. Contracts see its bytes.
#[derive(Debug, Drop)]
pub(crate) struct ShortKey {
    bytes: [u8; MOST],
    len: u8,
}

impl Model for ShortKey {
    ghost use Rattle.std.specs.Prelude.{List, ℕ, ◌≡◌, ◌≤◌, take, length, true};
    ghost use Rattle.uni_base.specs.Words.{is_word};

    ghost Value = { List ℕ };

    ghost view = { λ k. take k.len k.bytes };

    ghost invariant = { λ k. (k.len ≤ 12) × (is_word (take k.len k.bytes) ≡ true) };
}

impl ShortKey {
    /// A key. None where it has more bytes.
    pub(crate) fn of(key: &Word) -> Option<ShortKey>
        ensures { IfSome result (λ short. short ≡ key.now) }
    {
        let text = key.bytes();
        if text.len() > MOST {
            return None;
        }
        let mut bytes = [0; MOST];
        bytes[..text.len()].copy_from_slice(text);
        Some(ShortKey {
            bytes,
            len: text.len() as u8,
        })
    }

    /// The key as it was.
    pub(crate) fn word(&self) -> Word
        ensures { result ≡ self.now }
    {
        match Word::read(&self.bytes[..self.len as usize]) {
            Some(word) => word,
            None => unreachable!(),
        }
    }
}
