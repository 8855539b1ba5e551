ghost use Rattle.std.specs.Prelude.{◌≡◌};
ghost use Rattle.uni_base.specs.Numbers.{is_number};
ghost use Rattle.uni_base.specs.Words.{is_name};
ghost use Rattle.query_reader.specs.Atoms.{atom_kind, key_kind, pair_kind, starred_word};

use crate::token::TokenKind;
use uni_base::{Word, cut_at, read_number};

/// What an atom is, if it is in one of the forms of a format.
pub(crate) fn atom_kind(format: u32, atom: &[u8]) -> Option<TokenKind>
    ensures { result ≡ atom_kind format atom.now }
{
    if is_name(atom) {
        return Some(TokenKind::Name);
    }
    if is_number(atom) {
        return Some(TokenKind::Number);
    }
    if let Some((head, tail)) = cut_at(atom, b':') {
        if let Some(kind) = pair_kind(format, head, tail) {
            return Some(kind);
        }
    }
    match cut_at(atom, b'/') {
        Some((numerator, denominator)) if is_number(numerator) && is_number(denominator) => {
            Some(TokenKind::Fraction)
        }
        _ => None,
    }
}

// What the parts at an atom's colon make of it.
fn pair_kind(format: u32, head: &[u8], tail: &[u8]) -> Option<TokenKind>
    ensures { result ≡ pair_kind format head.now tail.now }
{
    if head.is_empty() {
        if is_name(tail) {
            Some(TokenKind::Option)
        } else {
            None
        }
    } else if !is_name(head) {
        None
    } else if tail.is_empty() {
        Some(TokenKind::Prefix)
    } else {
        key_kind(format, tail)
    }
}

// What the key after a name and a colon makes of them.
fn key_kind(format: u32, tail: &[u8]) -> Option<TokenKind>
    ensures { result ≡ key_kind format tail.now }
{
    if Word::read(tail).is_some() {
        Some(TokenKind::Term)
    } else if format == 2 && read_starred(tail).is_some() {
        Some(TokenKind::Stem)
    } else {
        None
    }
}

/// The word before a star that ends a text.
pub(crate) fn read_starred(text: &[u8]) -> Option<Word>
    ensures { result ≡ starred_word text.now }
{
    let (word, rest) = cut_at(text, b'*')?;
    if !rest.is_empty() {
        return None;
    }
    Word::read(word)
}

fn is_name(text: &[u8]) -> bool
    ensures { result ≡ is_name text.now }
{
    match Word::read(text) {
        Some(word) => word.is_name(),
        None => false,
    }
}

fn is_number(text: &[u8]) -> bool
    ensures { result ≡ is_number text.now }
{
    read_number(text).is_some()
}
