ghost use Rattle.std.specs.Prelude.{◌≡◌, ◌≢◌, ◌↔◌, ◌≤◌, [], ◌∷◌, ◌++◌, true, false, None, Some, IfOk, IfSome, IsTrue, MatchOption, MatchResult};
ghost use Rattle.std.specs.List.{take_while};
ghost use Rattle.uni_base.specs.Fields.{fields_of};
ghost use Rattle.uni_base.specs.Numbers.{id_of, number_between};
ghost use Rattle.uni_base.specs.Words.{is_word, is_word_byte, is_name};
ghost use Rattle.uni_schema.specs.Lines.{name_of};
ghost use Rattle.feed_reader.specs.Fields.{HasTaken, HasTakenFront, TakesAs, TakesFrontAs, begins_with, first_as, front_as, goes_on, in_front, is_first, is_solid};
ghost use Rattle.feed_reader.specs.Reading.{word_of};
ghost use Rattle.feed_reader.specs.declared.fault.LineFault.TheVariants.{BadLine};

use crate::LineFault;
use crate::number::{SHORT, leading_digits, number_written};
use std::marker::Model;
use uni_base::{EntityId, Word, cut_at, read_between};

/// The fields of a line, which are the texts between its spaces, each taken from the front in the form
/// that the line wants. Contracts see the fields that are left, and know nothing of them after a fault.
#[derive(Drop)]
pub(crate) struct LineFields<'a> {
    rest: Option<&'a [u8]>,
}

impl<'a> Model for LineFields<'a> {
    ghost use Rattle.std.specs.Prelude.{ℕ, List, []};
    ghost use Rattle.std.specs.Option.{option_map_or};
    ghost use Rattle.uni_base.specs.Fields.{fields_of};

    ghost Value = { List (List ℕ) };

    ghost view = { λ f. option_map_or (λ text. fields_of text.now) f.rest [] };
}

impl<'a> LineFields<'a> {
    ghost use Rattle.uni_base.specs.Fields.{fields_of};

    /// All fields of a line.
    pub(crate) fn of(line: &'a [u8]) -> LineFields<'a>
        ensures { result ≡ fields_of line.now }
    {
        LineFields { rest: Some(line) }
    }

    /// Whether the next field is this word, which is then taken.
    pub(crate) fn take_word(&mut self, word: &[u8]) -> bool
        requires { is_solid word.now ≡ true }
        ensures { HasTaken word.now self.old self.new result }
    {
        let Some(text) = self.rest else {
            return false;
        };
        match after_word(text, word) {
            Some(rest) => {
                *self = rest;
                true
            }
            None => false,
        }
    }

    /// Whether the next field begins with this word and a colon, which are then taken off it.
    pub(crate) fn take_front(&mut self, word: &[u8]) -> bool
        requires { is_solid word.now ≡ true }
        ensures { HasTakenFront word.now self.old self.new result }
    {
        let Some(text) = self.rest else {
            return false;
        };
        match after_front(text, word) {
            Some(rest) => {
                self.rest = Some(rest);
                true
            }
            None => false,
        }
    }

    /// The word that the next field is.
    pub(crate) fn word(&mut self) -> Result<Word, LineFault>
        ensures { TakesAs word_of self.old self.new result }
    {
        let Some(text) = self.rest else {
            return Err(LineFault::BadLine);
        };
        match first_word(text) {
            Some((word, rest)) => {
                *self = rest;
                Ok(word)
            }
            None => Err(LineFault::BadLine),
        }
    }

    /// The name that the next field is.
    pub(crate) fn name(&mut self) -> Result<Word, LineFault>
        ensures name { TakesAs name_of self.old self.new result }
        ensures named { IfOk result (λ name. is_name name ≡ true) }
    {
        let word = self.word()?;
        if word.is_name() {
            Ok(word)
        } else {
            Err(LineFault::BadLine)
        }
    }

    /// The name at the front of the next field, before a colon. Both are taken off it.
    pub(crate) fn front_name(&mut self) -> Result<Word, LineFault>
        ensures name { TakesFrontAs name_of self.old self.new result }
        ensures named { IfOk result (λ name. is_name name ≡ true) }
    {
        let Some(text) = self.rest else {
            return Err(LineFault::BadLine);
        };
        match name_before_colon(text) {
            Some((name, rest)) => {
                self.rest = Some(rest);
                Ok(name)
            }
            None => Err(LineFault::BadLine),
        }
    }

    /// The id that the next field is.
    #[inline(always)]
    pub(crate) fn id(&mut self) -> Result<EntityId, LineFault>
        ensures { TakesAs id_of self.old self.new result }
    {
        EntityId::new(self.number(1, u64::MAX)?).ok_or(LineFault::BadLine)
    }

    /// The number from `low` to `high` that the next field is.
    #[inline(always)]
    pub(crate) fn number(&mut self, low: u64, high: u64) -> Result<u64, LineFault>
        ensures number { TakesAs (number_between low high) self.old self.new result }
        ensures within { IfOk result (λ n. (low ≤ n) × (n ≤ high)) }
    {
        let Some(text) = self.rest else {
            return Err(LineFault::BadLine);
        };
        let digits = leading_digits(text);
        match fields_after(&text[digits.count..]) {
            Some(rest) => {
                let field = &text[..digits.count];
                *self = rest;
                number_written(field, digits.value, low, high).ok_or(LineFault::BadLine)
            }
            None if digits.count < SHORT => Err(LineFault::BadLine),
            None => self.long_number(low, high),
        }
    }

    // The number that the next field is, of any length.
    #[inline(never)]
    fn long_number(&mut self, low: u64, high: u64) -> Result<u64, LineFault>
        ensures number { TakesAs (number_between low high) self.old self.new result }
        ensures within { IfOk result (λ n. (low ≤ n) × (n ≤ high)) }
    {
        read_between(self.next()?, low, high).ok_or(LineFault::BadLine)
    }

    // The next field, whatever it is.
    fn next(&mut self) -> Result<&'a [u8], LineFault>
        ensures { MatchResult result
            (λ field. self.old ≡ field.now ∷ self.new)
            (λ fault. (self.old ≡ []) × (fault ≡ BadLine)) }
    {
        let Some(text) = self.rest else {
            return Err(LineFault::BadLine);
        };
        match cut_at(text, b' ') {
            Some((field, rest)) => {
                self.rest = Some(rest);
                Ok(field)
            }
            None => {
                self.rest = None;
                Ok(text)
            }
        }
    }

    /// Whether no field is left.
    pub(crate) fn is_end(&self) -> bool
        ensures { IsTrue result ↔ (self.now ≡ []) }
    {
        match self.rest {
            None => true,
            Some(_) => false,
        }
    }

    /// No field is left.
    pub(crate) fn end(&self) -> Result<(), LineFault>
        ensures { MatchResult result
            (λ _. self.now ≡ [])
            (λ fault. (self.now ≢ []) × (fault ≡ BadLine)) }
    {
        if self.is_end() {
            Ok(())
        } else {
            Err(LineFault::BadLine)
        }
    }
}

// What stands after a field that ends where this text begins. None where the field goes on.
fn fields_after(text: &[u8]) -> Option<LineFields<'_>>
    ensures { MatchOption result (goes_on text.now ≡ true)
        (λ rest. fields_of text.now ≡ [] ∷ rest) }
{
    if text.is_empty() {
        return Some(LineFields { rest: None });
    }
    if text[0] == b' ' {
        return Some(LineFields {
            rest: Some(&text[1..]),
        });
    }
    None
}

// The fields after the first of a text, where that is this word.
fn after_word<'a>(text: &'a [u8], word: &[u8]) -> Option<LineFields<'a>>
    requires { is_solid word.now ≡ true }
    ensures { MatchOption result
        (is_first word.now (fields_of text.now) ≡ false)
        (λ rest. fields_of text.now ≡ word.now ∷ rest) }
{
    let Some(rest) = text.strip_prefix(word) else {
        return None;
    };
    fields_after(rest)
}

// A text after this word and a colon, where it begins with them.
fn after_front<'a>(text: &'a [u8], word: &[u8]) -> Option<&'a [u8]>
    ensures { MatchOption result
        (begins_with (in_front word.now) text.now ≡ false)
        (λ rest. text.now ≡ in_front word.now ++ rest.now) }
{
    let Some(rest) = text.strip_prefix(word) else {
        return None;
    };
    after_colon(rest)
}

// A text after the colon that it begins with.
fn after_colon(text: &[u8]) -> Option<&[u8]>
    ensures { MatchOption result (begins_with (58 ∷ []) text.now ≡ false)
        (λ rest. text.now ≡ 58 ∷ rest.now) }
{
    if text.is_empty() || text[0] != b':' {
        return None;
    }
    Some(&text[1..])
}

// The word that the first field of a text is, and the fields after it.
fn first_word(text: &[u8]) -> Option<(Word, LineFields<'_>)>
    ensures { result ≡ first_as word_of (fields_of text.now) }
{
    let Some((word, after)) = front_word(text) else {
        return None;
    };
    match fields_after(after) {
        Some(rest) => Some((word, rest)),
        None => None,
    }
}

// The name that stands before the first colon of a text's first field, and the text after that.
fn name_before_colon(text: &[u8]) -> Option<(Word, &[u8])>
    ensures name { MatchOption result (front_as name_of (fields_of text.now) ≡ None)
        (λ parts. front_as name_of (fields_of text.now) ≡ Some (parts.0, fields_of parts.1.now)) }
    ensures named { IfSome result (λ parts. is_name parts.0 ≡ true) }
{
    let Some((word, after)) = front_word(text) else {
        return None;
    };
    if !word.is_name() {
        return None;
    }
    match after_colon(after) {
        Some(rest) => Some((word, rest)),
        None => None,
    }
}

// The word at the front of a text, and the text after it.
fn front_word(text: &[u8]) -> Option<(Word, &[u8])>
    ensures { MatchOption result (is_word (take_while is_word_byte text.now) ≡ false)
        (λ parts. (is_word parts.0 ≡ true) × (parts.0 ≡ take_while is_word_byte text.now)
        × (text.now ≡ parts.0 ++ parts.1.now)) }
{
    Word::read_front(text)
}
