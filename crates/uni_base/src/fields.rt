ghost use Rattle.std.specs.Prelude.{◌≡◌, ◌∷◌, [], None, Some, MatchOption};
ghost use Rattle.uni_base.specs.Fields.{cut_at, is_skipped};

use std::marker::Model;

/// Cuts a text at its first separator, which neither part keeps. None where there is none.
pub fn cut_at(text: &[u8], separator: u8) -> Option<(&[u8], &[u8])>
    ensures { MatchOption result (cut_at separator text.now ≡ None)
        (λ parts. cut_at separator text.now ≡ Some (parts.0.now, parts.1.now)) }
{
    for (i, byte) in text.iter().enumerate() {
        if *byte == separator {
            return Some((&text[..i], &text[i + 1..]));
        }
    }
    None
}

/// Whether a line is skipped: it is empty, or begins with `#`.
pub fn is_skipped(line: &[u8]) -> bool
    ensures { result ≡ is_skipped line.now }
{
    match line.first() {
        None => true,
        Some(byte) => *byte == b'#',
    }
}

/// The fields of a line, which are the texts between its spaces, read from the front. Contracts see
/// the fields that are left.
#[derive(Drop)]
pub struct Fields<'a> {
    rest: Option<&'a [u8]>,
}

impl<'a> Model for Fields<'a> {
    ghost use Rattle.std.specs.Prelude.{ℕ, List, []};
    ghost use Rattle.std.specs.Option.{option_map_or};
    ghost use Rattle.uni_base.specs.Fields.{fields_of};

    ghost Value = { List (List ℕ) };

    ghost view = { λ f. option_map_or (λ text. fields_of text.now) f.rest [] };
}

impl<'a> Fields<'a> {
    ghost use Rattle.uni_base.specs.Fields.{fields_of};

    /// All fields of a line.
    pub fn of(line: &'a [u8]) -> Fields<'a>
        ensures { result ≡ fields_of line.now }
    {
        Fields { rest: Some(line) }
    }

    /// The next field. None where none is left.
    pub fn next(&mut self) -> Option<&'a [u8]>
        ensures { MatchOption result ((self.old ≡ []) × (self.new ≡ [])) (λ field. self.old ≡ field.now ∷ self.new) }
    {
        let Some(text) = self.rest else {
            return None;
        };
        match cut_at(text, b' ') {
            Some((field, rest)) => {
                self.rest = Some(rest);
                Some(field)
            }
            None => {
                self.rest = None;
                Some(text)
            }
        }
    }
}
