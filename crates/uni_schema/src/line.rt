ghost use Rattle.std.specs.Prelude.{◌≡◌, IfSome, true};
ghost use Rattle.uni_schema.specs.Rules.{is_written};
ghost use Rattle.uni_schema.specs.Lines.{name_of, owner_of, store_of, begin_by, format_by, vertical_by, type_by, deny_by, declared_by, declaration_of};

use crate::{Owner, Store};
use uni_base::{Fields, Word, read_number};

/// What a line of a header says.
#[derive(Clone, Copy, Debug)]
pub(crate) enum HeaderLine {
    /// The format of the script.
    Format(u128),
    /// A vertical: its name, and the numbers of its shards and replicas.
    Vertical(Word, u128, u128),
    /// A type: its name, and the names of the verticals that its edges lead from and to; `word` is
    /// the source of edges that start at words.
    EdgeType(Word, Word, Word, Owner, Store),
    /// The type of this name denies.
    Deny(Word),
    /// The header ends.
    Begin,
}

/// What a line says, if it is of one of the forms of a header.
pub(crate) fn declaration_of(line: &[u8]) -> Option<HeaderLine>
    ensures said { result ≡ declaration_of line.now }
    ensures written { IfSome result (λ said. is_written said ≡ true) }
{
    declared_by(Fields::of(line))
}

// What fields say, if they are of one of the forms.
fn declared_by(mut fields: Fields<'_>) -> Option<HeaderLine>
    ensures { result ≡ declared_by fields.entry }
{
    let word = fields.next()?;
    if word == b"unicorn".as_slice() {
        format_by(fields)
    } else if word == b"vertical".as_slice() {
        vertical_by(fields)
    } else if word == b"type".as_slice() {
        type_by(fields)
    } else if word == b"deny".as_slice() {
        deny_by(fields)
    } else if word == b"begin".as_slice() {
        begin_by(fields)
    } else {
        None
    }
}

// `unicorn FORMAT`, after its first word
fn format_by(mut fields: Fields<'_>) -> Option<HeaderLine>
    ensures { result ≡ format_by fields.entry }
{
    let format = fields.next()?;
    if fields.next().is_some() {
        return None;
    }
    Some(HeaderLine::Format(read_number(format)?))
}

// `vertical NAME SHARDS REPLICAS`, after its first word
fn vertical_by(mut fields: Fields<'_>) -> Option<HeaderLine>
    ensures { result ≡ vertical_by fields.entry }
{
    let name = fields.next()?;
    let shards = fields.next()?;
    let replicas = fields.next()?;
    if fields.next().is_some() {
        return None;
    }
    Some(HeaderLine::Vertical(name_of(name)?, read_number(shards)?, read_number(replicas)?))
}

// `type NAME SOURCE TARGET OWNER STORE`, after its first word
fn type_by(mut fields: Fields<'_>) -> Option<HeaderLine>
    ensures { result ≡ type_by fields.entry }
{
    let name = fields.next()?;
    let source = fields.next()?;
    let target = fields.next()?;
    let owner = fields.next()?;
    let store = fields.next()?;
    if fields.next().is_some() {
        return None;
    }
    Some(HeaderLine::EdgeType(
        name_of(name)?,
        name_of(source)?,
        name_of(target)?,
        owner_of(owner)?,
        store_of(store)?,
    ))
}

// `deny NAME`, after its first word
fn deny_by(mut fields: Fields<'_>) -> Option<HeaderLine>
    ensures { result ≡ deny_by fields.entry }
{
    let name = fields.next()?;
    if fields.next().is_some() {
        return None;
    }
    Some(HeaderLine::Deny(name_of(name)?))
}

// `begin`, after its one word
fn begin_by(mut fields: Fields<'_>) -> Option<HeaderLine>
    ensures { result ≡ begin_by fields.entry }
{
    if fields.next().is_some() {
        return None;
    }
    Some(HeaderLine::Begin)
}

fn name_of(text: &[u8]) -> Option<Word>
    ensures { result ≡ name_of text.now }
{
    let word = Word::read(text)?;
    if word.is_name() { Some(word) } else { None }
}

fn owner_of(word: &[u8]) -> Option<Owner>
    ensures { result ≡ owner_of word.now }
{
    if word == b"source".as_slice() {
        Some(Owner::Source)
    } else if word == b"target".as_slice() {
        Some(Owner::Target)
    } else if word == b"both".as_slice() {
        Some(Owner::Both)
    } else {
        None
    }
}

fn store_of(word: &[u8]) -> Option<Store>
    ensures { result ≡ store_of word.now }
{
    if word == b"index".as_slice() {
        Some(Store::Index)
    } else if word == b"forward".as_slice() {
        Some(Store::Forward)
    } else {
        None
    }
}
