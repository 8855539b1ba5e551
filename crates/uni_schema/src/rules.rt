ghost use Rattle.std.specs.Prelude.{◌≡◌};
ghost use Rattle.uni_schema.specs.Rules.{vertical_rules, type_rules, deny_rules, is_word_name};

use crate::{Origin, Owner, Schema, SchemaRefusal, Store};
use uni_base::Word;

/// The most verticals, types and types that deny.
const VERTICALS: u16 = 16;

const TYPES: u16 = 256;

const DENIALS: usize = 8;

// Whether a name is `word`, by which edges from words are declared.
pub(crate) fn is_word_name(name: &Word) -> bool
    ensures { result ≡ is_word_name name.now }
{
    name.bytes() == b"word".as_slice()
}

impl Schema {
    // Why a vertical may not be declared, by the first rule that it breaks.
    pub(crate) fn vertical_refusal(
        &self,
        line_no: u64,
        name: &Word,
        shards: u128,
        replicas: u128,
    ) -> Option<SchemaRefusal>
        ensures { result ≡ vertical_rules line_no self.now name.now shards replicas }
    {
        if is_word_name(name) || self.vertical_no(name).is_some() {
            Some(SchemaRefusal::NamedTwice(line_no))
        } else if !(1 <= shards && shards <= 64) || !(1 <= replicas && replicas <= 4) {
            Some(SchemaRefusal::OutOfRange(line_no))
        } else if self.verticals() >= VERTICALS {
            Some(SchemaRefusal::TooMany(line_no))
        } else {
            None
        }
    }

    // Why a type may not be declared, by the first rule that it breaks.
    pub(crate) fn type_refusal(
        &self,
        line_no: u64,
        name: &Word,
        source: &Word,
        target: &Word,
        owner: Owner,
        store: Store,
    ) -> Option<SchemaRefusal>
        ensures { result ≡ type_rules line_no self.now name.now source.now target.now owner store }
    {
        let from_words = is_word_name(source);
        if self.type_no(name).is_some() {
            Some(SchemaRefusal::NamedTwice(line_no))
        } else if !(from_words || self.vertical_no(source).is_some())
            || self.vertical_no(target).is_none()
        {
            Some(SchemaRefusal::UnknownVertical(line_no))
        } else if from_words && (owner != Owner::Target || store != Store::Index) {
            Some(SchemaRefusal::WordSource(line_no))
        } else if self.types() >= TYPES {
            Some(SchemaRefusal::TooMany(line_no))
        } else {
            None
        }
    }

    // Why a type may not deny, by the first rule that is broken.
    pub(crate) fn deny_refusal(&self, line_no: u64, name: &Word) -> Option<SchemaRefusal>
        ensures { result ≡ deny_rules line_no self.now name.now }
    {
        if self.denials() >= DENIALS {
            return Some(SchemaRefusal::TooMany(line_no));
        }
        let Some(no) = self.type_no(name) else {
            return Some(SchemaRefusal::BadDeny(line_no));
        };
        let type_def = self.type_def(no);
        if type_def.store == Store::Index && type_def.origin != Origin::Words && !type_def.deny {
            None
        } else {
            Some(SchemaRefusal::BadDeny(line_no))
        }
    }
}
