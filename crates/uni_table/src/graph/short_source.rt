//! A type and a key in less memory.
ghost use Rattle.std.specs.Prelude.{◌≡◌, IfOk};
ghost use Rattle.std.specs.Cmp.{partial_equiv_from_equiv};
ghost use Rattle.uni_table.specs.GraphKeys.{source_eq};
ghost use Rattle.uni_table.specs.GraphOrder.{lead_of};
ghost use Rattle.uni_table.specs.ShortSources.{source_alike, source_equivalence, source_of, source_writes};

use super::numbers::Source;
use super::order::lead;
use indexmap::Equivalent;
use std::alloc::{AllocError, Global};
use std::hash::{Hash, Hasher};
use std::marker::Model;
use uni_base::{EntityId, Key, Word};

/// A type and a key as the rows keep them: an id beside its type, or a word in a box.
#[derive(Drop)]
enum Packed {
    Id(u16, EntityId),
    Word(u16, Box<Word>),
}

/// A source in 16 bytes, and a word's in a box of its own. Contracts see the source.
#[derive(Drop)]
pub(crate) struct ShortSource {
    packed: Packed,
}

impl Model for ShortSource {
    ghost use Rattle.uni_table.specs.declared.graph.numbers.Source.{Source};
    ghost use Rattle.uni_table.specs.ShortSources.{told};

    ghost Value = { Source };

    ghost view = { λ s. told s.packed };
}

impl ShortSource {
    /// The source of a type and a key.
    pub fn of(alloc: Global, type_no: u16, key: Key) -> Result<ShortSource, AllocError>
        ensures { IfOk result (λ short. short ≡ source_of type_no key) }
    {
        let packed = match key {
            Key::Id(id) => Packed::Id(type_no, id),
            Key::Word(word) => Packed::Word(type_no, Box::new(alloc, word)?),
        };
        Ok(ShortSource { packed })
    }

    /// The source itself.
    pub fn source(&self) -> Source
        ensures { result ≡ self.now }
    {
        match &self.packed {
            Packed::Id(type_no, id) => Source {
                type_no: *type_no,
                key: Key::Id(*id),
            },
            Packed::Word(type_no, word) => Source {
                type_no: *type_no,
                key: Key::Word(**word),
            },
        }
    }

    /// The type and the key as one number.
    pub fn lead(&self) -> u64
        ensures { result ≡ lead_of self.now.type_no self.now.key }
    {
        match &self.packed {
            Packed::Id(type_no, id) => lead(*type_no, &Key::Id(*id)),
            Packed::Word(type_no, word) => lead(*type_no, &Key::Word(**word)),
        }
    }

    /// Whether it is a source.
    pub fn is(&self, source: &Source) -> bool
        ensures { result ≡ source_eq source.now self.now }
    {
        match (&self.packed, &source.key) {
            (Packed::Id(type_no, id), Key::Id(of)) => source.type_no == *type_no && of == id,
            (Packed::Word(type_no, word), Key::Word(of)) => {
                source.type_no == *type_no && of.cmp(&**word).is_eq()
            }
            _ => false,
        }
    }
}

impl Clone for ShortSource {
    ghost is_clone = { λ s t. t ≡ s };

    fn clone(&self) -> Result<ShortSource, AllocError> {
        let packed = match &self.packed {
            Packed::Id(type_no, id) => Packed::Id(*type_no, *id),
            Packed::Word(type_no, word) => {
                Packed::Word(*type_no, Box::new(*Box::allocator(word), **word)?)
            }
        };
        Ok(ShortSource { packed })
    }
}

impl PartialEq for ShortSource {
    ghost eq = { source_eq };

    ghost laws = { partial_equiv_from_equiv source_equivalence };

    fn eq(&self, other: &ShortSource) -> bool {
        other.is(&self.source())
    }
}

impl Eq for ShortSource {
    ghost laws = { source_equivalence };
}

/// As the source itself is hashed.
impl Hash for ShortSource {
    ghost hash_input = { source_writes };

    ghost respects_eq = { source_alike };

    fn hash<H: Hasher>(&self, state: &mut H) {
        match &self.packed {
            Packed::Id(type_no, id) => {
                type_no.hash(state);
                id.hash(state);
            }
            Packed::Word(type_no, word) => {
                type_no.hash(state);
                (**word).hash(state);
            }
        }
    }
}

/// The rows are asked by the source.
impl Equivalent<ShortSource> for &Source {
    ghost equivalent = { λ q k. source_eq q.now k };

    ghost respects_hash = { λ q k. source_alike q.now k };

    ghost respects_eq = { λ q. source_equivalence.congr q.now };

    fn equivalent(&self, key: &ShortSource) -> bool {
        key.is(*self)
    }
}
