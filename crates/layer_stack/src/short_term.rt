//! A term in less memory.
ghost use Rattle.std.specs.Prelude.{◌≡◌, IfOk, refl};
ghost use Rattle.std.specs.Cmp.{eq_by_cmp_equiv, partial_equiv_from_equiv, partial_order_from_agreeing_total};
ghost use Rattle.std.specs.Ordering.{as_partial_cmp, eq_by_cmp};
ghost use Rattle.layer_stack.specs.Places.{term_cmp, term_of};
ghost use Rattle.layer_stack.specs.Spans.{word_at};
ghost use Rattle.layer_stack.specs.TermOrder.{term_alike, term_total, term_writes};

use crate::TermKey;
use indexmap::Equivalent;
use std::alloc::{AllocError, Global};
use std::cmp::Ordering;
use std::hash::{Hash, Hasher};
use std::marker::Model;
use uni_base::{EntityId, Key, Word};

/// A term as runs and directories keep it: an id beside its type, or a word in a box.
#[derive(Drop)]
enum Packed {
    Id(u16, EntityId),
    Word(u16, Box<Word>),
}

/// A term in 16 bytes, and a word's in a box of its own. Contracts see the term.
#[derive(Drop)]
pub(crate) struct ShortTerm {
    packed: Packed,
}

impl Model for ShortTerm {
    ghost use Rattle.layer_stack.specs.declared.place.TermKey.{TermKey};
    ghost use Rattle.layer_stack.specs.ShortTerms.{told};

    ghost Value = { TermKey };

    ghost view = { λ s. told s.packed };
}

impl ShortTerm {
    /// The term of a type and a key.
    pub(crate) fn of(alloc: Global, type_no: u16, key: Key) -> Result<ShortTerm, AllocError>
        ensures { IfOk result (λ short. short ≡ term_of type_no key) }
    {
        let packed = match key {
            Key::Id(id) => Packed::Id(type_no, id),
            Key::Word(word) => Packed::Word(type_no, Box::new(alloc, word)?),
        };
        Ok(ShortTerm { packed })
    }

    /// The same term once more.
    pub(crate) fn copy(&self, alloc: Global) -> Result<ShortTerm, AllocError>
        ensures { IfOk result (λ short. short ≡ self.now) }
    {
        let packed = match &self.packed {
            Packed::Id(type_no, id) => Packed::Id(*type_no, *id),
            Packed::Word(type_no, word) => Packed::Word(*type_no, Box::new(alloc, **word)?),
        };
        Ok(ShortTerm { packed })
    }

    /// The term itself.
    pub(crate) fn term(&self) -> TermKey
        ensures { result ≡ self.now }
    {
        match &self.packed {
            Packed::Id(type_no, id) => TermKey {
                type_no: *type_no,
                key: Key::Id(*id),
            },
            Packed::Word(type_no, word) => TermKey {
                type_no: *type_no,
                key: Key::Word(**word),
            },
        }
    }

    /// The word at which it starts, if it is of a type and starts at one.
    pub(crate) fn word_at(&self, type_no: u16) -> Option<Word>
        ensures { result ≡ word_at type_no self.now }
    {
        match &self.packed {
            Packed::Word(of, word) if *of == type_no => Some(**word),
            _ => None,
        }
    }

    /// Whether it is a term.
    fn is(&self, term: &TermKey) -> bool
        ensures { result ≡ eq_by_cmp term_cmp term.now self.now }
    {
        match (&self.packed, &term.key) {
            (Packed::Id(type_no, id), Key::Id(of)) => term.type_no == *type_no && of == id,
            (Packed::Word(type_no, word), Key::Word(of)) => {
                term.type_no == *type_no && of.cmp(&**word).is_eq()
            }
            _ => false,
        }
    }

    /// The order of the term and another.
    pub(crate) fn compare(&self, other: &TermKey) -> Ordering
        ensures { result ≡ term_cmp self.now other.now }
    {
        match &self.packed {
            Packed::Id(type_no, id) => match type_no.cmp(&other.type_no) {
                Ordering::Equal => match &other.key {
                    Key::Id(of) => id.cmp(of),
                    Key::Word(_) => Ordering::Less,
                },
                unequal => unequal,
            },
            Packed::Word(type_no, word) => match type_no.cmp(&other.type_no) {
                Ordering::Equal => match &other.key {
                    Key::Id(_) => Ordering::Greater,
                    Key::Word(of) => (**word).cmp(of),
                },
                unequal => unequal,
            },
        }
    }
}

impl PartialEq for ShortTerm {
    ghost eq = { eq_by_cmp term_cmp };

    ghost laws = { partial_equiv_from_equiv (eq_by_cmp_equiv term_total) };

    fn eq(&self, other: &ShortTerm) -> bool {
        self.cmp(other) == Ordering::Equal
    }
}

impl Eq for ShortTerm {
    ghost laws = { eq_by_cmp_equiv term_total };
}

/// As the terms themselves are ordered.
impl Ord for ShortTerm {
    ghost cmp = { term_cmp };

    ghost total = { term_total };

    ghost matches_partial_cmp = { λ _ _. refl };

    ghost matches_eq = { λ _ _. refl };

    fn cmp(&self, other: &ShortTerm) -> Ordering {
        match (&self.packed, &other.packed) {
            (Packed::Id(type_no, id), Packed::Id(of, other)) => match type_no.cmp(of) {
                Ordering::Equal => id.cmp(other),
                unequal => unequal,
            },
            (Packed::Id(type_no, _), Packed::Word(of, _)) => match type_no.cmp(of) {
                Ordering::Equal => Ordering::Less,
                unequal => unequal,
            },
            (Packed::Word(type_no, _), Packed::Id(of, _)) => match type_no.cmp(of) {
                Ordering::Equal => Ordering::Greater,
                unequal => unequal,
            },
            (Packed::Word(type_no, word), Packed::Word(of, other)) => match type_no.cmp(of) {
                Ordering::Equal => (**word).cmp(&**other),
                unequal => unequal,
            },
        }
    }
}

impl PartialOrd for ShortTerm {
    ghost partial_cmp = { as_partial_cmp term_cmp };

    ghost laws = { partial_order_from_agreeing_total term_cmp term_total (λ _ _. refl) (λ _ _. refl) };

    fn partial_cmp(&self, other: &ShortTerm) -> Option<Ordering> {
        Some(self.cmp(other))
    }
}

/// As the term itself is hashed.
impl Hash for ShortTerm {
    ghost hash_input = { term_writes };

    ghost respects_eq = { term_alike };

    fn hash<H: Hasher>(&self, state: &mut H) {
        match &self.packed {
            Packed::Id(type_no, id) => {
                type_no.hash(state);
                id.hash(state);
            }
            Packed::Word(type_no, word) => {
                type_no.hash(state);
                (**word).hash(state);
            }
        }
    }
}

/// A directory is asked by the term.
impl Equivalent<ShortTerm> for &TermKey {
    ghost equivalent = { λ q k. eq_by_cmp term_cmp q.now k };

    ghost respects_hash = { λ q k. term_alike q.now k };

    ghost respects_eq = { λ q. (eq_by_cmp_equiv term_total).congr q.now };

    fn equivalent(&self, key: &ShortTerm) -> bool {
        key.is(*self)
    }
}
