ghost use Rattle.std.specs.Prelude.{refl};
ghost use Rattle.std.specs.Cmp.{eq_by_cmp_equiv, partial_equiv_from_equiv, partial_order_from_agreeing_total};
ghost use Rattle.std.specs.Ordering.{as_partial_cmp, eq_by_cmp};
ghost use Rattle.uni_base.specs.EdgeOrder.{key_cmp, key_cmp-total};
ghost use Rattle.uni_base.specs.KeyHash.{key_alike, key_writes};

use crate::{EntityId, Word};
use std::cmp::Ordering;
use std::hash::{Hash, Hasher};

/// Where an edge starts: at an entity or at a word. Ids come before words.
#[derive(Clone, Copy, Debug)]
pub enum Key {
    Id(EntityId),
    Word(Word),
}

impl PartialEq for Key {
    ghost eq = { eq_by_cmp key_cmp };

    ghost laws = { partial_equiv_from_equiv (eq_by_cmp_equiv key_cmp-total) };

    fn eq(&self, other: &Key) -> bool {
        self.cmp(other) == Ordering::Equal
    }
}

impl Eq for Key {
    ghost laws = { eq_by_cmp_equiv key_cmp-total };
}

impl Ord for Key {
    ghost cmp = { key_cmp };

    ghost total = { key_cmp-total };

    ghost matches_partial_cmp = { λ _ _. refl };

    ghost matches_eq = { λ _ _. refl };

    fn cmp(&self, other: &Key) -> Ordering {
        match (self, other) {
            (Key::Id(a), Key::Id(b)) => a.cmp(b),
            (Key::Id(_), Key::Word(_)) => Ordering::Less,
            (Key::Word(_), Key::Id(_)) => Ordering::Greater,
            (Key::Word(a), Key::Word(b)) => a.cmp(b),
        }
    }
}

impl PartialOrd for Key {
    ghost partial_cmp = { as_partial_cmp key_cmp };

    ghost laws = { partial_order_from_agreeing_total key_cmp key_cmp-total (λ _ _. refl) (λ _ _. refl) };

    fn partial_cmp(&self, other: &Key) -> Option<Ordering> {
        Some(self.cmp(other))
    }
}

/// An id by its number, and a word by its bytes.
impl Hash for Key {
    ghost hash_input = { key_writes };

    ghost respects_eq = { key_alike };

    fn hash<H: Hasher>(&self, state: &mut H) {
        match self {
            Key::Id(id) => id.hash(state),
            Key::Word(word) => word.hash(state),
        }
    }
}

/// An edge without its audience: its type's number, its key and its target, in this order.
#[derive(Clone, Copy, Debug, PartialEq, Eq, PartialOrd, Ord)]
pub struct EdgeRef {
    pub type_no: u16,
    pub key: Key,
    pub target: EntityId,
}

/// Who may see an edge beside its owners: everybody, nobody, or the members of a circle, which is
/// a type and a key whose edges lead to them.
#[derive(Clone, Copy, Debug, PartialEq, Eq)]
pub enum Audience {
    Public,
    Only,
    Circle(u16, Key),
}

/// An edge with its audience.
#[derive(Clone, Copy, Debug, PartialEq, Eq)]
pub struct Held {
    pub edge: EdgeRef,
    pub audience: Audience,
}
