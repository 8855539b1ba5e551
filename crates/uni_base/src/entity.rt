ghost use Rattle.std.specs.Prelude.{◌≡◌, ◌<◌, None, ◌↔◌, IfSome};
ghost use Rattle.std.proofs.Common.{rules};
ghost use Rattle.std.specs.Cmp.{partial_order_from_own_ties};
ghost use Rattle.std.specs.Cmp.Rules.{comparing};
ghost use Rattle.uni_base.specs.RankOrder.{doc_cmp};
ghost use Rattle.std.specs.Ordering.{as_partial_cmp};

use std::cmp::Ordering;
use std::marker::Model;

/// The static rank of an entity. A higher rank comes first in every list of hits.
#[derive(Clone, Copy, Debug, PartialEq, Eq, PartialOrd, Ord)]
pub struct Rank(pub u32);

/// The number of an entity, from 1 on; contracts see the number.
#[derive(Clone, Copy, Debug, PartialEq, Eq, PartialOrd, Ord, Hash)]
pub struct EntityId(u64);

impl Model for EntityId {
    ghost use Rattle.std.specs.Prelude.{ℕ, ◌<◌};

    ghost Value = { ℕ };

    ghost view = { λ e. e.0 };

    ghost invariant = { λ e. 0 < e.0 };

    ghost inverse = { λ n. record { 0 = n } };
}

impl EntityId {
    /// The entity of a number; 0 numbers none.
    pub fn new(n: u64) -> Option<EntityId>
        ensures none { (result ≡ None) ↔ (n ≡ 0) }
        ensures some { IfSome result (λ id. id ≡ n) }
    {
        if n == 0 { None } else { Some(EntityId(n)) }
    }

    pub fn get(self) -> u64
        ensures number { result ≡ self }
        ensures some { 0 < result }
    {
        self.0
    }
}

/// The place of an entity in rank order: by rank, highest first, then by id, lowest first. This is
/// the order of the Unicorn paper's document ids.
#[derive(Clone, Copy, Debug, PartialEq, Eq)]
pub struct DocKey {
    pub rank: Rank,
    pub id: EntityId,
}

impl Ord for DocKey {
    ghost cmp = { doc_cmp };

    ghost total = { Prim.search (comparing, rules) };

    ghost matches_partial_cmp = { Prim.search (comparing, rules) };

    ghost matches_eq = { Prim.search (comparing, rules) };

    fn cmp(&self, other: &DocKey) -> Ordering {
        other
            .rank
            .0
            .cmp(&self.rank.0)
            .then(self.id.get().cmp(&other.id.get()))
    }
}

impl PartialOrd for DocKey {
    ghost partial_cmp = { as_partial_cmp doc_cmp };

    ghost laws = { partial_order_from_own_ties (Prim.search (comparing, rules)) (Prim.search (comparing, rules)) };

    fn partial_cmp(&self, other: &DocKey) -> Option<Ordering> {
        Some(self.cmp(other))
    }
}
