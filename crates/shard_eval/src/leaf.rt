ghost use Rattle.std.specs.Prelude.{◌≡◌, IfOk};
ghost use Rattle.layer_stack.specs.Places.{term_of};
ghost use Rattle.lineage_tree.specs.Tree.{tree_of};
ghost use Rattle.lineage_tree.specs.Tree.Tree.{edge};
ghost use Rattle.shard_eval.specs.Found.{held_by, led_by};
ghost use Rattle.shard_eval.specs.Resolution.{leaf_of};

use layer_stack::TermKey;
use lineage_tree::Lineage;
use posting_lists::Posting;
use std::alloc::{AllocError, Global};
use uni_base::{EdgeRef, Held, Key};

/// A term, and the entry of the book that led to its key, where a join did.
#[derive(Clone, Copy)]
pub(crate) struct Leaf {
    pub type_no: u16,
    pub key: Key,
    pub led: Option<u32>,
}

impl Leaf {
    /// The term of a type and key.
    pub(crate) fn of(type_no: u16, key: Key) -> Leaf
        ensures { result ≡ leaf_of type_no key }
    {
        Leaf {
            type_no,
            key,
            led: None,
        }
    }

    pub(crate) fn term(&self) -> TermKey
        ensures { result ≡ term_of self.now.type_no self.now.key }
    {
        TermKey {
            type_no: self.type_no,
            key: self.key,
        }
    }

    /// The tree of a posting of the term: its edge, and what led to the key.
    pub(crate) fn tree(&self, alloc: Global, posting: Posting) -> Result<Lineage, AllocError>
        ensures { IfOk result (λ tree. tree_of tree ≡ led_by self.now.led (edge (held_by self.now.type_no self.now.key posting))) }
    {
        let held = Held {
            edge: EdgeRef {
                type_no: self.type_no,
                key: self.key,
                target: posting.key.id,
            },
            audience: posting.audience,
        };
        let Some(entry) = self.led else {
            return Ok(Lineage::Edge(held));
        };
        let mut members = Vec::new(alloc);
        members.push(Lineage::Edge(held))?;
        members.push(Lineage::Entry(entry))?;
        Ok(Lineage::AllOf(members))
    }
}
