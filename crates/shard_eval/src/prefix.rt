//! The trees of what a prefix term finds, taken in rank order.
ghost use Rattle.std.specs.Prelude.{◌≡◌, IfOk, Some, slice_get};
ghost use Rattle.std.specs.Option.{option_map};
ghost use Rattle.lineage_tree.specs.Tree.{any_of, forest_of, tree_of};
ghost use Rattle.shard_eval.specs.Found.{tree_at, KeepsLater};
ghost use Rattle.shard_eval.specs.Witnesses.{found_words_left, word_trees};
ghost use Rattle.uni_base.specs.KeySets.{united};

use crate::leaf::Leaf;
use lineage_tree::Lineage;
use posting_lists::Posting;
use prefix_terms::PrefixCursor;
use std::alloc::{AllocError, Global};
use uni_base::{DocCursor, DocKey, Key};

/// The postings of a prefix term that are still to come.
#[derive(Drop)]
pub(crate) struct PrefixWitness<'a> {
    pub type_no: u16,
    pub cursor: PrefixCursor<'a>,
}

impl<'a> PrefixWitness<'a> {
    /// The tree of an entity, if some word leads to it. What stands before it is passed.
    pub(crate) fn tree_at(
        &mut self,
        alloc: Global,
        key: DocKey,
    ) -> Result<Option<Lineage>, AllocError>
        ensures tree { IfOk result (λ tree. option_map tree_of tree ≡ tree_at (found_words_left self.old.type_no self.old.cursor) key) }
        ensures rest { KeepsLater key (found_words_left self.old.type_no self.old.cursor) (found_words_left self.new.type_no self.new.cursor) }
    {
        self.cursor.seek(key);
        match self.cursor.peek() {
            Some(next) if next == key => Ok(Some(self.any_tree(alloc, key)?)),
            _ => Ok(None),
        }
    }

    // Any of the edges to the current key.
    fn any_tree(&self, alloc: Global, key: DocKey) -> Result<Lineage, AllocError>
        requires { slice_get (united self.now.cursor.lists) 0 ≡ Some key }
        ensures { IfOk result (λ tree. tree_of tree ≡ any_of (forest_of (word_trees self.now.type_no self.now.cursor key))) }
    {
        let mut trees = Vec::new(alloc);
        for i in 0..self.cursor.words() {
            if let Some(audience) = self.cursor.audience(i) {
                let leaf = Leaf::of(self.type_no, Key::Word(self.cursor.word(i)));
                trees.push(leaf.tree(alloc, Posting { key, audience })?)?;
            }
        }
        Ok(Lineage::AnyOf(trees))
    }
}
