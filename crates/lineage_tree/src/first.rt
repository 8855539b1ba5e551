ghost use Rattle.std.specs.Prelude.{◌≡◌, ◌++◌, Bool, IfOk, OnOk, length, map, true};
ghost use Rattle.std.specs.Option.{option_map};
ghost use Rattle.lineage_tree.specs.Accepted.{edges_of, first_accepted, first_or_none, some_accepted, verdicts_of};
ghost use Rattle.lineage_tree.specs.Entries.{entries_of, name_earlier, names_below};
ghost use Rattle.lineage_tree.specs.Judges.{IsJudge};
ghost use Rattle.lineage_tree.specs.Lists.{lists_of};
ghost use Rattle.lineage_tree.specs.Tree.{tree_of};
ghost use Rattle.uni_base.specs.declared.edge.Held.{Held as Edges};

use crate::{Lineage, LineageBook, Verdicts};
use std::alloc::{AllocError, Global};
use uni_base::{EdgeList, Held};

impl Lineage {
    /// The edges of the first list of the tree that the judge accepts whole; none where the tree does not
    /// hold. The verdicts are those that the book gives for this judge, and the judge says the same of an
    /// edge whenever it is asked.
    pub fn first<F: Fn(&Held) -> bool>(
        &self,
        alloc: Global,
        book: &LineageBook,
        verdicts: &Verdicts,
        judge: &F,
    ) -> Result<Option<EdgeList>, AllocError>
        requires callable { F.IsAlwaysCallable judge.now }
        requires names { names_below (length book.now) (tree_of self.now) ≡ true }
        requires count { length verdicts.now ≡ length book.now }
        ensures { IfOk result (λ found. (accepts : Edges → Bool) → IsJudge F.Fn judge.now accepts
            → verdicts.now ≡ verdicts_of accepts book.now
            → found ≡ option_map edges_of (first_accepted accepts (lists_of book.now (tree_of self.now)))) }
    {
        if !self.holds(verdicts, judge) {
            return Ok(None);
        }
        let mut edges = EdgeList::new(alloc);
        add_first(book.entries(), self, verdicts, judge, &mut edges)?;
        Ok(Some(edges))
    }
}

// Adds the edges of the first list that the judge accepts whole, of a tree that holds. Only parts that hold
// are gone into, so nothing is taken back.
fn add_first<F: Fn(&Held) -> bool>(
    entries: &[Lineage],
    tree: &Lineage,
    verdicts: &Verdicts,
    judge: &F,
    edges: &mut EdgeList,
) -> Result<(), AllocError>
    requires callable { F.IsAlwaysCallable judge.now }
    requires book { name_earlier 0 (map tree_of entries.now) ≡ true }
    requires names { names_below (length entries.now) (tree_of tree.now) ≡ true }
    requires count { length verdicts.now ≡ length entries.now }
    ensures { OnOk result ((accepts : Edges → Bool) → IsJudge F.Fn judge.now accepts
        → verdicts.now ≡ verdicts_of accepts (entries_of (map tree_of entries.now))
        → some_accepted accepts (lists_of (entries_of (map tree_of entries.now)) (tree_of tree.now)) ≡ true
        → edges.new ≡ edges.old
        ++ edges_of (first_or_none accepts (lists_of (entries_of (map tree_of entries.now)) (tree_of tree.now)))) }
{
    match tree {
        Lineage::Edge(held) => edges.push(held.edge),
        Lineage::AllOf(members) => {
            for member in members {
                add_first(entries, member, verdicts, judge, edges)?;
            }
            Ok(())
        }
        Lineage::AnyOf(members) => {
            for member in members {
                if member.holds(verdicts, judge) {
                    return add_first(entries, member, verdicts, judge, edges);
                }
            }
            Ok(())
        }
        Lineage::Entry(entry) => add_first(
            entries,
            &entries[*entry as usize],
            verdicts,
            judge,
            edges,
        ),
    }
}
