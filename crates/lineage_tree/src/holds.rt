ghost use Rattle.std.specs.Prelude.{◌≡◌, Bool, List, length, true};
ghost use Rattle.std.specs.Fn.{FnReturnsAt};
ghost use Rattle.lineage_tree.specs.Accepted.{some_accepted, verdicts_of};
ghost use Rattle.lineage_tree.specs.Entries.{names_below};
ghost use Rattle.lineage_tree.specs.Holding.{holds_by};
ghost use Rattle.lineage_tree.specs.Judges.{IsJudge};
ghost use Rattle.lineage_tree.specs.Lists.{lists_of};
ghost use Rattle.lineage_tree.specs.Tree.{tree_of};
ghost use Rattle.uni_base.specs.declared.edge.Held.{Held as Edges};

use crate::{Lineage, Verdicts};
use uni_base::Held;

impl Lineage {
    /// Whether the judge accepts some one list of the tree whole. The verdicts are those that the tree's book
    /// gives for this judge, and the judge says the same of an edge whenever it is asked.
    pub fn holds<F: Fn(&Held) -> bool>(&self, verdicts: &Verdicts, judge: &F) -> bool
        requires callable { F.IsAlwaysCallable judge.now }
        requires names { names_below (length verdicts.now) (tree_of self.now) ≡ true }
        ensures { (accepts : Edges → Bool) (book : List (List (List Edges))) → IsJudge F.Fn judge.now accepts
            → verdicts.now ≡ verdicts_of accepts book → result ≡ some_accepted accepts (lists_of book (tree_of self.now)) }
    {
        holds(self, verdicts, judge)
    }
}

// What the judge says of an edge.
fn ask<F: Fn(&Held) -> bool>(judge: &F, held: &Held) -> bool
    requires { F.IsAlwaysCallable judge.now }
    ensures { FnReturnsAt F.Fn judge.now held.now result }
{
    judge(held)
}

// Whether a tree holds, by its forms.
fn holds<F: Fn(&Held) -> bool>(tree: &Lineage, verdicts: &Verdicts, judge: &F) -> bool
    requires callable { F.IsAlwaysCallable judge.now }
    requires names { names_below (length verdicts.now) (tree_of tree.now) ≡ true }
    ensures { (accepts : Edges → Bool) → IsJudge F.Fn judge.now accepts → result ≡ holds_by accepts verdicts.now (tree_of tree.now) }
{
    match tree {
        Lineage::Edge(held) => ask(judge, held),
        Lineage::AllOf(members) => {
            for member in members {
                if !holds(member, verdicts, judge) {
                    return false;
                }
            }
            true
        }
        Lineage::AnyOf(members) => {
            for member in members {
                if holds(member, verdicts, judge) {
                    return true;
                }
            }
            false
        }
        Lineage::Entry(entry) => verdicts.get(*entry),
    }
}
