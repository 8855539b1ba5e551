ghost use Rattle.std.specs.Prelude.{◌≡◌, ◌==◌, ◌<◌, Bool, [], ◌∷◌, ◌++◌, length, map, OnErr, OnOk, IfOk, slice_get, Some, true};
ghost use Rattle.lineage_tree.specs.Accepted.{verdicts_of};
ghost use Rattle.lineage_tree.specs.Entries.{entries_of, name_earlier, names_below};
ghost use Rattle.lineage_tree.specs.Judges.{IsJudge};
ghost use Rattle.lineage_tree.specs.Lists.{lists_of};
ghost use Rattle.lineage_tree.specs.Tree.{tree_of};
ghost use Rattle.uni_base.specs.declared.edge.Held.{Held as Edges};

use crate::Lineage;
use std::alloc::{AllocError, Global};
use std::marker::Model;
use uni_base::Held;

/// One verdict for each entry of a book: whether some one of its lists is accepted whole.
#[derive(Drop)]
pub struct Verdicts {
    verdicts: Vec<bool>,
}

impl Model for Verdicts {
    ghost use Rattle.std.specs.Prelude.{Bool, List};

    ghost Value = { List Bool };

    ghost view = { λ v. v.verdicts.items };
}

impl Verdicts {
    fn new(alloc: Global) -> Verdicts
        ensures { result ≡ [] }
    {
        Verdicts {
            verdicts: Vec::new(alloc),
        }
    }

    fn push(&mut self, verdict: bool) -> Result<(), AllocError>
        ensures { OnOk result (self.new ≡ self.old ++ verdict ∷ []) }
    {
        self.verdicts.push(verdict)?;
        Ok(())
    }

    /// The verdict on an entry.
    pub fn get(&self, entry: u32) -> bool
        requires { entry < length self.now }
        ensures { slice_get self.now entry ≡ Some result }
    {
        self.verdicts[entry as usize]
    }
}

/// Trees that other trees name, each by its number. A tree in the book names only earlier ones. Contracts
/// see the book as the lists of edges that each of its trees stands for.
#[derive(Drop)]
pub struct LineageBook {
    entries: Vec<Lineage>,
}

impl Model for LineageBook {
    ghost use Rattle.std.specs.Prelude.{◌≡◌, ◌≤◌, List, length, map, true};
    ghost use Rattle.uni_base.specs.declared.edge.Held.{Held};

    ghost Value = { List (List (List Held)) };

    ghost use Rattle.lineage_tree.specs.Entries.{entries_of, name_earlier};
    ghost use Rattle.lineage_tree.specs.Tree.{tree_of};

    ghost view = { λ b. entries_of (map tree_of b.entries.items) };

    ghost invariant = { λ b. (name_earlier 0 (map tree_of b.entries.items) ≡ true) × (length b.entries.items ≤ 4294967295) };
}

impl LineageBook {
    /// The empty book.
    pub fn new(alloc: Global) -> LineageBook
        ensures { result ≡ [] }
    {
        LineageBook {
            entries: Vec::new(alloc),
        }
    }

    /// How many entries it has.
    pub fn len(&self) -> u32
        ensures { result ≡ length self.now }
    {
        self.entries.len() as u32
    }

    pub fn is_empty(&self) -> bool
        ensures { result ≡ (length self.now == 0) }
    {
        self.entries.is_empty()
    }

    /// Adds a tree, and gives its number. A book that finds no memory stays as it was, and drops the tree.
    pub fn push(&mut self, tree: Lineage) -> Result<u32, AllocError>
        requires names { names_below (length self.old) (tree_of tree) ≡ true }
        requires room { length self.old < 4294967295 }
        ensures ok { IfOk result (λ n. (n ≡ length self.old)
            × (self.new ≡ self.old ++ lists_of self.old (tree_of tree) ∷ [])) }
        ensures err { OnErr result (self.new ≡ self.old) }
    {
        let number = self.len();
        self.entries.push(tree)?;
        Ok(number)
    }

    /// A verdict on each entry. The judge says the same of an edge whenever it is asked.
    pub fn judge<F: Fn(&Held) -> bool>(
        &self,
        alloc: Global,
        judge: &F,
    ) -> Result<Verdicts, AllocError>
        requires { F.IsAlwaysCallable judge.now }
        ensures count { IfOk result (λ verdicts. length verdicts ≡ length self.now) }
        ensures verdicts { IfOk result (λ verdicts. (accepts : Edges → Bool) → IsJudge F.Fn judge.now accepts
            → verdicts ≡ verdicts_of accepts self.now) }
    {
        judge_all(alloc, self.entries(), judge)
    }

    // The trees, in the order of their numbers.
    pub(crate) fn entries(&self) -> &[Lineage]
        ensures lists { entries_of (map tree_of result.now) ≡ self.now }
        ensures names { name_earlier 0 (map tree_of result.now) ≡ true }
    {
        self.entries.as_slice()
    }
}

// Judges one entry after the other. Each names only such as are judged by then, so no entry is looked into
// from another.
fn judge_all<F: Fn(&Held) -> bool>(
    alloc: Global,
    entries: &[Lineage],
    judge: &F,
) -> Result<Verdicts, AllocError>
    requires callable { F.IsAlwaysCallable judge.now }
    requires names { name_earlier 0 (map tree_of entries.now) ≡ true }
    ensures count { IfOk result (λ verdicts. length verdicts ≡ length entries.now) }
    ensures verdicts { IfOk result (λ verdicts. (accepts : Edges → Bool) → IsJudge F.Fn judge.now accepts
        → verdicts ≡ verdicts_of accepts (entries_of (map tree_of entries.now))) }
{
    let mut verdicts = Verdicts::new(alloc);
    for entry in entries {
        let verdict = entry.holds(&verdicts, judge);
        verdicts.push(verdict)?;
    }
    Ok(verdicts)
}
