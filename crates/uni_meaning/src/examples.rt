//! Questions over a small table, worked out by computation: each contract says what the definitions give.
ghost use Rattle.std.specs.Prelude.{◌≡◌, [], ◌∷◌, codes};
ghost use Rattle.uni_base.specs.declared.edge.Key.TheVariants.{Id, Word};
ghost use Rattle.uni_table.specs.Example.{small, user, friend, edge};
ghost use Rattle.uni_table.specs.declared.command.AudienceText.TheVariants.{Only, Public, Circle};
ghost use Rattle.uni_table.specs.declared.command.Command.TheVariants.{Cut, Gone};
ghost use Rattle.query_tree.specs.declared.kind.ListKind.TheVariants.{And, Or, Difference, WeakAnd, StrongOr};
ghost use Rattle.query_tree.specs.declared.kind.JoinKind.TheVariants.{Apply, Extract};
ghost use Rattle.query_tree.specs.declared.query.Mark.TheVariants.{Plain, Hits, Weight};
ghost use Rattle.query_check.specs.Plan.{list_plan, join_plan, prefix_plan, with_plan, no_plans, term_plan};
ghost use Rattle.uni_meaning.specs.Example.{shown, ids, then, friends, romans, two, tagged};

/// A term has its edges' targets, in rank order, each with its edge.
pub fn a_term()
    ensures { shown small 9 friends 10 ≡ (2, (0, Id 1, 2) ∷ []) ∷ (3, (0, Id 1, 3) ∷ []) ∷ (5, (0, Id 1, 5) ∷ []) ∷ [] }
{}

/// `and` joins the lineages of its operands; `or` takes the first operand's, `difference` what the second lacks.
pub fn sets()
    ensures both { shown small 9 (list_plan And (two friends Plain romans)) 10 ≡ (2, (0, Id 1, 2) ∷ (1, Word (codes "rome"), 2) ∷ []) ∷ (5, (0, Id 1, 5) ∷ (1, Word (codes "rome"), 5) ∷ []) ∷ [] }
    ensures lacking { shown small 9 (list_plan Difference (two friends Plain romans)) 10 ≡ (3, (0, Id 1, 3) ∷ []) ∷ [] }
    ensures either { shown small 9 (list_plan Or (two friends Plain romans)) 10 ≡ (2, (0, Id 1, 2) ∷ []) ∷ (3, (0, Id 1, 3) ∷ []) ∷ (5, (0, Id 1, 5) ∷ [])
        ∷ (6, (1, Word (codes "rome"), 6) ∷ []) ∷ (4, (1, Word (codes "rome"), 4) ∷ []) ∷ [] }
{}

/// A count is spent shard by shard, in rank order, whatever an outer operator discards later.
pub fn counts_are_spent()
    ensures once { shown small 9 (list_plan WeakAnd (two friends (Hits 1) romans)) 10 ≡ (2, (0, Id 1, 2) ∷ (1, Word (codes "rome"), 2) ∷ []) ∷ (5, (0, Id 1, 5) ∷ (1, Word (codes "rome"), 5) ∷ []) ∷ (6, (1, Word (codes "rome"), 6) ∷ []) ∷ [] }
    ensures each_shard { ids (then small (Cut 0 (codes "1") 5 ∷ [])) 9 (list_plan WeakAnd (two friends (Hits 1) romans)) 10 ≡ 2 ∷ 5 ∷ 6 ∷ [] }
    ensures before_the_outer { ids (then small (edge 1 (codes "oslo") 4 Public ∷ [])) 9 (list_plan And (with_plan (list_plan WeakAnd (two friends (Hits 1) romans)) Plain (with_plan (list_plan Or (with_plan (term_plan 1 (Word (codes "oslo"))) Plain no_plans)) Plain no_plans))) 10 ≡ [] }
{}

/// A weight is asked at each step of the walk.
pub fn weights_are_asked_at_each_step()
    ensures all { ids small 9 (list_plan StrongOr (with_plan friends Plain (with_plan romans (Weight 1 2) no_plans))) 10 ≡ 2 ∷ 3 ∷ 5 ∷ 6 ∷ 4 ∷ [] }
    ensures not_below { ids (then small (user 7 80 ∷ friend (codes "1") 7 ∷ [])) 9 (list_plan StrongOr (with_plan friends Plain (with_plan romans (Weight 1 2) no_plans))) 10 ≡ 2 ∷ 3 ∷ 5 ∷ 6 ∷ 4 ∷ [] }
{}

/// A join goes through the first hits of its inner query, and its lineages begin with its own edge.
pub fn joins()
    ensures tagged { shown small 9 (tagged 1000) 10 ≡ (102, (2, Id 3, 102) ∷ (0, Id 1, 3) ∷ []) ∷ (101, (2, Id 2, 101) ∷ (0, Id 1, 2) ∷ []) ∷ [] }
    ensures one { ids small 9 (tagged 1) 10 ≡ 101 ∷ [] }
    ensures back { shown small 9 (join_plan Extract 3 1000 (tagged 1000)) 10 ≡ (1, (3, Id 102, 1) ∷ (2, Id 3, 102) ∷ (0, Id 1, 3) ∷ []) ∷ (4, (3, Id 102, 4) ∷ (2, Id 3, 102) ∷ (0, Id 1, 3) ∷ []) ∷ [] }
{}

/// A hit is shown by its first lineage that is authorised whole, and the cut comes before.
pub fn one_lineage_is_authorised_whole()
    ensures next { shown (then small (edge 2 (codes "3") 102 Only ∷ [])) 9 (tagged 1000) 10 ≡ (102, (2, Id 5, 102) ∷ (0, Id 1, 5) ∷ []) ∷ (101, (2, Id 2, 101) ∷ (0, Id 1, 2) ∷ []) ∷ [] }
    ensures hidden { ids (then small (edge 2 (codes "3") 102 Only ∷ edge 2 (codes "5") 102 Only ∷ [])) 9 (tagged 1000) 10 ≡ 101 ∷ [] }
    ensures cut_first { ids (then small (edge 2 (codes "3") 102 Only ∷ edge 2 (codes "5") 102 Only ∷ [])) 9 (tagged 1000) 1 ≡ [] }
    ensures owner { shown (then small (edge 2 (codes "3") 102 Only ∷ edge 2 (codes "5") 102 Only ∷ [])) 3 (tagged 1000) 1 ≡ (102, (2, Id 3, 102) ∷ (0, Id 1, 3) ∷ []) ∷ [] }
    ensures not_mixed { ids (then small (edge 2 (codes "3") 102 Only ∷ edge 0 (codes "1") 5 Only ∷ [])) 9 (tagged 1000) 10 ≡ 101 ∷ [] }
{}

/// Members of a circle see its edges, and denied viewers none of the denier's, but for their own.
pub fn circles_and_denials()
    ensures member { ids (then small (edge 0 (codes "5") 6 Only ∷ edge 0 (codes "1") 2 (Circle 0 (codes "5")) ∷ [])) 6 friends 10 ≡ 2 ∷ 3 ∷ 5 ∷ [] }
    ensures stranger { ids (then small (edge 0 (codes "5") 6 Only ∷ edge 0 (codes "1") 2 (Circle 0 (codes "5")) ∷ [])) 9 friends 10 ≡ 3 ∷ 5 ∷ [] }
    ensures denied { ids (then small (user 9 1 ∷ edge 4 (codes "3") 9 Public ∷ [])) 9 friends 10 ≡ 2 ∷ 5 ∷ [] }
    ensures own { ids (then small (edge 4 (codes "1") 3 Public ∷ [])) 3 friends 10 ≡ 3 ∷ [] }
    ensures others { ids (then small (user 9 1 ∷ edge 4 (codes "3") 9 Public ∷ [])) 1 friends 10 ≡ 2 ∷ 3 ∷ 5 ∷ [] }
{}

/// Ranks and rows that change are read as they stand.
pub fn changes_are_read()
    ensures rank { ids (then small (user 5 95 ∷ [])) 9 friends 10 ≡ 5 ∷ 2 ∷ 3 ∷ [] }
    ensures gone { ids (then small (Gone 3 ∷ Gone 3 ∷ [])) 9 friends 10 ≡ 2 ∷ 5 ∷ [] }
{}

/// A prefix term is the `or` of its keys' terms, in the order of the keys.
pub fn prefixes()
    ensures two_keys { shown (then small (edge 1 (codes "roma") 3 Public ∷ edge 1 (codes "roma") 2 Public ∷ [])) 9 (prefix_plan 1 (codes "rom")) 10 ≡ (2, (1, Word (codes "roma"), 2) ∷ []) ∷ (3, (1, Word (codes "roma"), 3) ∷ [])
        ∷ (5, (1, Word (codes "rome"), 5) ∷ []) ∷ (6, (1, Word (codes "rome"), 6) ∷ []) ∷ (4, (1, Word (codes "rome"), 4) ∷ []) ∷ [] }
    ensures next_key { shown (then small (edge 1 (codes "roma") 3 Public ∷ edge 1 (codes "roma") 2 Only ∷ [])) 9 (prefix_plan 1 (codes "rom")) 1 ≡ (2, (1, Word (codes "rome"), 2) ∷ []) ∷ [] }
    ensures no_key { ids small 9 (prefix_plan 1 (codes "os")) 10 ≡ [] }
{}
