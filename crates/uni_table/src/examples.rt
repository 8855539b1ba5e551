//! A small table, worked out by computation: each contract says what the definitions give.
ghost use Rattle.std.specs.Prelude.{◌≡◌, [], ◌∷◌, None, Some, codes, length, map};
ghost use Rattle.uni_base.specs.StandardLimits.{standard_limits};
ghost use Rattle.uni_base.specs.declared.edge.Audience.TheVariants.{Only as OnlyAudience, Circle as CircleAudience};
ghost use Rattle.uni_base.specs.declared.edge.Key.TheVariants.{Id, Word};
ghost use Rattle.uni_table.specs.Commands.{next, refuses};
ghost use Rattle.uni_table.specs.Contents.{audience_at, entity_at};
ghost use Rattle.uni_table.specs.Example.{social, user, photo, edge, friend, small, with, at_second, at_third, friends_of_1, ids_of, named};
ghost use Rattle.uni_table.specs.Lists.{touching, shard_edges, ending};
ghost use Rattle.uni_table.specs.declared.command.AudienceText.TheVariants.{Only, Public, Circle};
ghost use Rattle.uni_table.specs.declared.command.Command.TheVariants.{Cut, Edge, Gone};
ghost use Rattle.uni_table.specs.declared.refusal.FeedRefusal.TheVariants.{NoSource, NoTarget, UnknownCircle, Elsewhere, ForwardFull, TableFull};

/// Users stand by rank in two shards, those of one rank by id.
pub fn shards_are_ranked()
    ensures even { ids_of small 0 0 ≡ 2 ∷ 6 ∷ 4 ∷ [] }
    ensures odd { ids_of small 0 1 ≡ 3 ∷ 5 ∷ 1 ∷ [] }
    ensures photos { ids_of small 1 0 ≡ 102 ∷ 101 ∷ [] }
    ensures friends { friends_of_1 small ≡ 2 ∷ 3 ∷ 5 ∷ [] }
{}

/// A rank that is changed moves the user in every list.
pub fn a_rank_changes()
    ensures friends { friends_of_1 (with (user 5 95)) ≡ 5 ∷ 2 ∷ 3 ∷ [] }
    ensures odd { ids_of (with (user 5 95)) 0 1 ≡ 5 ∷ 3 ∷ 1 ∷ [] }
{}

/// A user that goes takes along the edges at both ends; one that is not there takes nothing.
pub fn a_user_goes()
    ensures friends { friends_of_1 (with (Gone 3)) ≡ 2 ∷ 5 ∷ [] }
    ensures again { next social (with (Gone 3)) (Gone 3) ≡ with (Gone 3) }
    ensures none_there { with (Gone 77) ≡ small }
    ensures own_friend { next social (with (friend (codes "4") 4)) (Gone 4) ≡ with (Gone 4) }
    ensures elsewhere { refuses social standard_limits (with (Gone 4)) (photo 4 1) ≡ None }
{}

/// A circle stays an edge's audience when the entity at its key goes.
pub fn a_circle_stays()
    ensures circle { audience_at (with (edge 0 (codes "1") 2 (Circle 0 (codes "5")))) (record { type_no = 0; key = Id 1; target = 2 }) ≡ Some (CircleAudience 0 (Id 5)) }
    ensures gone { audience_at (next social (with (edge 0 (codes "1") 2 (Circle 0 (codes "5")))) (Gone 5)) (record { type_no = 0; key = Id 1; target = 2 }) ≡ Some (CircleAudience 0 (Id 5)) }
{}

/// What is not there is cut without effect, and so is what lies under a key that is none.
pub fn nothing_is_cut()
    ensures absent { with (Cut 0 (codes "1") 99) ≡ small }
    ensures no_key { with (Cut 0 (codes "rome") 2) ≡ small }
    ensures cut { friends_of_1 (with (Cut 0 (codes "1") 5)) ≡ 2 ∷ 3 ∷ [] }
{}

/// The first reason counts.
pub fn the_first_reason_counts()
    ensures no_target { refuses social standard_limits small (friend (codes "1") 99) ≡ Some NoTarget }
    ensures no_source { refuses social standard_limits small (friend (codes "99") 1) ≡ Some NoSource }
    ensures both { refuses social standard_limits small (friend (codes "99") 99) ≡ Some NoSource }
    ensures forward_circle { refuses social standard_limits small (edge 0 (codes "1") 2 (Circle 3 (codes "102"))) ≡ Some UnknownCircle }
    ensures no_circle { refuses social standard_limits small (edge 0 (codes "1") 2 (Circle 0 (codes "rome"))) ≡ Some UnknownCircle }
    ensures other_vertical { refuses social standard_limits small (photo 1 5) ≡ Some Elsewhere }
    ensures no_id { refuses social standard_limits small (friend (codes "rome") 2) ≡ Some NoSource }
{}

/// At the limits only rows that the table has are taken.
pub fn full_tables_take_what_they_have()
    ensures users { refuses social (record standard_limits { entities = 8 }) small (user 7 80) ≡ Some TableFull }
    ensures known_user { refuses social (record standard_limits { entities = 8 }) small (user 1 51) ≡ None }
    ensures room_for_users { refuses social (record standard_limits { entities = 9 }) small (user 7 80) ≡ None }
    ensures edges { refuses social (record standard_limits { edges = 12 }) small (friend (codes "2") 3) ≡ Some TableFull }
    ensures known_edge { refuses social (record standard_limits { edges = 12 }) small (friend (codes "1") 2) ≡ None }
    ensures forward { refuses social (record standard_limits { forward = 2 }) small (edge 3 (codes "102") 5 Public) ≡ Some ForwardFull }
    ensures known_forward { refuses social (record standard_limits { forward = 2 }) small (edge 3 (codes "102") 4 Only) ≡ None }
    ensures room_for_forward { refuses social (record standard_limits { forward = 3 }) small (edge 3 (codes "102") 5 Public) ≡ None }
{}

/// An edge is there up to the publish before its end, and not from its end on.
pub fn ends_come()
    ensures before { friends_of_1 (at_second (Edge 0 (codes "1") 4 Public 3)) ≡ 2 ∷ 3 ∷ 5 ∷ 4 ∷ [] }
    ensures third { friends_of_1 (at_third (Edge 0 (codes "1") 4 Public 3)) ≡ 2 ∷ 3 ∷ 5 ∷ [] }
    ensures at_once { friends_of_1 (at_second (Edge 0 (codes "1") 4 Public 2)) ≡ 2 ∷ 3 ∷ 5 ∷ [] }
    ensures long_past { friends_of_1 (at_second (Edge 0 (codes "1") 4 Public 1)) ≡ 2 ∷ 3 ∷ 5 ∷ [] }
    ensures of_a_known_edge { friends_of_1 (at_second (Edge 0 (codes "1") 2 Public 2)) ≡ 3 ∷ 5 ∷ [] }
    ensures taken_away { friends_of_1 (next social (at_second (Edge 0 (codes "1") 4 Public 3)) (friend (codes "1") 4)) ≡ 2 ∷ 3 ∷ 5 ∷ 4 ∷ [] }
{}

/// The lists of edges stand by type, key and target; endings by end first.
pub fn edges_are_listed()
    ensures touching { named (touching small 3) ≡ (0, Id 1, 3) ∷ (2, Id 3, 102) ∷ [] }
    ensures photos { named (shard_edges social small 1 0) ≡ (2, Id 2, 101) ∷ (2, Id 3, 102) ∷ (2, Id 5, 102) ∷ (3, Id 102, 1) ∷ (3, Id 102, 4) ∷ [] }
    ensures odd { named (shard_edges social small 0 1) ≡ (0, Id 1, 3) ∷ (0, Id 1, 5) ∷ (1, Word (codes "rome"), 5) ∷ [] }
    ensures ending { map (λ e. e.target) (ending (next social (with (Edge 0 (codes "1") 4 Public 2)) (Edge 0 (codes "1") 6 Public 1)) 2) ≡ 6 ∷ 4 ∷ [] }
{}
