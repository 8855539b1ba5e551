//! Who may see an edge of a version.
#![tactic(auto)]

ghost use Rattle.std.specs.Prelude.{◌≡◌, ◌==◌, false};
ghost use Rattle.std.specs.Option.{option_map_or};
ghost use Rattle.uni_base.specs.declared.limits.Limits.{Limits};
ghost use Rattle.uni_schema.specs.Schema.{owners_of};
ghost use Rattle.uni_table.specs.Contents.{Contents};
ghost use Rattle.uni_meaning.specs.Policy.{admits, authorised, denies, some_owner};
ghost use Rattle.viewer_policy.specs.Judged.{IsHeld, StandsFor, judged};

mod lookup;

use lookup::reaches;
use shard_index::Version;
use uni_base::{Audience, EdgeRef, EntityId, Held, Key};
use uni_schema::{Owners, Schema};

/// Whether a viewer may see an edge: an owner of it may; nobody may whom an owner denies; and else
/// those whom the audience admits that the edge is handed over with. It is read from the first
/// replicas, for any edge, of whatever table the version stands for.
pub fn authorised(version: &Version, viewer: EntityId, held: &Held) -> bool
    ensures rules { (limits : Limits) (table : Contents) → StandsFor version.now limits table → result ≡ judged version.now.schema table viewer held.now }
    ensures held { (limits : Limits) (table : Contents) → StandsFor version.now limits table → IsHeld table held.now → result ≡ authorised version.now.schema table viewer held.now.edge }
{
    let owners = owners(version.schema(), &held.edge);
    if is_among(&owners, viewer) {
        return true;
    }
    if is_denied(version, owners.first, viewer) || is_denied(version, owners.second, viewer) {
        return false;
    }
    match held.audience {
        Audience::Public => true,
        Audience::Only => false,
        Audience::Circle(type_no, key) => reaches(version, type_no, &key, viewer),
    }
}

// Who owns an edge: nobody where its type is not declared.
fn owners(schema: &Schema, edge: &EdgeRef) -> Owners
    ensures { result ≡ owners_of schema.now edge.now }
{
    if edge.type_no < schema.types() {
        schema.owners(edge)
    } else {
        Owners {
            first: None,
            second: None,
        }
    }
}

// Whether a viewer is one of the owners.
fn is_among(owners: &Owners, viewer: EntityId) -> bool
    ensures { result ≡ some_owner (λ owner. owner == viewer) owners.now }
{
    owners.first == Some(viewer) || owners.second == Some(viewer)
}

// Whether an owner, if there is one, denies a viewer.
fn is_denied(version: &Version, owner: Option<EntityId>, viewer: EntityId) -> bool
    ensures { (limits : Limits) (table : Contents) → StandsFor version.now limits table → result ≡ option_map_or (denies version.now.schema table viewer) owner false }
{
    match owner {
        Some(owner) => denies(version, owner, viewer),
        None => false,
    }
}

// Whether an edge of a type that denies leads from an owner to a viewer. Where no type denies, nothing
// is looked up.
fn denies(version: &Version, owner: EntityId, viewer: EntityId) -> bool
    ensures { (limits : Limits) (table : Contents) → StandsFor version.now limits table → result ≡ denies version.now.schema table viewer owner }
{
    let schema = version.schema();
    let key = Key::Id(owner);
    for type_no in 0..schema.types() {
        if schema.type_def(type_no).deny && reaches(version, type_no, &key, viewer) {
            return true;
        }
    }
    false
}
