//! What a batch changed of a posting.
ghost use Rattle.std.specs.Prelude.{◌≡◌, Some, OnOk};
ghost use Rattle.std.specs.Ordering.{eq_by_cmp};
ghost use Rattle.layer_stack.specs.Places.{place_cmp};
ghost use Rattle.layer_stack.specs.Postings.{deleting, putting};
ghost use Rattle.shard_index.specs.ChangedRows.{same_audience, posting_for, turning, with_change};

use layer_stack::{Delta, Place, TermKey};
use posting_lists::Posting;
use std::alloc::AllocError;
use uni_base::{Audience, DocKey, EdgeRef, Rank};
use uni_table::{EdgeChange, EdgeRow};

/// Notes what became of the posting of an index edge. The change says where it was and where it is, so
/// nothing is looked up.
pub(super) fn note_posting(delta: &mut Delta, change: &EdgeChange) -> Result<(), AllocError>
    ensures { OnOk result (delta.new ≡ with_change delta.old change.now) }
{
    let was = posting(&change.edge, change.rank_before, change.before);
    let now = posting(&change.edge, change.rank_after, change.after);
    note(delta, &was, &now)
}

// The posting of an edge with a row, at the rank of its target.
fn posting(edge: &EdgeRef, rank: Option<Rank>, row: Option<EdgeRow>) -> Option<(Place, Audience)>
    ensures { result ≡ posting_for edge.now rank row }
{
    let audience = row?.audience;
    let key = DocKey {
        rank: rank?,
        id: edge.target,
    };
    let term = TermKey {
        type_no: edge.type_no,
        key: edge.key,
    };
    Some((Place { term, key }, audience))
}

// Notes that there was a posting and that there is one now, where there was or is one.
fn note(
    delta: &mut Delta,
    was: &Option<(Place, Audience)>,
    now: &Option<(Place, Audience)>,
) -> Result<(), AllocError>
    ensures { OnOk result (delta.new ≡ turning delta.old was.now now.now) }
{
    match (was, now) {
        (None, None) => Ok(()),
        (Some((place, _)), None) => delete(delta, place),
        (None, Some((place, audience))) => put(delta, place, audience),
        (Some(was), Some(now)) => note_both(delta, was, now),
    }
}

// Notes that there was a posting and that there is one now.
fn note_both(
    delta: &mut Delta,
    was: &(Place, Audience),
    now: &(Place, Audience),
) -> Result<(), AllocError>
    ensures { OnOk result (delta.new ≡ turning delta.old (Some was.now) (Some now.now)) }
{
    let stays = same_place(&was.0, &now.0);
    if stays && same_audience(&was.1, &now.1) {
        return Ok(());
    }
    if !stays {
        delete(delta, &was.0)?;
    }
    put(delta, &now.0, &now.1)
}

// Deletes the posting at a place.
fn delete(delta: &mut Delta, place: &Place) -> Result<(), AllocError>
    ensures { OnOk result (delta.new ≡ deleting delta.old place.now) }
{
    delta.delete(place.term, place.key)
}

// Puts a posting.
fn put(delta: &mut Delta, place: &Place, audience: &Audience) -> Result<(), AllocError>
    ensures { OnOk result (delta.new ≡ putting delta.old place.now audience.now) }
{
    let posting = Posting {
        key: place.key,
        audience: *audience,
    };
    delta.put(place.term, posting)
}

// Whether two places are the same.
fn same_place(one: &Place, other: &Place) -> bool
    ensures { result ≡ eq_by_cmp place_cmp one.now other.now }
{
    one.cmp(other).is_eq()
}

/// Whether two audiences are the same.
pub(super) fn same_audience(one: &Audience, other: &Audience) -> bool
    ensures { result ≡ same_audience one.now other.now }
{
    one == other
}
