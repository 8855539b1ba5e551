//! Rows in the order of places, from rows as they came in.
ghost use Rattle.std.specs.Prelude.{◌≡◌, ◌<◌, length, map, IfOk};
ghost use Rattle.std.specs.List.{All};
ghost use Rattle.layer_stack.specs.Spans.{put_rows, delete_rows};
ghost use Rattle.layer_stack.specs.Runs.{AreWithin, AreSettled, posting_from};

use crate::arrange::arrange;
use crate::directory::Span;
use crate::runs::are_in_turn;
use crate::short_term::ShortTerm;
use layer_base::rises;
use posting_lists::{Posting, PostingColumns};
use std::alloc::{AllocError, Global};
use uni_base::DocKey;

// The postings of runs, of which the last one at each place counts, in the order of places. Those that
// came in that order stay as they are.
pub(crate) fn settle_postings(
    alloc: Global,
    runs: Vec<(ShortTerm, Span)>,
    postings: PostingColumns,
) -> Result<(Vec<(ShortTerm, Span)>, PostingColumns), AllocError>
    requires { AreWithin (length postings) runs.items }
    ensures { IfOk result (λ r. AreSettled (put_rows runs.items postings) (put_rows r.0.items r.1) r.0.items (length r.1)) }
{
    if rises(&runs) && are_in_turn(&runs, postings.keys()) {
        return Ok((runs, postings));
    }
    let arrangement = arrange(alloc, runs, postings.keys())?;
    let columns = pick_postings(alloc, &postings, &arrangement.rows)?;
    Ok((arrangement.spans, columns))
}

// The deleted keys of runs, each once under its term, in the order of places. Those that came in that
// order stay as they are.
pub(crate) fn settle_keys(
    alloc: Global,
    runs: Vec<(ShortTerm, Span)>,
    keys: Vec<DocKey>,
) -> Result<(Vec<(ShortTerm, Span)>, Vec<DocKey>), AllocError>
    requires { AreWithin (length keys.items) runs.items }
    ensures { IfOk result (λ r. AreSettled (delete_rows runs.items keys.items) (delete_rows r.0.items r.1.items) r.0.items (length r.1.items)) }
{
    if rises(&runs) && are_in_turn(&runs, &keys) {
        return Ok((runs, keys));
    }
    let arrangement = arrange(alloc, runs, &keys)?;
    let keys = pick_keys(alloc, &arrangement.rows)?;
    Ok((arrangement.spans, keys))
}

// The postings at numbered keys, with the audiences at those numbers.
fn pick_postings(
    alloc: Global,
    postings: &PostingColumns,
    rows: &[(DocKey, usize)],
) -> Result<PostingColumns, AllocError>
    requires { All (λ e. e.1 < length postings.now) rows.now }
    ensures { IfOk result (λ picked. picked ≡ map (posting_from postings.now) rows.now) }
{
    let mut picked = PostingColumns::with_capacity(alloc, rows.len())?;
    for (key, number) in rows {
        let audience = postings.posting(*number).audience;
        picked.push(Posting {
            key: *key,
            audience,
        })?;
    }
    Ok(picked)
}

// The keys of numbered keys.
fn pick_keys(alloc: Global, rows: &[(DocKey, usize)]) -> Result<Vec<DocKey>, AllocError>
    ensures { IfOk result (λ keys. keys.items ≡ map (λ e. e.0) rows.now) }
{
    let mut keys = Vec::with_capacity(alloc, rows.len())?;
    for (key, _number) in rows {
        keys.push(*key)?;
    }
    Ok(keys)
}
