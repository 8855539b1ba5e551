//! The hits that a viewer is shown.
ghost use Rattle.std.specs.Prelude.{◌≡◌, Bool, IfOk, length};
ghost use Rattle.apply_extract.specs.Hits.{OfEachTable};
ghost use Rattle.apply_extract.specs.Shown.{accepted_hits, NameEntries};
ghost use Rattle.lineage_tree.specs.Accepted.{verdicts_of};
ghost use Rattle.lineage_tree.specs.Judges.{IsJudge};
ghost use Rattle.uni_base.specs.declared.edge.Held.{Held as Edges};
ghost use Rattle.viewer_policy.specs.Judged.{judged};

use lineage_tree::{HitRows, LineageBook, Verdicts};
use shard_index::Version;
use std::alloc::{AllocError, Global};
use uni_base::{EntityId, Held};
use uni_meaning::{Hit, HitList};
use viewer_policy::authorised;

/// Of each hit the first lineage whose edges the viewer may see, each of them; hits without one are left
/// out. The book is judged once.
pub(crate) fn shown_hits(
    alloc: Global,
    version: &Version,
    viewer: EntityId,
    book: &LineageBook,
    hits: &HitRows,
) -> Result<HitList, AllocError>
    requires { NameEntries book.now hits.now }
    ensures { IfOk result (λ shown. OfEachTable version.now (λ table. shown ≡ accepted_hits (judged version.now.schema table viewer) book.now hits.now)) }
{
    let judge = |held: &Held| -> bool
        ensures { OfEachTable version.entry.now (λ table. result ≡ judged version.entry.now.schema table viewer held.now) }
    { authorised(version, viewer, held) };
    let verdicts = book.judge(alloc, &judge)?;
    accepted_hits(alloc, book, &verdicts, hits, &judge)
}

// The hits that a judge lets through.
fn accepted_hits<F: Fn(&Held) -> bool>(
    alloc: Global,
    book: &LineageBook,
    verdicts: &Verdicts,
    hits: &HitRows,
    judge: &F,
) -> Result<HitList, AllocError>
    requires callable { F.IsAlwaysCallable judge.now }
    requires names { NameEntries book.now hits.now }
    requires count { length verdicts.now ≡ length book.now }
    ensures { IfOk result (λ shown. (accepts : Edges → Bool) → IsJudge F.Fn judge.now accepts
        → verdicts.now ≡ verdicts_of accepts book.now → shown ≡ accepted_hits accepts book.now hits.now) }
{
    let mut shown = HitList::new(alloc);
    for hit in hits.as_slice() {
        if let Some(lineage) = hit.lineage.first(alloc, book, verdicts, judge)? {
            shown.push(Hit {
                key: hit.key,
                lineage,
            })?;
        }
    }
    Ok(shown)
}
