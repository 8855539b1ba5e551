//! Inner hits in the book of lineages.
ghost use Rattle.std.specs.Prelude.{◌≡◌, IfOk, length};
ghost use Rattle.apply_extract.specs.Hits.{numbered, with_hits};
ghost use Rattle.apply_extract.specs.Shown.{NameEntries};

use lineage_tree::{HitRows, LineageBook};
use shard_eval::InnerHit;
use std::alloc::{AllocError, Global};

/// Notes the trees of hits in the book, and gives the hits by the numbers of their entries. A book has room
/// for 4,294,967,295 entries, and takes no more.
pub(crate) fn note_hits(
    alloc: Global,
    hits: HitRows,
    book: &mut LineageBook,
) -> Result<Vec<InnerHit>, AllocError>
    requires { NameEntries book.old hits }
    ensures inner { IfOk result (λ inner. inner.items ≡ numbered (length book.old) hits) }
    ensures book { IfOk result (λ _. book.new ≡ with_hits book.old hits) }
{
    let mut inner = Vec::new(alloc);
    for hit in hits.into_vec() {
        if book.len() == u32::MAX {
            return Err(AllocError);
        }
        let entry = book.push(hit.lineage)?;
        inner.push(InnerHit {
            key: hit.key,
            entry,
        })?;
    }
    Ok(inner)
}
