ghost use Rattle.std.specs.Prelude.{◌≡◌, [], length};
ghost use Rattle.std.specs.FinMap as finite;
ghost use Rattle.layer_stack.specs.Directories.{put_spans, delete_spans};
ghost use Rattle.layer_stack.specs.Postings.{changes_of, postings_of, deletes_of};
ghost use Rattle.layer_stack.specs.Readers.{AreBefore};
ghost use Rattle.layer_stack.specs.Spans.{put_rows, delete_rows, AreLaid};

use crate::TermKey;
use crate::directory::{Directory, keys_at};
use crate::part::Part;
use crate::rows::list_at;
use crate::term_spans::{deletes_in, puts_in};
use posting_lists::PostingColumns;
use std::marker::Model;
use uni_base::DocKey;

/// What rows have under one term after another. The terms are asked for in their order, so that
/// no term is searched for: the reader goes along the directory.
#[derive(Drop)]
pub(crate) struct RowsReader<'a> {
    directory: &'a Directory,
    postings: &'a PostingColumns,
    deleted: &'a [DocKey],
    // How many terms are passed.
    at: usize,
}

impl<'a> Model for RowsReader<'a> {
    ghost use Rattle.std.specs.Prelude.{length, take};
    ghost use Rattle.std.specs.Coded.{codes};
    ghost use Rattle.std.specs.FinMap as finite;
    ghost use Rattle.layer_stack.specs.Directories.{put_spans, delete_spans};
    ghost use Rattle.layer_stack.specs.Postings.{changes_of};
    ghost use Rattle.layer_stack.specs.Readers.{ReaderValue};
    ghost use Rattle.layer_stack.specs.Spans.{put_rows, delete_rows, AreLaid};

    ghost Value = { ReaderValue };

    ghost coded = { Prim.hlevel (codes, finite.code) };

    ghost view = { λ r. (changes_of (finite.from_sorted (delete_rows (delete_spans r.directory.now) r.deleted.now)) (finite.from_sorted (put_rows (put_spans r.directory.now) r.postings.now)), take r.at r.directory.now) };

    ghost invariant = { λ r. AreLaid (put_rows (put_spans r.directory.now) r.postings.now) (put_spans r.directory.now) (length r.postings.now) × AreLaid (delete_rows (delete_spans r.directory.now) r.deleted.now) (delete_spans r.directory.now) (length r.deleted.now) };
}

impl<'a> RowsReader<'a> {
    // A reader of postings and deleted keys, which a directory tells.
    pub(crate) fn over(
        directory: &'a Directory,
        postings: &'a PostingColumns,
        deleted: &'a [DocKey],
    ) -> RowsReader<'a>
        requires put { AreLaid (put_rows (put_spans directory.now) postings.now) (put_spans directory.now) (length postings.now) }
        requires deleted { AreLaid (delete_rows (delete_spans directory.now) deleted.now) (delete_spans directory.now) (length deleted.now) }
        ensures { result ≡ (changes_of (finite.from_sorted (delete_rows (delete_spans directory.now) deleted.now)) (finite.from_sorted (put_rows (put_spans directory.now) postings.now)), []) }
    {
        RowsReader {
            directory,
            postings,
            deleted,
            at: 0,
        }
    }

    // Goes back to the first terms.
    pub(crate) fn restart(&mut self)
        ensures { self.new ≡ (self.old.0, []) }
    {
        self.at = 0;
    }

    // What there is under a term. It passes the terms before it.
    pub(crate) fn part(&mut self, term: &TermKey) -> Part<'a>
        requires { AreBefore term.now self.old.1 }
        ensures part { result ≡ (deletes_of term.now self.old.0, postings_of term.now self.old.0.puts) }
        ensures same { self.new.0 ≡ self.old.0 }
        ensures passed { AreBefore term.now self.new.1 }
    {
        let found = self.directory.spans_from(&mut self.at, term);
        let keys = keys_at(self.deleted, deletes_in(found));
        let list = list_at(self.postings, puts_in(found));
        Part::new(keys, list)
    }
}
