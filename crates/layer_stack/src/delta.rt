ghost use Rattle.std.specs.Prelude.{◌≡◌, ◌<◌, ◌≤◌, IfOk, OnOk, OnErr, length, map};
ghost use Rattle.layer_stack.specs.Postings.{no_changes, deleting, deleting_rows, joined, putting, putting_list, putting_rows, place_of};
ghost use Rattle.layer_stack.specs.Runs.{AreWithin};
ghost use Rattle.layer_stack.specs.Spans.{spanned, delete_row, delete_rows, put_rows};

use crate::TermKey;
use crate::directory::Span;
use crate::runs::{add_run, note_row};
use crate::short_term::ShortTerm;
use posting_lists::{Posting, PostingColumns};
use std::alloc::{AllocError, Global};
use std::marker::Model;
use uni_base::DocKey;

/// How many deletes, and how many puts, are noted at most, so that sums over layers stay exact.
const MOST_NOTED: usize = 1 << 61;

/// The changes of a layer as they come in. A delete and a put of the same posting are both kept,
/// in whichever order they come. Rows that come one after another under one term are a run, which
/// keeps the term once.
#[derive(Drop)]
pub struct Delta {
    pub(crate) deletes: Vec<(ShortTerm, Span)>,
    pub(crate) deleted: Vec<DocKey>,
    pub(crate) puts: Vec<(ShortTerm, Span)>,
    pub(crate) postings: PostingColumns,
}

impl Model for Delta {
    ghost use Rattle.std.specs.Prelude.{length};
    ghost use Rattle.layer_base.specs.Layers.{from_log};
    ghost use Rattle.layer_stack.specs.Runs.{AreWithin};
    ghost use Rattle.layer_stack.specs.Spans.{put_rows, delete_rows};
    ghost use Rattle.layer_stack.specs.Postings.{PostingChanges};
    ghost use Rattle.std.specs.Coded.{codes};
    ghost use Rattle.std.specs.FinMap as finite;

    ghost Value = { PostingChanges };

    ghost coded = { Prim.hlevel (codes, finite.code) };

    ghost view = { λ d. record { deletes = from_log (delete_rows d.deletes.items d.deleted.items); puts = from_log (put_rows d.puts.items d.postings) } };

    ghost invariant = { λ d. AreWithin (length d.deleted.items) d.deletes.items × AreWithin (length d.postings) d.puts.items };
}

impl Delta {
    /// No changes.
    pub fn new(alloc: Global) -> Delta
        ensures { result ≡ no_changes }
    {
        Delta {
            deletes: Vec::new(alloc),
            deleted: Vec::new(alloc),
            puts: Vec::new(alloc),
            postings: PostingColumns::new(alloc),
        }
    }

    /// No changes, with room for puts of some postings under some terms.
    pub fn with_capacity(alloc: Global, terms: usize, postings: usize) -> Result<Delta, AllocError>
        ensures { IfOk result (λ delta. delta ≡ no_changes) }
    {
        Ok(Delta {
            deletes: Vec::new(alloc),
            deleted: Vec::new(alloc),
            puts: Vec::with_capacity(alloc, terms)?,
            postings: PostingColumns::with_capacity(alloc, postings)?,
        })
    }

    /// Deletes a posting. A second delete adds nothing.
    pub fn delete(&mut self, term: TermKey, key: DocKey) -> Result<(), AllocError>
        ensures ok { OnOk result (self.new ≡ deleting self.old (place_of term key)) }
        ensures err { OnErr result (self.new ≡ self.old) }
    {
        let at = self.deleted.len();
        if at >= MOST_NOTED {
            return Err(AllocError);
        }
        self.deleted.push(key)?;
        note_row(&mut self.deletes, &term, at)
    }

    /// Puts a posting, in place of one that was put with the same term and key.
    pub fn put(&mut self, term: TermKey, posting: Posting) -> Result<(), AllocError>
        ensures ok { OnOk result (self.new ≡ putting self.old (place_of term posting.key) posting.audience) }
        ensures err { OnErr result (self.new ≡ self.old) }
    {
        let at = self.postings.len();
        if at >= MOST_NOTED {
            return Err(AllocError);
        }
        self.postings.push(posting)?;
        note_row(&mut self.puts, &term, at)
    }

    /// Adds the changes of another one, which come later, run by run. A delta that finds no memory has some of
    /// them.
    pub fn append(&mut self, later: &Delta) -> Result<(), AllocError>
        ensures { OnOk result (self.new ≡ joined self.old later.now) }
    {
        self.append_deletes(&later.deletes, &later.deleted)?;
        self.append_puts(&later.puts, &later.postings)
    }

    // Deletes the keys that runs tell.
    fn append_deletes(
        &mut self,
        runs: &[(ShortTerm, Span)],
        keys: &[DocKey],
    ) -> Result<(), AllocError>
        requires { AreWithin (length keys.now) runs.now }
        ensures { OnOk result (self.new ≡ deleting_rows (delete_rows runs.now keys.now) self.old) }
    {
        for at in 0..runs.len() {
            let (term, span) = &runs[at];
            self.delete_run(term, keys, *span)?;
        }
        Ok(())
    }

    // Puts the postings that runs tell.
    fn append_puts(
        &mut self,
        runs: &[(ShortTerm, Span)],
        postings: &PostingColumns,
    ) -> Result<(), AllocError>
        requires { AreWithin (length postings.now) runs.now }
        ensures { OnOk result (self.new ≡ putting_rows (put_rows runs.now postings.now) self.old) }
    {
        for at in 0..runs.len() {
            let (term, span) = &runs[at];
            self.put_run(term, postings, *span)?;
        }
        Ok(())
    }

    // Deletes the keys of a span under a term, as a run of their own.
    fn delete_run(
        &mut self,
        term: &ShortTerm,
        keys: &[DocKey],
        span: Span,
    ) -> Result<(), AllocError>
        requires { (span.from < span.to) × (span.to ≤ length keys.now) }
        ensures { OnOk result (self.new ≡ deleting_rows (map (delete_row term.now) (spanned span keys.now)) self.old) }
    {
        let from = self.deleted.len();
        self.deleted.extend_from_slice(&keys[span.from..span.to])?;
        let to = self.deleted.len();
        add_run(&mut self.deletes, term, Span { from, to })
    }

    // Puts the postings of a span of columns under a term, as a run of their own.
    pub(crate) fn put_run(
        &mut self,
        term: &ShortTerm,
        postings: &PostingColumns,
        span: Span,
    ) -> Result<(), AllocError>
        requires { (span.from < span.to) × (span.to ≤ length postings.now) }
        ensures { OnOk result (self.new ≡ putting_list term.now (spanned span postings.now) self.old) }
    {
        let from = self.postings.len();
        self.postings.append(postings, span.from, span.to)?;
        let to = self.postings.len();
        add_run(&mut self.puts, term, Span { from, to })
    }
}
