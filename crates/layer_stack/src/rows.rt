ghost use Rattle.std.specs.Prelude.{◌≡◌, ◌≤◌, ◌^◌, ◌||◌, [], T, take, length, IfOk, IfSome, OnOk, IsTrue};
ghost use Rattle.std.specs.FinMap as finite;
ghost use Rattle.std.specs.FinMap.{is_sorted};
ghost use Rattle.posting_lists.specs.Postings.{keys_of};
ghost use Rattle.uni_base.specs.Cursors.{IsRanked};
ghost use Rattle.layer_base.specs.Layers.{stack_table};
ghost use Rattle.layer_stack.specs.Based.{ArePutAlone};
ghost use Rattle.layer_stack.specs.Combined.{is_among};
ghost use Rattle.layer_stack.specs.Places.{term_cmp};
ghost use Rattle.layer_stack.specs.Postings.{postings_of, deletes_of, entries_of, putting_all};
ghost use Rattle.layer_stack.specs.Spans.{told};
ghost use Rattle.layer_stack.specs.Words.{has_term, IsWordFrom};

use crate::combine::combined;
use crate::directory::{Directory, Span, keys_at};
use crate::part::Part;
use crate::rows_reader::RowsReader;
use crate::settle::{settle_keys, settle_postings};
use crate::term_spans::{deletes_in, puts_in};
use crate::{Delta, Stack, TermKey};
use posting_lists::{ListCursor, PostingColumns};
use std::alloc::{AllocError, Global};
use std::marker::Model;
use uni_base::{DocKey, Word};

/// How many deletes, and how many puts, a layer has at most.
const MOST_ROWS: usize = u32::MAX as usize;

/// Postings that are deleted, and others that are put. The postings of all terms lie in one row of
/// columns, and so do the deleted keys.
#[derive(Drop)]
pub(crate) struct Rows {
    directory: Directory,
    postings: PostingColumns,
    deleted: Vec<DocKey>,
}

impl Model for Rows {
    ghost use Rattle.std.specs.Prelude.{length};
    ghost use Rattle.std.specs.Coded.{codes};
    ghost use Rattle.std.specs.FinMap as finite;
    ghost use Rattle.layer_stack.specs.Places.{place_cmp};
    ghost use Rattle.layer_stack.specs.Postings.{PostingChanges};
    ghost use Rattle.layer_stack.specs.Spans.{put_rows, delete_rows, AreLaid};
    ghost use Rattle.layer_stack.specs.Directories.{put_spans, delete_spans};

    ghost Value = { PostingChanges };

    ghost coded = { Prim.hlevel (codes, finite.code) };

    ghost view = { λ l. record { deletes = finite.from_sorted (delete_rows (delete_spans l.directory) l.deleted.items); puts = finite.from_sorted (put_rows (put_spans l.directory) l.postings) } };

    ghost invariant = { λ l. AreLaid (put_rows (put_spans l.directory) l.postings) (put_spans l.directory) (length l.postings) × AreLaid (delete_rows (delete_spans l.directory) l.deleted.items) (delete_spans l.directory) (length l.deleted.items) };
}

impl Rows {
    // The rows of some changes.
    pub(crate) fn build(alloc: Global, delta: Delta) -> Result<Rows, AllocError>
        ensures { IfOk result (λ rows. rows ≡ delta) }
    {
        let Delta {
            deletes,
            deleted,
            puts,
            postings,
        } = delta;
        let (puts, postings) = settle_postings(alloc, puts, postings)?;
        let (deletes, deleted) = settle_keys(alloc, deletes, deleted)?;
        if postings.len() > MOST_ROWS || deleted.len() > MOST_ROWS {
            return Err(AllocError);
        }
        Ok(Rows {
            directory: Directory::of(alloc, &puts, &deletes)?,
            postings,
            deleted,
        })
    }

    // The number of deletes and puts.
    pub(crate) fn entries(&self) -> u64
        ensures entries { result ≡ entries_of self.now }
        ensures few { result ≤ 2 ^ 62 }
    {
        self.postings.len() as u64 + self.deleted.len() as u64
    }

    // The least word, from a given one on and past it where `strict`, at which there is a delete or a
    // put of a type. None exactly where there is none.
    pub(crate) fn word_from(&self, type_no: u16, from: &Word, strict: bool) -> Option<Word>
        ensures { IsWordFrom (λ t. has_term t self.now) type_no from.now strict result }
    {
        self.directory.word_from(type_no, from, strict)
    }

    // How many terms there are.
    pub(crate) fn terms(&self) -> usize {
        self.directory.len()
    }

    // How many postings are put.
    pub(crate) fn puts(&self) -> usize
        ensures puts { result ≡ finite.len self.now.puts }
        ensures few { result ≤ 2 ^ 61 }
    {
        self.postings.len()
    }

    // The key of the first posting that is put.
    pub(crate) fn first_key(&self) -> Option<DocKey> {
        self.postings.keys().first().copied()
    }

    // Whether nothing is deleted.
    pub(crate) fn puts_alone(&self) -> bool
        ensures { IsTrue result → self.now.deletes ≡ finite.empty }
    {
        self.deleted.is_empty()
    }

    // How many postings are put under a term.
    pub(crate) fn puts_under(&self, term: &TermKey) -> usize
        ensures { result ≡ length (postings_of term.now self.now.puts) }
    {
        match puts_in(self.directory.spans(term)) {
            Some(span) => span.to - span.from,
            None => 0,
        }
    }

    // What it deletes and puts under a term.
    pub(crate) fn part(&self, term: &TermKey) -> Part<'_>
        ensures { result ≡ (deletes_of term.now self.now, postings_of term.now self.now.puts) }
    {
        let found = self.directory.spans(term);
        let deletes = keys_at(&self.deleted, deletes_in(found));
        let puts = list_at(&self.postings, puts_in(found));
        Part::new(deletes, puts)
    }

    // How many postings stand where the rows lie over so many, and each delete is of one that stands.
    pub(crate) fn rows_over(&self, rows: usize) -> usize {
        rows.saturating_add(self.postings.len())
            .saturating_sub(self.deleted.len())
    }

    // A reader of what there is under one term after another.
    pub(crate) fn reader(&self) -> RowsReader<'_>
        ensures { result ≡ (self.now, []) }
    {
        RowsReader::over(&self.directory, &self.postings, &self.deleted)
    }

    // Adds the terms at which there is a delete or a put to a list.
    pub(crate) fn note_terms(&self, terms: &mut Vec<(TermKey, ())>) -> Result<(), AllocError>
        ensures { OnOk result ((t : TermKey) → is_among t terms.new.items ≡ (is_among t terms.old.items || has_term t self.now)) }
    {
        self.directory.note_terms(terms)
    }

    // Puts what the first layers of a stack stand for. Under each term that is not among the changed
    // ones, that is what the rows put.
    pub(crate) fn combined(
        &self,
        alloc: Global,
        stack: &Stack,
        count: usize,
        changed: &[(TermKey, ())],
        rows: usize,
    ) -> Result<Delta, AllocError>
        requires count { count ≤ length stack.now.0 }
        requires sorted { T (is_sorted term_cmp changed.now) }
        requires alone { ArePutAlone changed.now self.now (stack_table (take count stack.now.0)) }
        ensures { IfOk result (λ delta. delta ≡ putting_all (stack_table (take count stack.now.0))) }
    {
        combined(
            alloc,
            stack,
            count,
            changed,
            rows,
            &self.directory,
            &self.postings,
        )
    }
}

// The list that a span tells of columns, empty where there is no span.
pub(crate) fn list_at(postings: &PostingColumns, span: Option<Span>) -> ListCursor<'_>
    requires within { IfSome span (λ s. (s.from ≤ s.to) × (s.to ≤ length postings.now)) }
    requires ranked { IsRanked (keys_of (told span postings.now)) }
    ensures { result ≡ told span postings.now }
{
    match span {
        Some(span) => postings.section(span.from, span.to),
        None => postings.section(0, 0),
    }
}
