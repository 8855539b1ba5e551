ghost use Rattle.std.specs.Prelude.{◌≡◌, ◌≤◌, ◌||◌, ◌++◌, ◌∷◌, [], IfOk, IfSome, OnOk, length, take};
ghost use Rattle.layer_stack.specs.Combined.{is_among};
ghost use Rattle.layer_stack.specs.Words.{IsWordFrom};
ghost use Rattle.indexmap.specs.IndexMap.{insert_entry};
ghost use Rattle.std.specs.Ordering.{eq_by_cmp};
ghost use Rattle.layer_stack.specs.Places.{term_cmp, term_of};
ghost use Rattle.layer_stack.specs.Spans.{spanned, span_of, told, IsSpans};
ghost use Rattle.layer_stack.specs.Directories.{IsDirectory, put_spans, delete_spans, has_spans, narrowed, puts_in, deletes_in};
ghost use Rattle.layer_stack.specs.Readers.{AreBefore};

use crate::TermKey;
use crate::joined::{Joined, after, next};
use crate::marks::Marks;
use crate::short_term::ShortTerm;
use crate::term_spans::TermSpans;
use crate::words::is_passed;
use indexmap::IndexMap;
use indexmap::map::Iter;
use std::alloc::{AllocError, Global};
use std::cmp::Ordering;
use std::marker::Model;
use uni_base::{DocKey, Key, Word};

/// Where the rows of a term stand: from a place up to another.
#[derive(Clone, Copy)]
pub(crate) struct Span {
    pub(crate) from: usize,
    pub(crate) to: usize,
}

/// The terms of a layer in their order, each with where its puts and its deletes stand.
#[derive(Drop)]
pub(crate) struct Directory {
    spans: IndexMap<ShortTerm, TermSpans>,
    marks: Marks,
}

impl Model for Directory {
    ghost use Rattle.std.specs.Prelude.{List};
    ghost use Rattle.layer_stack.specs.declared.place.TermKey.{TermKey};
    ghost use Rattle.layer_stack.specs.declared.term_spans.TermSpans.{TermSpans};
    ghost use Rattle.layer_stack.specs.Directories.{IsDirectory};
    ghost use Rattle.layer_stack.specs.Marks.{AreMarked};

    ghost Value = { List (TermKey × TermSpans) };

    ghost view = { λ d. d.spans.entries };

    ghost invariant = { λ d. IsDirectory d.spans.entries × AreMarked d.marks d.spans.entries };
}

impl Directory {
    // The directory of the spans of puts and of deletes, both in the order of their terms. It goes
    // along both, and adds each term once.
    pub(crate) fn of(
        alloc: Global,
        puts: &[(ShortTerm, Span)],
        deletes: &[(ShortTerm, Span)],
    ) -> Result<Directory, AllocError>
        requires puts { IsSpans u32.MAX puts.now }
        requires deletes { IsSpans u32.MAX deletes.now }
        ensures puts { IfOk result (λ d. put_spans d ≡ puts.now) }
        ensures deletes { IfOk result (λ d. delete_spans d ≡ deletes.now) }
    {
        let mut spans = IndexMap::with_capacity(alloc, puts.len().max(deletes.len()))?;
        let mut put = 0;
        let mut deleted = 0;
        while let Some(joined) = next(puts, put, deletes, deleted) {
            add(alloc, &mut spans, &joined)?;
            put = after(put, joined.puts);
            deleted = after(deleted, joined.deletes);
        }
        spans.shrink_to_fit();
        let marks = Marks::of(alloc, &spans)?;
        Ok(Directory { spans, marks })
    }

    // How many terms there are.
    pub(crate) fn len(&self) -> usize
        ensures { result ≡ length self.now }
    {
        self.spans.len()
    }

    // Where the rows of a term stand. None exactly where it has none. Where there are no terms at
    // all, and where the marks rule it out, no hash is made.
    pub(crate) fn spans(&self, term: &TermKey) -> Option<TermSpans>
        ensures puts { puts_in result ≡ span_of term.now (put_spans self.now) }
        ensures deletes { deletes_in result ≡ span_of term.now (delete_spans self.now) }
    {
        if self.spans.is_empty() {
            return None;
        }
        if self.marks.rule_out(term) {
            return None;
        }
        self.spans.get(term).copied()
    }

    // Where the rows of a term stand, given a place up to which all terms come before it. The place moves
    // on to where the term stands or would stand.
    pub(crate) fn spans_from(&self, at: &mut usize, term: &TermKey) -> Option<TermSpans>
        requires { AreBefore term.now (take at.old self.now) }
        ensures puts { puts_in result ≡ span_of term.now (put_spans self.now) }
        ensures deletes { deletes_in result ≡ span_of term.now (delete_spans self.now) }
        ensures passed { AreBefore term.now (take at.new self.now) }
    {
        while *at < self.spans.len() {
            let (found, spans) = self.spans.get_index(*at)?;
            match found.compare(term) {
                Ordering::Less => *at += 1,
                Ordering::Equal => return Some(*spans),
                Ordering::Greater => return None,
            }
        }
        None
    }

    // The terms in their order, each with where its rows stand.
    pub(crate) fn iter(&self) -> Iter<'_, ShortTerm, TermSpans>
        ensures entries { result ≡ self.now }
        ensures is { IsDirectory self.now }
    {
        self.spans.iter()
    }

    // Adds the terms to a list.
    pub(crate) fn note_terms(&self, terms: &mut Vec<(TermKey, ())>) -> Result<(), AllocError>
        ensures { OnOk result ((t : TermKey) → is_among t terms.new.items ≡ (is_among t terms.old.items || has_spans t self.now)) }
    {
        for (term, _spans) in self.iter() {
            let term = term.term();
            note_term(terms, term.type_no, term.key)?;
        }
        Ok(())
    }

    // The least word from a given one on, past it where `strict`, at which a term of a type starts.
    pub(crate) fn word_from(&self, type_no: u16, from: &Word, strict: bool) -> Option<Word>
        ensures { IsWordFrom (λ t. has_spans t self.now) type_no from.now strict result }
    {
        let from = TermKey {
            type_no,
            key: Key::Word(*from),
        };
        let at = self
            .spans
            .partition_point(|term, _spans| is_passed(strict, &from, term));
        let (term, _spans) = self.spans.get_index(at)?;
        term.word_at(type_no)
    }
}

// Adds what two lists have at a term.
fn add(
    alloc: Global,
    spans: &mut IndexMap<ShortTerm, TermSpans>,
    joined: &Joined,
) -> Result<(), AllocError>
    requires puts { IfSome joined.now.puts (λ s. (s.from ≤ u32.MAX) × (s.to ≤ u32.MAX)) }
    requires deletes { IfSome joined.now.deletes (λ s. (s.from ≤ u32.MAX) × (s.to ≤ u32.MAX)) }
    ensures { OnOk result (spans.new.entries ≡ insert_entry (eq_by_cmp term_cmp) spans.old.entries joined.now.term (record { puts = narrowed joined.now.puts; deletes = narrowed joined.now.deletes })) }
{
    let found = TermSpans::of(joined.puts, joined.deletes);
    note(alloc, spans, joined.term.type_no, joined.term.key, found)
}

fn note(
    alloc: Global,
    spans: &mut IndexMap<ShortTerm, TermSpans>,
    type_no: u16,
    key: Key,
    found: TermSpans,
) -> Result<(), AllocError>
    ensures { OnOk result (spans.new.entries ≡ insert_entry (eq_by_cmp term_cmp) spans.old.entries (term_of type_no key) found) }
{
    spans.insert(ShortTerm::of(alloc, type_no, key)?, found)?;
    Ok(())
}

// Adds a term to a list.
fn note_term(terms: &mut Vec<(TermKey, ())>, type_no: u16, key: Key) -> Result<(), AllocError>
    ensures { OnOk result (terms.new.items ≡ terms.old.items ++ (term_of type_no key, tt) ∷ []) }
{
    terms.push((TermKey { type_no, key }, ()))?;
    Ok(())
}

pub(crate) fn is_same(term: &ShortTerm, other: &ShortTerm) -> bool
    ensures { result ≡ eq_by_cmp term_cmp term.now other.now }
{
    term == other
}

// What a span tells of keys.
pub(crate) fn part(keys: &[DocKey], span: Span) -> &[DocKey]
    requires { (span.from ≤ span.to) × (span.to ≤ length keys.now) }
    ensures { result.now ≡ spanned span keys.now }
{
    &keys[span.from..span.to]
}

// The keys that a span tells, none where there is no span.
pub(crate) fn keys_at(keys: &[DocKey], span: Option<Span>) -> &[DocKey]
    requires { IfSome span (λ s. (s.from ≤ s.to) × (s.to ≤ length keys.now)) }
    ensures { result.now ≡ told span keys.now }
{
    match span {
        Some(span) => part(keys, span),
        None => &[],
    }
}
