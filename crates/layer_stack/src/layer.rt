ghost use Rattle.std.specs.Prelude.{◌≡◌, ◌<◌, ◌≤◌, ◌+◌, ◌^◌, false, [], Some, take, length, IfOk, OnOk};
ghost use Rattle.std.specs.List.{slice_get};
ghost use Rattle.posting_lists.specs.Postings.{section};
ghost use Rattle.layer_base.specs.Layers.{stack_table};
ghost use Rattle.std.specs.FinMap as finite;
ghost use Rattle.layer_stack.specs.Based.{IsBased, laid_over};
ghost use Rattle.layer_stack.specs.Combined.{AreChanged, is_among};
ghost use Rattle.layer_stack.specs.Postings.{postings_of, deletes_of, entries_of, putting_all};
ghost use Rattle.layer_stack.specs.Words.{has_term, IsWordFrom};

use crate::combine::Changed;
use crate::part::{Part, over_base};
use crate::patch::merged;
use crate::reader::LayerReader;
use crate::rows::Rows;
use crate::words::earlier;
use crate::{Delta, Stack, TermKey};
use layer_base::last_words;
use std::alloc::{AllocError, Global};
use std::marker::Model;
use std::sync::Arc;
use std::sync::ledger::Ledger;
use uni_base::{Steps, Word};

/// A layer of a stack of postings: the postings that it deletes, and those that it puts. A merged
/// layer may share most of its postings with the one that it is made of: it has rows of its own
/// under the terms that changed since, and a base under all others.
#[derive(Drop)]
pub struct Layer {
    rows: Arc<Rows>,
    base: Option<Base>,
}

/// What stands under the terms that a layer's own rows leave alone.
#[derive(Drop)]
pub(crate) struct Base {
    rows: Arc<Rows>,
    // How many postings the layer has, with its own.
    count: usize,
}

impl Model for Layer {
    ghost use Rattle.std.specs.Prelude.{IfSome};
    ghost use Rattle.std.specs.Option.{option_map};
    ghost use Rattle.std.specs.Coded.{codes};
    ghost use Rattle.std.specs.FinMap as finite;
    ghost use Rattle.layer_stack.specs.Based.{IsBased, layer_of};
    ghost use Rattle.layer_stack.specs.Postings.{PostingChanges};

    ghost Value = { PostingChanges };

    ghost coded = { Prim.hlevel (codes, finite.code) };

    ghost view = { λ l. layer_of l.rows.value (option_map (λ b. b.rows.value) l.base) };

    ghost invariant = { λ l. IfSome l.base (λ b. IsBased l.rows.value b.rows.value b.count) };
}

impl Layer {
    /// The layer of some changes.
    pub fn build(alloc: Global, delta: Delta) -> Result<Layer, AllocError>
        ensures { IfOk result (λ layer. layer ≡ delta) }
    {
        let rows = Rows::build(alloc, delta)?;
        let rows = Arc::new(alloc, rows)?;
        Ok(Layer { rows, base: None })
    }

    // The layer of rows over a base, of whose postings so many are under the terms that the rows leave
    // alone.
    pub(crate) fn over(rows: Arc<Rows>, base: Arc<Rows>, left: usize) -> Layer
        requires { IsBased rows.value base.value (left + finite.len rows.value.puts) }
        ensures { result ≡ putting_all (laid_over base.value.puts rows.value) }
    {
        let count = left + rows.puts();
        Layer {
            rows,
            base: Some(Base { rows: base, count }),
        }
    }

    /// The number of its deletes and puts.
    pub fn entries(&self) -> u64
        ensures entries { result ≡ entries_of self.now }
        ensures few { result ≤ 2 ^ 62 }
    {
        match &self.base {
            Some(base) => base.count as u64,
            None => self.rows.entries(),
        }
    }

    /// The least word, from a given one on and past it where `strict`, at which the layer has a
    /// delete or a put of a type. None exactly where there is none. It counts one step, and takes
    /// no memory.
    pub fn word_from<L: Ledger>(
        &self,
        type_no: u16,
        from: &Word,
        strict: bool,
        steps: &mut Steps<L>,
    ) -> Option<Word>
        ensures least { IsWordFrom (λ t. has_term t self.now) type_no from.now strict result }
        ensures counted { steps.new ≡ steps.old + 1 }
    {
        steps.tick();
        let word = self.rows.word_from(type_no, from, strict);
        match &self.base {
            Some(base) => earlier(word, base.rows.word_from(type_no, from, strict)),
            None => word,
        }
    }

    // What it deletes and puts under a term.
    pub(crate) fn part(&self, term: &TermKey) -> Part<'_>
        ensures { result ≡ (deletes_of term.now self.now, postings_of term.now self.now.puts) }
    {
        let part = self.rows.part(term);
        match &self.base {
            Some(base) => over_base(part, &base.rows, term),
            None => part,
        }
    }

    // How many postings stand where the layer lies over so many, and each of its deletes is of one that stands.
    pub(crate) fn rows_over(&self, rows: usize) -> usize {
        match &self.base {
            Some(base) => rows.saturating_add(base.count),
            None => self.rows.rows_over(rows),
        }
    }

    // A reader of what it has under one term after another.
    pub(crate) fn reader(&self) -> LayerReader<'_>
        ensures { result ≡ (self.now, []) }
    {
        match &self.base {
            Some(base) => LayerReader::over(&self.rows, Some(&base.rows)),
            None => LayerReader::over(&self.rows, None),
        }
    }

    // Adds the terms at which it deletes or puts to a list, and maybe others.
    pub(crate) fn note_terms(&self, terms: &mut Vec<(TermKey, ())>) -> Result<(), AllocError>
        ensures { OnOk result ((t : TermKey) → is_among t terms.new.items ≡ false → (is_among t terms.old.items ≡ false) × (has_term t self.now ≡ false)) }
    {
        self.rows.note_terms(terms)?;
        if let Some(base) = &self.base {
            base.rows.note_terms(terms)?;
        }
        Ok(())
    }

    // What the first layers of a stack stand for, of which this is the oldest one, as one layer. What is
    // changed is what the newer ones of them change.
    pub(crate) fn combined(
        &self,
        alloc: Global,
        stack: &Stack,
        count: usize,
        changed: Changed,
    ) -> Result<Layer, AllocError>
        requires oldest { slice_get stack.now.0 0 ≡ Some self.now }
        requires count { (0 < count) × (count ≤ length stack.now.0) }
        requires changed { AreChanged (section 1 count stack.now.0) changed.terms.items }
        ensures { IfOk result (λ layer. layer ≡ putting_all (stack_table (take count stack.now.0))) }
    {
        let Changed { mut terms, rows } = changed;
        match &self.base {
            Some(base) => {
                self.rows.note_terms(&mut terms)?;
                let terms = last_words(terms)?;
                merged(alloc, stack, count, &terms, rows, &base.rows)
            }
            None => merged(alloc, stack, count, &terms, rows, &self.rows),
        }
    }
}
