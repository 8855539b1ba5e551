//! The oldest layers of a stack as one. The terms that the newer ones of them leave alone are
//! copied from the oldest, and only the others are read through all.
ghost use Rattle.std.specs.Prelude.{◌≡◌, ◌≤◌, ◌<◌, T, cond, take, length, IfOk, IfSome, OnOk};
ghost use Rattle.std.specs.FinMap.{is_sorted};
ghost use Rattle.posting_lists.specs.Postings.{section};
ghost use Rattle.layer_base.specs.Layers.{stack_table};
ghost use Rattle.layer_stack.specs.Places.{term_cmp};
ghost use Rattle.layer_stack.specs.Postings.{putting_all, putting_list};
ghost use Rattle.layer_stack.specs.Directories.{put_spans};
ghost use Rattle.layer_stack.specs.Spans.{told, IsSpans};
ghost use Rattle.layer_stack.specs.Combined.{AreChanged, is_among, StandsAlone};

use crate::directory::{Directory, Span};
use crate::front::FrontReader;
use crate::short_term::ShortTerm;
use crate::term_spans::puts_in;
use crate::{Delta, Stack, TermKey};
use layer_base::{first_after, last_words, look_up_near};
use posting_lists::PostingColumns;
use std::alloc::{AllocError, Global};

/// What layers of a stack change.
#[derive(Drop)]
pub(crate) struct Changed {
    // The terms at which they delete or put, in order, each once.
    pub(crate) terms: Vec<(TermKey, ())>,
    // How many postings the layers leave, where each delete is of one that stands.
    pub(crate) rows: usize,
}

impl Changed {
    // What layers after the oldest one change, up to a count.
    pub(crate) fn of(alloc: Global, stack: &Stack, count: usize) -> Result<Changed, AllocError>
        requires { (0 < count) × (count ≤ length stack.now.0) }
        ensures { IfOk result (λ changed. AreChanged (section 1 count stack.now.0) changed.terms.items) }
    {
        let mut log = Vec::new(alloc);
        let mut rows = stack.layer(0).rows_over(0);
        for i in 1..count {
            stack.layer(i).note_terms(&mut log)?;
            rows = stack.layer(i).rows_over(rows);
        }
        let terms = last_words(log)?;
        Ok(Changed { terms, rows })
    }
}

// Puts what the first layers of a stack stand for. The directory and the postings are what the
// oldest one puts, which stands alone under each term that is not among the changed ones. There is
// room from the start for so many rows, and for an eighth more terms than the oldest one has.
pub(crate) fn combined(
    alloc: Global,
    stack: &Stack,
    count: usize,
    changed: &[(TermKey, ())],
    rows: usize,
    directory: &Directory,
    postings: &PostingColumns,
) -> Result<Delta, AllocError>
    requires count { count ≤ length stack.now.0 }
    requires sorted { T (is_sorted term_cmp changed.now) }
    requires spans { IsSpans (length postings.now) (put_spans directory.now) }
    requires alone { StandsAlone changed.now (put_spans directory.now) postings.now (stack_table (take count stack.now.0)) }
    ensures { IfOk result (λ delta. delta ≡ putting_all (stack_table (take count stack.now.0))) }
{
    let mut front = FrontReader::of(alloc, stack, count)?;
    let terms = directory
        .len()
        .saturating_add(changed.len().min(directory.len() / 8));
    let mut delta = Delta::with_capacity(alloc, terms, rows)?;
    let mut at = 0;
    for (term, spans) in directory.iter() {
        let whole = term.term();
        let to = first_after(changed, at, &whole);
        front.put_terms(&mut delta, &changed[at..to])?;
        let span = puts_in(Some(*spans));
        put_unchanged(&mut delta, changed, at, term, &whole, postings, span)?;
        at = to;
    }
    front.put_terms(&mut delta, &changed[at..changed.len()])?;
    Ok(delta)
}

// Puts the postings of a span, if there is one, unless their term is among the changed ones, where
// the search for it begins at a hint. The term comes in both its forms.
fn put_unchanged(
    delta: &mut Delta,
    changed: &[(TermKey, ())],
    mut hint: usize,
    term: &ShortTerm,
    whole: &TermKey,
    postings: &PostingColumns,
    span: Option<Span>,
) -> Result<(), AllocError>
    requires sorted { T (is_sorted term_cmp changed.now) }
    requires same { whole.now ≡ term.now }
    requires within { IfSome span (λ s. (s.from < s.to) × (s.to ≤ length postings.now)) }
    ensures { OnOk result (delta.new ≡ cond (is_among term.now changed.now) delta.old (putting_list term.now (told span postings.now) delta.old)) }
{
    let Some(span) = span else {
        return Ok(());
    };
    if look_up_near(changed, &mut hint, whole).is_some() {
        return Ok(());
    }
    delta.put_run(term, postings, span)
}
