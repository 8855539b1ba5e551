ghost use Rattle.std.specs.Prelude.{◌≡◌, ◌≤◌, ◌++◌, ◌∷◌, [], length, IfOk, OnOk};
ghost use Rattle.layer_stack.specs.Spans.{spanned};
ghost use Rattle.layer_stack.specs.Runs.{AreWithin, AreArranged, left_of, numbered, span_at};

use crate::directory::{Span, is_same};
use crate::runs::add_run;
use crate::short_term::ShortTerm;
use layer_base::keep_last_words;
use std::alloc::{AllocError, Global};
use uni_base::DocKey;

/// Numbered keys in the order of places, and where those of each term stand.
#[derive(Drop)]
pub(crate) struct Arrangement {
    pub(crate) spans: Vec<(ShortTerm, Span)>,
    pub(crate) rows: Vec<(DocKey, usize)>,
}

// The last words of runs of keys, in the order of places. Each key has its place among all keys. The
// runs are put in the order of their terms, and then the keys of each term in theirs.
pub(crate) fn arrange(
    alloc: Global,
    mut runs: Vec<(ShortTerm, Span)>,
    keys: &[DocKey],
) -> Result<Arrangement, AllocError>
    requires { AreWithin (length keys.now) runs.items }
    ensures { IfOk result (λ a. AreArranged runs.items keys.now a.spans.items a.rows.items) }
{
    runs.sort_by(|one, other| one.0.cmp(&other.0))?;
    let mut arrangement = Arrangement {
        spans: Vec::with_capacity(alloc, runs.len())?,
        rows: Vec::with_capacity(alloc, keys.len())?,
    };
    let mut group = Vec::new(alloc);
    let mut from = 0;
    for i in 0..runs.len() {
        if i + 1 == runs.len() || !is_same(&runs[i + 1].0, &runs[i].0) {
            let term = &runs[i].0;
            add_term(&mut arrangement, &mut group, term, &runs[from..i + 1], keys)?;
            from = i + 1;
        }
    }
    Ok(arrangement)
}

// Adds what runs of a term leave. `group` is used on the way.
fn add_term(
    arrangement: &mut Arrangement,
    group: &mut Vec<(DocKey, usize)>,
    term: &ShortTerm,
    runs: &[(ShortTerm, Span)],
    keys: &[DocKey],
) -> Result<(), AllocError>
    requires { AreWithin (length keys.now) runs.now }
    ensures rows { OnOk result (arrangement.new.rows.items ≡ arrangement.old.rows.items ++ left_of runs.now keys.now) }
    ensures spans { OnOk result (arrangement.new.spans.items ≡ arrangement.old.spans.items ++ (term.now, span_at (length arrangement.old.rows.items) (length arrangement.new.rows.items)) ∷ []) }
{
    group.clear();
    for (_term, span) in runs {
        add_numbers(group, keys, *span)?;
    }
    keep_last_words(group)?;
    let from = arrangement.rows.len();
    arrangement.rows.append(group)?;
    let to = arrangement.rows.len();
    add_run(&mut arrangement.spans, term, Span { from, to })
}

// Adds the numbered keys of a span.
fn add_numbers(
    group: &mut Vec<(DocKey, usize)>,
    keys: &[DocKey],
    span: Span,
) -> Result<(), AllocError>
    requires { (span.from ≤ span.to) × (span.to ≤ length keys.now) }
    ensures { OnOk result (group.new.items ≡ group.old.items ++ spanned span (numbered keys.now)) }
{
    for i in span.from..span.to {
        group.push((keys[i], i))?;
    }
    Ok(())
}
