ghost use Rattle.std.specs.Prelude.{◌≡◌, ◌+◌, ◌<◌, ◌==◌, ◌&&◌, ◌++◌, ◌∷◌, [], length, OnOk, OnErr, IsTrue};
ghost use Rattle.std.specs.Ordering.{eq_by_cmp};
ghost use Rattle.uni_base.specs.Cursors.{IsRanked};
ghost use Rattle.layer_stack.specs.Places.{term_cmp, term_of};
ghost use Rattle.layer_stack.specs.Runs.{Adds, span_at, AreWithin, AreInTurn};

use crate::TermKey;
use crate::directory::{Span, part};
use crate::short_term::ShortTerm;
use std::alloc::AllocError;
use uni_base::{DocKey, Key};

// Notes that the row at a place is of a term: it adds to the last run, where that is of the term and
// ends there, or begins one.
pub(crate) fn note_row(
    runs: &mut Vec<(ShortTerm, Span)>,
    term: &TermKey,
    at: usize,
) -> Result<(), AllocError>
    requires { at < usize.MAX }
    ensures ok { OnOk result (Adds runs.old.items term.now at runs.new.items) }
    ensures err { OnErr result (runs.new.items ≡ runs.old.items) }
{
    let count = runs.len();
    if count > 0 && goes_on(&runs[count - 1], term, at) {
        runs[count - 1].1.to = at + 1;
        return Ok(());
    }
    begin_run(runs, term.type_no, term.key, at)
}

// Adds a run of a term.
pub(crate) fn add_run(
    runs: &mut Vec<(ShortTerm, Span)>,
    term: &ShortTerm,
    span: Span,
) -> Result<(), AllocError>
    ensures ok { OnOk result (runs.new.items ≡ runs.old.items ++ (term.now, span) ∷ []) }
    ensures err { OnErr result (runs.new.items ≡ runs.old.items) }
{
    let term = term.copy(*runs.allocator())?;
    runs.push((term, span))?;
    Ok(())
}

// Begins a run with the row at a place.
fn begin_run(
    runs: &mut Vec<(ShortTerm, Span)>,
    type_no: u16,
    key: Key,
    at: usize,
) -> Result<(), AllocError>
    requires { at < usize.MAX }
    ensures ok { OnOk result (runs.new.items ≡ runs.old.items ++ (term_of type_no key, span_at at (at + 1)) ∷ []) }
    ensures err { OnErr result (runs.new.items ≡ runs.old.items) }
{
    let span = Span {
        from: at,
        to: at + 1,
    };
    let term = ShortTerm::of(*runs.allocator(), type_no, key)?;
    runs.push((term, span))?;
    Ok(())
}

// Whether a run goes on with the row of a term at a place.
fn goes_on(run: &(ShortTerm, Span), term: &TermKey, at: usize) -> bool
    ensures { result ≡ ((run.now.1.to == at) && eq_by_cmp term_cmp run.now.0 term.now) }
{
    run.1.to == at && run.0.compare(term).is_eq()
}

// Whether the rows that runs tell are all rows in turn, in rank order in each run.
pub(crate) fn are_in_turn(runs: &[(ShortTerm, Span)], keys: &[DocKey]) -> bool
    requires { AreWithin (length keys.now) runs.now }
    ensures { IsTrue result → AreInTurn runs.now keys.now }
{
    let mut at = 0;
    for (_term, span) in runs {
        if span.from != at || !is_ranked(part(keys, *span)) {
            return false;
        }
        at = span.to;
    }
    at == keys.len()
}

// Whether keys strictly rise in rank order.
fn is_ranked(keys: &[DocKey]) -> bool
    ensures { IsTrue result → IsRanked keys.now }
{
    for i in 1..keys.len() {
        if !keys[i - 1].cmp(&keys[i]).is_lt() {
            return false;
        }
    }
    true
}
