ghost use Rattle.std.specs.Prelude.{◌≡◌, ◌<◌, ◌+◌, ◌||◌, None, Some, true, cond, is_some, IfSome, IfNone, IsTrue};
ghost use Rattle.std.specs.List.{slice_get};
ghost use Rattle.layer_stack.specs.Directories.{IsNext};

use crate::TermKey;
use crate::directory::Span;
use crate::short_term::ShortTerm;
use std::cmp::Ordering;

/// A term, and what each of two lists has at it.
#[derive(Clone, Copy)]
pub(crate) struct Joined {
    pub(crate) term: TermKey,
    pub(crate) puts: Option<Span>,
    pub(crate) deletes: Option<Span>,
}

// The lesser of the terms at places in two lists, and what each list has at it. None exactly where
// nothing stands at either place.
pub(crate) fn next(
    puts: &[(ShortTerm, Span)],
    put: usize,
    deletes: &[(ShortTerm, Span)],
    deleted: usize,
) -> Option<Joined>
    ensures puts { IfSome result (λ n. IsNext n.term n.puts (slice_get puts.now put)) }
    ensures deletes { IfSome result (λ n. IsNext n.term n.deletes (slice_get deletes.now deleted)) }
    ensures some { IfSome result (λ n. (is_some n.deletes || is_some n.puts) ≡ true) }
    ensures none { IfNone result ((slice_get puts.now put ≡ None) × (slice_get deletes.now deleted ≡ None)) }
{
    match (puts.get(put), deletes.get(deleted)) {
        (None, None) => None,
        (Some((term, span)), None) => Some(put_alone(term, *span)),
        (None, Some((term, span))) => Some(delete_alone(term, *span)),
        (Some(put), Some(deleted)) => Some(lesser(put, deleted)),
    }
}

// The lesser of the terms of two rows, and what each list has at it.
fn lesser(put: &(ShortTerm, Span), deleted: &(ShortTerm, Span)) -> Joined
    ensures puts { IsNext result.term result.puts (Some put.now) }
    ensures deletes { IsNext result.term result.deletes (Some deleted.now) }
    ensures some { (is_some result.deletes || is_some result.puts) ≡ true }
{
    match put.0.cmp(&deleted.0) {
        Ordering::Less => put_alone(&put.0, put.1),
        Ordering::Equal => Joined {
            term: put.0.term(),
            puts: Some(put.1),
            deletes: Some(deleted.1),
        },
        Ordering::Greater => delete_alone(&deleted.0, deleted.1),
    }
}

// A term that only puts.
fn put_alone(term: &ShortTerm, span: Span) -> Joined
    ensures { result ≡ record { term = term.now; puts = Some span; deletes = None } }
{
    Joined {
        term: term.term(),
        puts: Some(span),
        deletes: None,
    }
}

// A term that only deletes.
fn delete_alone(term: &ShortTerm, span: Span) -> Joined
    ensures { result ≡ record { term = term.now; puts = None; deletes = Some span } }
{
    Joined {
        term: term.term(),
        puts: None,
        deletes: Some(span),
    }
}

// The place after one that a list has at a term, else the same.
pub(crate) fn after(at: usize, span: Option<Span>) -> usize
    requires { IsTrue (is_some span) → at < usize.MAX }
    ensures { result ≡ cond (is_some span) (at + 1) at }
{
    if span.is_some() { at + 1 } else { at }
}
