ghost use Rattle.std.specs.Prelude.{◌≡◌, ◌≤◌, IfSome};
ghost use Rattle.layer_stack.specs.Directories.{narrowed, widened, puts_in, deletes_in};

use crate::directory::Span;

/// A span in less memory. Where it would be empty, there is none.
#[derive(Clone, Copy)]
pub(crate) struct NarrowSpan {
    from: u32,
    to: u32,
}

/// Where the puts and the deletes of a term stand, each among its own rows.
#[derive(Clone, Copy)]
pub(crate) struct TermSpans {
    puts: NarrowSpan,
    deletes: NarrowSpan,
}

impl NarrowSpan {
    fn of(span: Option<Span>) -> NarrowSpan
        requires { IfSome span (λ s. (s.from ≤ u32.MAX) × (s.to ≤ u32.MAX)) }
        ensures { result ≡ narrowed span }
    {
        match span {
            Some(span) => NarrowSpan {
                from: span.from as u32,
                to: span.to as u32,
            },
            None => NarrowSpan { from: 0, to: 0 },
        }
    }

    fn span(self) -> Option<Span>
        ensures { result ≡ widened self }
    {
        if self.from >= self.to {
            return None;
        }
        Some(Span {
            from: self.from as usize,
            to: self.to as usize,
        })
    }
}

impl TermSpans {
    pub(crate) fn of(puts: Option<Span>, deletes: Option<Span>) -> TermSpans
        requires puts { IfSome puts (λ s. (s.from ≤ u32.MAX) × (s.to ≤ u32.MAX)) }
        requires deletes { IfSome deletes (λ s. (s.from ≤ u32.MAX) × (s.to ≤ u32.MAX)) }
        ensures { result ≡ record { puts = narrowed puts; deletes = narrowed deletes } }
    {
        TermSpans {
            puts: NarrowSpan::of(puts),
            deletes: NarrowSpan::of(deletes),
        }
    }
}

// Where the puts of a term stand, if it was found and has puts.
pub(crate) fn puts_in(found: Option<TermSpans>) -> Option<Span>
    ensures { result ≡ puts_in found }
{
    found?.puts.span()
}

// Where its deletes stand, if it was found and has deletes.
pub(crate) fn deletes_in(found: Option<TermSpans>) -> Option<Span>
    ensures { result ≡ deletes_in found }
{
    found?.deletes.span()
}
