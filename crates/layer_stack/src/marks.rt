//! Which terms a small directory may have, to tell at a glance that it lacks one.
ghost use Rattle.std.specs.Prelude.{◌≡◌, ◌<◌, IfOk};
ghost use Rattle.layer_stack.specs.Marks.{is_ruled_out, mark_of, AreMarked};

use crate::TermKey;
use crate::short_term::ShortTerm;
use crate::term_spans::TermSpans;
use indexmap::IndexMap;
use std::alloc::{AllocError, Global};
use std::marker::Model;
use uni_base::Key;

/// How many marks a small directory has. It is a prime.
const MARKS: u64 = 1021;

/// A directory of more terms has no marks: too many of them would be set.
const MOST_TERMS: usize = 512;

/// The marks of terms. A term whose mark is not set is none of them; one whose mark is set may be one. Where
/// there are no marks nothing is told.
#[derive(Drop)]
pub(crate) struct Marks {
    marks: Vec<bool>,
}

impl Model for Marks {
    ghost use Rattle.std.specs.Prelude.{List, Bool};

    ghost Value = { List Bool };

    ghost view = { λ m. m.marks.items };
}

impl Marks {
    /// The marks of the terms of a directory.
    pub(crate) fn of(
        alloc: Global,
        spans: &IndexMap<ShortTerm, TermSpans>,
    ) -> Result<Marks, AllocError>
        ensures { IfOk result (λ marks. AreMarked marks spans.now.entries) }
    {
        if spans.is_empty() || spans.len() > MOST_TERMS {
            return Ok(Marks {
                marks: Vec::new(alloc),
            });
        }
        let mut marks = vec![in alloc; false; MARKS as usize]?;
        for at in 0..spans.len() {
            let (term, _spans) = spans.get_index(at).unwrap();
            marks[mark_of(&term.term())] = true;
        }
        Ok(Marks { marks })
    }

    /// Whether a term is surely none of them.
    pub(crate) fn rule_out(&self, term: &TermKey) -> bool
        ensures { result ≡ is_ruled_out self.now term.now }
    {
        match self.marks.get(mark_of(term)) {
            Some(marked) => !*marked,
            None => false,
        }
    }
}

// The place of the mark of a term.
fn mark_of(term: &TermKey) -> usize
    ensures mark { result ≡ mark_of term.now }
    ensures within { result < 1021 }
{
    let start = match &term.key {
        Key::Id(id) => id.get(),
        Key::Word(_) => 0,
    };
    ((start % MARKS + u64::from(term.type_no) % MARKS) % MARKS) as usize
}
