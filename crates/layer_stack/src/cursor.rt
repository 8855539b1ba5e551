ghost use Rattle.std.specs.Prelude.{◌≡◌, drop, IfOk};
ghost use Rattle.std.specs.List.{slice_get};
ghost use Rattle.std.specs.Option.{option_map};
ghost use Rattle.posting_lists.specs.Postings.{keys_of, postings_from};
ghost use Rattle.uni_base.specs.Cursors.{keys_from};
ghost use Rattle.layer_stack.specs.Stacks.{remaining_of};

use crate::merging::MergingCursor;
use crate::parts::Parts;
use posting_lists::{ListCursor, Posting};
use std::alloc::AllocError;
use std::marker::Model;
use uni_base::{Audience, DocCursor, DocKey};

/// The postings of a term in a stack that are still to be read, in rank order. Where one layer
/// alone has the term they are its list; else the layers that have it are read side by side.
#[derive(Drop)]
pub struct StackCursor<'a> {
    source: Source<'a>,
}

// Where a cursor reads.
#[derive(Drop)]
enum Source<'a> {
    One(ListCursor<'a>),
    Several(MergingCursor<'a>),
}

impl<'a> Model for StackCursor<'a> {
    ghost use Rattle.std.specs.Prelude.{List};
    ghost use Rattle.posting_lists.specs.declared.posting.Posting.{Posting};
    ghost use Rattle.layer_stack.specs.Sources.{postings_in};

    ghost Value = { List Posting };

    ghost view = { λ c. postings_in c.source };
}

impl<'a> StackCursor<'a> {
    pub(crate) fn over(parts: Parts<'a>) -> Result<StackCursor<'a>, AllocError>
        ensures { IfOk result (λ cursor. cursor ≡ remaining_of parts.entry) }
    {
        let Parts { mut older, newest } = parts;
        if let Some(newest) = newest {
            if older.is_empty() {
                let source = Source::One(newest.into_list());
                return Ok(StackCursor { source });
            }
            older.push(newest)?;
        }
        let source = Source::Several(MergingCursor::over(older));
        Ok(StackCursor { source })
    }

    /// The current posting. None exactly at the end.
    pub fn posting(&self) -> Option<Posting>
        ensures { result ≡ slice_get self.now 0 }
    {
        match &self.source {
            Source::One(list) => list.posting(),
            Source::Several(layers) => layers.posting(),
        }
    }

    /// The audience of the current posting. None exactly at the end.
    pub fn audience(&self) -> Option<Audience>
        ensures { result ≡ option_map (λ p. p.audience) (slice_get self.now 0) }
    {
        Some(self.posting()?.audience)
    }
}

impl<'a> DocCursor for StackCursor<'a> {
    ghost remaining = { λ c. keys_of c };

    fn peek(&self) -> Option<DocKey> {
        match &self.source {
            Source::One(list) => list.peek(),
            Source::Several(layers) => layers.peek(),
        }
    }

    fn step(&mut self)
        ensures keys { keys_of self.new ≡ drop 1 (keys_of self.old) }
        ensures postings { self.new ≡ drop 1 self.old }
    {
        match &mut self.source {
            Source::One(list) => list.step(),
            Source::Several(layers) => layers.step(),
        }
    }

    fn seek(&mut self, from: DocKey)
        ensures keys { keys_of self.new ≡ keys_from from (keys_of self.old) }
        ensures postings { self.new ≡ postings_from from self.old }
    {
        match &mut self.source {
            Source::One(list) => list.seek(from),
            Source::Several(layers) => layers.seek(from),
        }
    }
}
