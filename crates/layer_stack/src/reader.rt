ghost use Rattle.std.specs.Prelude.{◌≡◌, [], OnOk};
ghost use Rattle.std.specs.Option.{option_map};
ghost use Rattle.layer_stack.specs.Based.{layer_of};
ghost use Rattle.layer_stack.specs.Postings.{postings_of, deletes_of};
ghost use Rattle.layer_stack.specs.Readers.{AreBefore};
ghost use Rattle.layer_stack.specs.Stacks.{and_part};

use crate::TermKey;
use crate::part::{Part, over_base};
use crate::parts::add_part;
use crate::rows::Rows;
use crate::rows_reader::RowsReader;
use std::alloc::AllocError;
use std::marker::Model;

/// What a layer has under one term after another. The terms are asked for in their order, so that
/// in its own rows no term is searched for.
#[derive(Drop)]
pub(crate) struct LayerReader<'a> {
    rows: RowsReader<'a>,
    // What stands under the terms that the rows leave alone.
    base: Option<&'a Rows>,
}

impl<'a> Model for LayerReader<'a> {
    ghost use Rattle.std.specs.Option.{option_map};
    ghost use Rattle.std.specs.Coded.{codes};
    ghost use Rattle.std.specs.FinMap as finite;
    ghost use Rattle.layer_stack.specs.Based.{layer_of};
    ghost use Rattle.layer_stack.specs.Readers.{ReaderValue};

    ghost Value = { ReaderValue };

    ghost coded = { Prim.hlevel (codes, finite.code) };

    ghost view = { λ r. (layer_of r.rows.0 (option_map (λ b. b.now) r.base), r.rows.1) };
}

impl<'a> LayerReader<'a> {
    // A reader of rows that lie over a base, if there is one.
    pub(crate) fn over(rows: &'a Rows, base: Option<&'a Rows>) -> LayerReader<'a>
        ensures { result ≡ (layer_of rows.now (option_map (λ b. b.now) base.entry), []) }
    {
        LayerReader {
            rows: rows.reader(),
            base,
        }
    }

    // Goes back to the first terms.
    pub(crate) fn restart(&mut self)
        ensures { self.new ≡ (self.old.0, []) }
    {
        self.rows.restart();
    }

    // Adds what the layer has under a term, if it has anything, and passes the terms before it.
    pub(crate) fn add_to(
        &mut self,
        parts: &mut Vec<Part<'a>>,
        term: &TermKey,
    ) -> Result<(), AllocError>
        requires { AreBefore term.now self.old.1 }
        ensures parts { OnOk result (parts.new.items ≡ and_part parts.old.items (deletes_of term.now self.old.0, postings_of term.now self.old.0.puts)) }
        ensures same { self.new.0 ≡ self.old.0 }
        ensures passed { AreBefore term.now self.new.1 }
    {
        let part = self.rows.part(term);
        let part = match self.base {
            Some(base) => over_base(part, base, term),
            None => part,
        };
        add_part(parts, part)
    }
}
