ghost use Rattle.std.specs.Prelude.{◌≡◌, ◌≤◌, [], All, length, take, IfOk, IfSome, OnOk};
ghost use Rattle.layer_base.specs.Layers.{stack_table};
ghost use Rattle.layer_stack.specs.Combined.{putting_terms};
ghost use Rattle.layer_stack.specs.Postings.{postings_of, putting_list};
ghost use Rattle.layer_stack.specs.Readers.{layers_read, StandBefore};
ghost use Rattle.layer_stack.specs.Stacks.{remaining_of};

use crate::merge::{least, next};
use crate::part::Part;
use crate::reader::LayerReader;
use crate::{Delta, Stack, TermKey};
use std::alloc::{AllocError, Global};
use std::marker::Model;

/// The first layers of a stack, read under one term after another. Terms that are read in their
/// order are found in each layer at once, and all of them use the same memory.
#[derive(Drop)]
pub(crate) struct FrontReader<'a> {
    // One for each of the layers.
    readers: Vec<LayerReader<'a>>,
    // The term that was read last. The readers have passed terms before it alone.
    last: Option<TermKey>,
    parts: Vec<Part<'a>>,
}

impl<'a> Model for FrontReader<'a> {
    ghost use Rattle.std.specs.Prelude.{List, IfSome};
    ghost use Rattle.std.specs.Coded.{codes};
    ghost use Rattle.std.specs.FinMap as finite;
    ghost use Rattle.layer_stack.specs.Postings.{PostingChanges};
    ghost use Rattle.layer_stack.specs.Readers.{layers_read, StandBefore};

    ghost Value = { List PostingChanges };

    ghost coded = { Prim.hlevel (codes, finite.code) };

    ghost view = { λ r. layers_read r.readers.items };

    ghost invariant = { λ r. IfSome r.last (λ t. StandBefore t r.readers.items) };
}

impl<'a> FrontReader<'a> {
    // A reader of the first `count` layers.
    pub(crate) fn of(
        alloc: Global,
        stack: &'a Stack,
        count: usize,
    ) -> Result<FrontReader<'a>, AllocError>
        requires { count ≤ length stack.now.0 }
        ensures { IfOk result (λ reader. reader ≡ take count stack.now.0) }
    {
        let mut readers = Vec::with_capacity(alloc, count)?;
        for i in 0..count {
            readers.push(stack.layer(i).reader())?;
        }
        Ok(FrontReader {
            readers,
            last: None,
            parts: Vec::new(alloc),
        })
    }

    // Puts what the layers have under some terms.
    pub(crate) fn put_terms(
        &mut self,
        delta: &mut Delta,
        terms: &[(TermKey, ())],
    ) -> Result<(), AllocError>
        ensures same { self.new ≡ self.old }
        ensures put { OnOk result (delta.new ≡ putting_terms (stack_table self.old) terms.now delta.old) }
    {
        for (term, _nothing) in terms {
            self.put_term(delta, term)?;
        }
        Ok(())
    }

    // Puts what the layers have under a term.
    fn put_term(&mut self, delta: &mut Delta, term: &TermKey) -> Result<(), AllocError>
        ensures same { self.new ≡ self.old }
        ensures put { OnOk result (delta.new ≡ putting_list term.now (postings_of term.now (stack_table self.old)) delta.old) }
    {
        turn_to(&mut self.readers, &self.last, term);
        self.last = Some(*term);
        gather(&mut self.readers, term, &mut self.parts)?;
        put_parts(delta, term, &mut self.parts)
    }
}

// Readies readers for a term: unless it comes after the last one, they go back to the first terms.
fn turn_to(readers: &mut [LayerReader<'_>], last: &Option<TermKey>, term: &TermKey)
    requires { IfSome last.now (λ t. StandBefore t readers.old) }
    ensures same { layers_read readers.new ≡ layers_read readers.old }
    ensures ready { StandBefore term.now readers.new }
{
    if let Some(last) = last {
        if last.cmp(term).is_lt() {
            return;
        }
    }
    restart_all(readers);
}

fn restart_all(readers: &mut [LayerReader<'_>])
    ensures same { layers_read readers.new ≡ layers_read readers.old }
    ensures start { All (λ r. r.1 ≡ []) readers.new }
{
    for reader in readers.iter_mut() {
        reader.restart();
    }
}

// What layers have under a term, in place of what was there before.
fn gather<'a>(
    readers: &mut [LayerReader<'a>],
    term: &TermKey,
    parts: &mut Vec<Part<'a>>,
) -> Result<(), AllocError>
    requires { StandBefore term.now readers.old }
    ensures parts { OnOk result (remaining_of parts.new.items ≡ postings_of term.now (stack_table (layers_read readers.old))) }
    ensures same { layers_read readers.new ≡ layers_read readers.old }
    ensures ready { StandBefore term.now readers.new }
{
    parts.clear();
    for reader in readers.iter_mut() {
        reader.add_to(parts, term)?;
    }
    Ok(())
}

// Puts the postings of a term that parts stand for.
fn put_parts(delta: &mut Delta, term: &TermKey, parts: &mut [Part<'_>]) -> Result<(), AllocError>
    ensures { OnOk result (delta.new ≡ putting_list term.now (remaining_of parts.old) delta.old) }
{
    let mut head = least(parts);
    while let Some(posting) = next(parts, &mut head) {
        delta.put(*term, posting)?;
    }
    Ok(())
}
