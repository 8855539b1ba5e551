ghost use Rattle.std.specs.Prelude.{◌≡◌, ◌++◌, ◌∷◌, [], OnOk};
ghost use Rattle.layer_stack.specs.Stacks.{and_part};

use crate::part::Part;
use std::alloc::{AllocError, Global};
use std::marker::Model;

/// What layers have under a term, the oldest first. The newest lies apart, so that one layer alone
/// takes no memory.
#[derive(Drop)]
pub(crate) struct Parts<'a> {
    pub(crate) older: Vec<Part<'a>>,
    pub(crate) newest: Option<Part<'a>>,
}

impl<'a> Model for Parts<'a> {
    ghost use Rattle.std.specs.Prelude.{List};
    ghost use Rattle.layer_stack.specs.Stacks.{PartValue, and_newest};

    ghost Value = { List PartValue };

    ghost view = { λ p. and_newest p.older.items p.newest };
}

impl<'a> Parts<'a> {
    pub(crate) fn new(alloc: Global) -> Parts<'a>
        ensures { result ≡ [] }
    {
        Parts {
            older: Vec::new(alloc),
            newest: None,
        }
    }

    // Adds what a newer layer has, if it has anything.
    pub(crate) fn add(&mut self, part: Part<'a>) -> Result<(), AllocError>
        ensures { OnOk result (self.new ≡ and_part self.old part.entry) }
    {
        if part.is_empty() {
            return Ok(());
        }
        self.push(part)
    }

    fn push(&mut self, part: Part<'a>) -> Result<(), AllocError>
        ensures { OnOk result (self.new ≡ self.old ++ part.entry ∷ []) }
    {
        if let Some(newest) = self.newest.replace(part) {
            self.older.push(newest)?;
        }
        Ok(())
    }
}

// Adds what a newer layer has, if it has anything.
pub(crate) fn add_part<'a>(parts: &mut Vec<Part<'a>>, part: Part<'a>) -> Result<(), AllocError>
    ensures { OnOk result (parts.new.items ≡ and_part parts.old.items part.entry) }
{
    if !part.is_empty() {
        parts.push(part)?;
    }
    Ok(())
}
