ghost use Rattle.std.specs.Prelude.{◌≡◌, ◌<◌, [], length, OnErr, IfOk, Some, slice_get};
ghost use Rattle.posting_lists.specs.Audiences.{Extends, audience_of, IsStored};

use indexmap::IndexSet;
use std::alloc::{AllocError, Global};
use std::marker::Model;
use uni_base::{Audience, Key};

/// A circle: a type and a key, whose edges lead to its members.
pub(crate) type Circle = (u16, Key);

/// An audience as it is stored: a circle by its number in a table.
#[derive(Clone, Copy)]
pub(crate) enum StoredAudience {
    Public,
    Only,
    Circle(u32),
}

/// The circles that occur in a list, each with the number of its place.
#[derive(Drop)]
pub(crate) struct CircleTable {
    circles: IndexSet<Circle>,
}

impl Model for CircleTable {
    ghost use Rattle.std.specs.Prelude.{List, ℕ};
    ghost use Rattle.uni_base.specs.declared.edge.Key.{Key};

    ghost Value = { List (ℕ × Key) };

    ghost view = { λ c. c.circles.keys };
}

impl CircleTable {
    pub(crate) fn new(alloc: Global) -> CircleTable
        ensures { result ≡ [] }
    {
        CircleTable {
            circles: IndexSet::new(alloc),
        }
    }

    pub(crate) fn get(&self, number: u32) -> Circle
        requires { number < length self.now }
        ensures { slice_get self.now number ≡ Some result }
    {
        *self.circles.get_index(number as usize).unwrap()
    }

    // An audience as it is stored over the table, which gains its circle where that is new.
    pub(crate) fn store(&mut self, audience: &Audience) -> Result<StoredAudience, AllocError>
        ensures stands { IfOk result (λ s. audience_of self.new s ≡ audience.now) }
        ensures stored { IfOk result (IsStored self.new) }
        ensures extends { Extends self.old self.new }
        ensures err { OnErr result (self.new ≡ self.old) }
    {
        match audience {
            Audience::Public => Ok(StoredAudience::Public),
            Audience::Only => Ok(StoredAudience::Only),
            Audience::Circle(type_no, key) => {
                let number = self.number(&(*type_no, *key))?;
                Ok(StoredAudience::Circle(number))
            }
        }
    }

    // The number of a circle, which is added where it is new.
    fn number(&mut self, circle: &Circle) -> Result<u32, AllocError>
        ensures number { IfOk result (λ n. slice_get self.new n ≡ Some circle.now) }
        ensures extends { Extends self.old self.new }
        ensures err { OnErr result (self.new ≡ self.old) }
    {
        if self.circles.len() >= u32::MAX as usize {
            return Err(AllocError);
        }
        let (number, _is_new) = self.circles.insert_full(*circle)?;
        Ok(number as u32)
    }
}
