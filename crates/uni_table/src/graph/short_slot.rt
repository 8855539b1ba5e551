//! What stands at an edge, in less memory.
ghost use Rattle.std.specs.Prelude.{◌≡◌, ℕ, is_err, false, IfOk, IfSome, OnOk, OnErr};
ghost use Rattle.uni_table.specs.declared.graph.numbers.SlotState.TheVariants.{Gone};
ghost use Rattle.uni_table.specs.GraphRows.{settled, stood, written};
ghost use Rattle.uni_table.specs.ShortSlots.{before_of, state_of, told};

use super::numbers::{Before, Slot, SlotState};
use std::alloc::{AllocError, Global};
use std::marker::Model;

/// What stands at an edge, without the number of its circle.
#[derive(Clone, Copy)]
enum Kind {
    Gone,
    Public,
    Only,
    Circle,
}

/// What stood there at the last publish, without the number of its circle.
#[derive(Clone, Copy)]
enum Was {
    Same,
    Gone,
    Public,
    Only,
    Circle,
}

/// What an edge is where it has no end, had none, and has one circle at most: its kinds, the circle, and the next
/// edges of its target and its source. Else the slot in a box.
#[derive(Drop)]
enum Packed {
    Short(Kind, Was, u32, u32, u32),
    Long(Box<Slot>),
}

/// A slot in 16 bytes, and one with an end in a box of its own. Contracts see the slot.
#[derive(Drop)]
pub(crate) struct ShortSlot {
    packed: Packed,
}

impl Model for ShortSlot {
    ghost use Rattle.uni_table.specs.declared.graph.numbers.Slot.{Slot};
    ghost use Rattle.uni_table.specs.ShortSlots.{told};

    ghost Value = { Slot };

    ghost view = { λ s. told s.packed };
}

impl Kind {
    fn state(self, circle: u32) -> SlotState
        ensures { result ≡ state_of self circle }
    {
        match self {
            Kind::Gone => SlotState::Gone,
            Kind::Public => SlotState::Public,
            Kind::Only => SlotState::Only,
            Kind::Circle => SlotState::Circle(circle),
        }
    }
}

impl Was {
    // The same, told without what stands now, which has no end.
    #[tactic(auto, unfolding(crate::specs::GraphRows::stood))]
    fn stood(self, kind: Kind) -> Was
        ensures { (circle : ℕ) → before_of result circle ≡ stood (before_of self circle) (state_of kind circle) 0 }
    {
        match (self, kind) {
            (Was::Same, Kind::Gone) => Was::Gone,
            (Was::Same, Kind::Public) => Was::Public,
            (Was::Same, Kind::Only) => Was::Only,
            (Was::Same, Kind::Circle) => Was::Circle,
            (was, _) => was,
        }
    }

    fn before(self, circle: u32) -> Before
        ensures { result ≡ before_of self circle }
    {
        match self {
            Was::Same => Before::Same,
            Was::Gone => Before::Gone,
            Was::Public => Before::Public(0),
            Was::Only => Before::Only(0),
            Was::Circle => Before::Circle(circle, 0),
        }
    }
}

// The kind of a state that has no circle but one.
fn kind_beside(state: SlotState, circle: u32) -> Option<Kind>
    ensures { IfSome result (λ kind. state_of kind circle ≡ state) }
{
    match state {
        SlotState::Gone => Some(Kind::Gone),
        SlotState::Public => Some(Kind::Public),
        SlotState::Only => Some(Kind::Only),
        SlotState::Circle(number) => {
            if number == circle {
                Some(Kind::Circle)
            } else {
                None
            }
        }
    }
}

// The circle of a state, or a number.
fn circle_or(state: SlotState, other: u32) -> u32 {
    match state {
        SlotState::Circle(number) => number,
        _ => other,
    }
}

// What stood at an edge by its kind, where it had no end, with the circle that it was or a number.
fn was_of(before: Before, other: u32) -> Option<(Was, u32)>
    ensures { IfSome result (λ was. before_of was.0 was.1 ≡ before) }
{
    match before {
        Before::Same => Some((Was::Same, other)),
        Before::Gone => Some((Was::Gone, other)),
        Before::Public(0) => Some((Was::Public, other)),
        Before::Only(0) => Some((Was::Only, other)),
        Before::Circle(number, 0) => Some((Was::Circle, number)),
        _ => None,
    }
}

// A slot without a box, if it fits.
fn fitted(slot: &Slot) -> Option<Packed>
    ensures { IfSome result (λ packed. told packed ≡ slot.now) }
{
    if slot.end != 0 {
        return None;
    }
    let (was, circle) = was_of(slot.before, circle_or(slot.state, 0))?;
    let kind = kind_beside(slot.state, circle)?;
    Some(Packed::Short(kind, was, circle, slot.next_into, slot.next_from))
}

impl ShortSlot {
    /// A slot in less memory.
    pub fn of(alloc: Global, slot: Slot) -> Result<ShortSlot, AllocError>
        ensures { IfOk result (λ short. short ≡ slot) }
    {
        let packed = match fitted(&slot) {
            Some(packed) => packed,
            None => Packed::Long(Box::new(alloc, slot)?),
        };
        Ok(ShortSlot { packed })
    }

    /// The slot itself.
    pub fn slot(&self) -> Slot
        ensures { result ≡ self.now }
    {
        match &self.packed {
            Packed::Short(kind, was, circle, next_into, next_from) => Slot {
                state: kind.state(*circle),
                end: 0,
                next_into: *next_into,
                next_from: *next_from,
                before: was.before(*circle),
            },
            Packed::Long(slot) => **slot,
        }
    }

    /// Whether the edge is gone, and else its audience.
    pub fn state(&self) -> SlotState
        ensures { result ≡ self.now.state }
    {
        match &self.packed {
            Packed::Short(kind, _, circle, _, _) => kind.state(*circle),
            Packed::Long(slot) => slot.state,
        }
    }

    /// The number of the last earlier edge with the same source, or 0.
    pub fn next_from(&self) -> u32
        ensures { result ≡ self.now.next_from }
    {
        match &self.packed {
            Packed::Short(_, _, _, _, next_from) => *next_from,
            Packed::Long(slot) => slot.next_from,
        }
    }

    /// Writes the state and the end of an edge. One that finds no memory stays as it was; that an edge is
    /// gone takes none.
    pub fn write(&mut self, alloc: Global, state: SlotState, end: u64) -> Result<(), AllocError>
        ensures ok { OnOk result (self.new ≡ written self.old state end) }
        ensures err { OnErr result (self.new ≡ self.old) }
        ensures gone { state ≡ Gone → end ≡ 0 → is_err result ≡ false }
    {
        match (state, end) {
            (SlotState::Gone, 0) => self.clear(),
            _ => *self = ShortSlot::of(alloc, self.slot().written(state, end))?,
        }
        Ok(())
    }

    // Writes that an edge is gone.
    fn clear(&mut self)
        ensures { self.new ≡ written self.old Gone 0 }
    {
        match &mut self.packed {
            Packed::Short(kind, was, _, _, _) => {
                *was = was.stood(*kind);
                *kind = Kind::Gone;
            }
            Packed::Long(slot) => **slot = slot.written(SlotState::Gone, 0),
        }
    }

    /// What stands now is what stood at the last publish.
    pub fn settle(&mut self)
        ensures { self.new ≡ settled self.old }
    {
        match &mut self.packed {
            Packed::Short(_, was, _, _, _) => *was = Was::Same,
            Packed::Long(slot) => slot.before = Before::Same,
        }
    }
}

impl Clone for ShortSlot {
    ghost is_clone = { λ s t. t ≡ s };

    fn clone(&self) -> Result<ShortSlot, AllocError> {
        let packed = match &self.packed {
            Packed::Short(kind, was, circle, next_into, next_from) => {
                Packed::Short(*kind, *was, *circle, *next_into, *next_from)
            }
            Packed::Long(slot) => Packed::Long(Box::new(*Box::allocator(slot), **slot)?),
        };
        Ok(ShortSlot { packed })
    }
}
