ghost use Rattle.std.specs.Prelude.{ℕ, ◌≡◌, ◌++◌, ◌∷◌, [], All, IfOk, List, OnOk, length, map, true};
ghost use Rattle.std.specs.List.{list_all};
ghost use Rattle.script_rounds.specs.declared.item.Item.{Item};
ghost use Rattle.unicorn_round.specs.Parted.{slots_in, AddsLine, IsFor, IsParted};
ghost use Rattle.unicorn_round.specs.Weaving.{is_feed, slot_of};

use crate::slot::Slot;
use script_rounds::{Item, ItemList};
use session_asks::{AskLine, AskList};
use std::alloc::{AllocError, Global};

/// The lines of a round, by who answers them, with the order of their answers.
#[derive(Drop)]
pub(crate) struct Parts {
    /// none where all lines are the feeder's, whose slots are made of them when they are asked for
    pub slots: Vec<Slot>,
    pub feed: ItemList,
    pub asks: Vec<AskList>,
    pub compactions: ItemList,
}

impl Parts {
    /// Parts the items of a round among the feeder, so many sessions and the compactor. Where all are the feeder's,
    /// none is moved.
    pub(crate) fn of(alloc: Global, items: ItemList, sessions: u64) -> Result<Parts, AllocError>
        requires { All (IsFor sessions) items }
        ensures { IfOk result (IsParted sessions items) }
    {
        if are_feed(items.as_slice()) {
            return Parts::of_feed(alloc, items, sessions);
        }
        let mut parts = Parts::new(alloc, sessions)?;
        for item in items.into_vec() {
            let slot = slot_of(&item);
            parts.add(slot, item)?;
        }
        Ok(parts)
    }

    // Lines that are all the feeder's.
    fn of_feed(alloc: Global, items: ItemList, sessions: u64) -> Result<Parts, AllocError>
        requires { list_all is_feed items ≡ true }
        ensures { IfOk result (IsParted sessions items) }
    {
        let empty = Parts::new(alloc, sessions)?;
        Ok(Parts {
            slots: empty.slots,
            feed: items,
            asks: empty.asks,
            compactions: empty.compactions,
        })
    }

    /// The slots of all lines, in order.
    pub(crate) fn into_slots(self, alloc: Global) -> Result<Vec<Slot>, AllocError>
        ensures { IfOk result (λ slots. slots.items ≡ slots_in self) }
    {
        if self.slots.is_empty() {
            return slots_of(alloc, self.feed.as_slice());
        }
        Ok(self.slots)
    }

    // No lines.
    fn new(alloc: Global, sessions: u64) -> Result<Parts, AllocError>
        ensures parted { IfOk result (IsParted sessions []) }
        ensures slots { IfOk result (λ parts. parts.slots.items ≡ []) }
    {
        let mut asks = Vec::new(alloc);
        for _ in 0..sessions {
            asks.push(AskList::new(alloc))?;
        }
        Ok(Parts {
            slots: Vec::new(alloc),
            feed: ItemList::new(alloc),
            asks,
            compactions: ItemList::new(alloc),
        })
    }

    // One line more, with the slot that it leaves.
    fn add(&mut self, slot: Slot, item: Item) -> Result<(), AllocError>
        requires slot { slot ≡ slot_of item }
        requires of { IsFor (length self.old.asks.items) item }
        ensures { OnOk result (AddsLine (length self.old.asks.items) item self.old self.new) }
    {
        self.slots.push(slot)?;
        match item {
            Item::Change(..) | Item::Publish(_) => self.feed.push(item),
            Item::Compact(..) => self.compactions.push(item),
            Item::Ask {
                line,
                session,
                viewer,
                limit,
                query,
            } => self.asks[session as usize - 1].push(AskLine {
                line,
                viewer,
                limit,
                query: Box::into_inner(query),
            }),
            _ => Ok(()),
        }
    }
}

// Whether all lines are the feeder's.
fn are_feed(items: &[Item]) -> bool
    ensures { result ≡ list_all is_feed items.now }
{
    items.iter().all(is_feed)
}

fn is_feed(item: &Item) -> bool
    ensures { result ≡ is_feed item.now }
{
    matches!(item, Item::Change(..) | Item::Publish(_))
}

// Where the answers of lines come from.
fn slots_of(alloc: Global, items: &[Item]) -> Result<Vec<Slot>, AllocError>
    ensures { IfOk result (λ slots. slots.items ≡ map slot_of items.now) }
{
    let mut slots = Vec::with_capacity(alloc, items.len())?;
    for item in items {
        slots.push(slot_of(item))?;
    }
    Ok(slots)
}

// Where the answer of a line comes from.
fn slot_of(item: &Item) -> Slot
    ensures { result ≡ slot_of item.now }
{
    match item {
        Item::Change(line, _) | Item::Publish(line) => Slot::Feed(*line),
        Item::Ask { session, .. } => Slot::Ask((*session as usize).saturating_sub(1)),
        Item::Compact(..) => Slot::Compact,
        Item::Stats(line) => Slot::Stats(*line),
        Item::Refused(line, code) => Slot::Refused(*line, *code),
        Item::Fault(line, code) => Slot::Fault(*line, *code),
        Item::QueryFault(line, code, column) => Slot::QueryFault(*line, *code, *column),
        Item::Memory(line) => Slot::Memory(*line),
    }
}
