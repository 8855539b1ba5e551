//! The table under the lock: what each seat knows, and the rule.
//! Word 0 is the next ticket, word 1 the ticket that is served, and word 2 the number of entries. The one slot has the value.
use crate::recorded::Recorded;
use atomic_table::{Seat, Table, TableRule};
use std::alloc::Global;
use std::collections::LinkedList;
use std::marker::PhantomData;

/// What kind of token a view belongs to.
pub enum Role {
    /// A note that was met.
    Spent,
    /// A note.
    Carries,
    /// A seat that the writer made.
    Sits,
    /// The writer's seat.
    Writes,
}

/// Where a seat is in its turn. A clause reads a `LinkedList` as its items.
pub enum Stage<E> {
    /// It has no ticket.
    Away,
    /// It has drawn this ticket.
    Waits(u64),
    /// The ticket, the entries that the value stood for, and whether one was added in this turn.
    Turns(u64, LinkedList<E>, bool),
}

/// What a seat knows. No value of it is made.
pub struct View<E> {
    pub role: Role,
    pub stage: Stage<E>,
    /// The turns that it has taken.
    pub turns: u64,
    /// The seats that it has made.
    pub made: u64,
    /// The entries that it has seen.
    pub seen: LinkedList<E>,
    /// What it had seen, and what the other had, where it has met a note and has not looked since.
    pub own: LinkedList<E>,
    pub other: LinkedList<E>,
}

/// The rule of the lock.
pub struct Law<S> {
    value: PhantomData<S>,
}

impl<S: Recorded> TableRule<Option<S>, View<S::Entry>, ()> for Law<S> {
    ghost use Rattle.turn_lock.specs.Law.{Kept, opening_view};

    ghost holds = { λ _. Kept S.stands_for };

    ghost first = { λ _. opening_view };
}

pub type Bench<S> = Table<Option<S>, View<<S as Recorded>::Entry>, (), Law<S>, Global>;

pub type Place<S> = Seat<Option<S>, View<<S as Recorded>::Entry>>;
