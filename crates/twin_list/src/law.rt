//! The table behind a list: what each half knows, and the rule. Its one word has no meaning.
use atomic_table::{Seat, Table, TableRule};
use std::alloc::Global;
use std::collections::LinkedList;
use std::marker::PhantomData;

/// How many of the two halves a view has.
pub enum Part {
    /// None, since another view took it in.
    Spent,
    /// One of them.
    One,
    /// Both.
    Both,
}

/// What a holder knows. No value of it is made. A clause reads a `LinkedList` as its items.
pub struct View<E> {
    pub part: Part,
    /// The entries.
    pub list: LinkedList<E>,
    /// Where both halves are together, the entries that the other one knew.
    pub other: LinkedList<E>,
}

/// The rule of a list.
pub struct Law<E> {
    entry: PhantomData<E>,
}

impl<E> TableRule<u64, View<E>, ()> for Law<E> {
    ghost use Rattle.twin_list.specs.Law.{Kept, opening_view};

    ghost holds = { λ _. Kept };

    ghost first = { λ _. opening_view };
}

pub type Bench<E> = Table<u64, View<E>, (), Law<E>, Global>;

pub type Place<E> = Seat<u64, View<E>>;
