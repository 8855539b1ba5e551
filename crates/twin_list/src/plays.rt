//! What each step on the table tells, and how halves come together and apart.
ghost use Rattle.twin_list.specs.Steps.{Adds, Compares, together, apart, spent};

use crate::law::View;
use atomic_table::{Join, Play, Split};
use std::marker::{Brand, PhantomData};

/// Both halves are taken apart.
pub(crate) struct Part;

impl<E> Split<View<E>> for Part {
    ghost left = { apart };

    ghost right = { apart };
}

/// Both halves are put together.
pub(crate) struct Meet;

impl<E> Join<View<E>> for Meet {
    ghost both = { together };

    ghost spent = { spent };
}

/// What both halves know is compared.
pub(crate) struct Compare;

impl<E> Play<u64, View<E>> for Compare {
    ghost then = { Compares };
}

/// The entry that is being added. The call that adds it picks it.
pub(crate) trait Says<E> {
    ghost use Rattle.std.specs.Prelude.{Option};

    ghost said: { Option E };
}

impl<E> Says<E> for Brand {
    ghost use Rattle.std.specs.Prelude.{None};

    ghost said = { None };
}

/// An entry is added.
pub(crate) struct Add<N> {
    says: PhantomData<N>,
}

impl<E, N: Says<E>> Play<u64, View<E>> for Add<N> {
    ghost then = { Adds N.said };
}
