//! What each step on the table tells, and how views are cut in two and put together.
ghost use Rattle.turn_lock.specs.Steps.{Adds, Draws, Finds, Looks, Ends, makes, meets, fresh};
ghost use Rattle.turn_lock.specs.declared.law.Role.TheVariants.{Carries, Sits, Spent};

use crate::law::View;
use crate::recorded::Recorded;
use atomic_table::{Join, Play, Split};
use std::marker::{Brand, PhantomData};

/// A ticket is drawn.
pub(crate) struct Draw;

impl<S: Recorded> Play<Option<S>, View<S::Entry>> for Draw {
    ghost then = { Draws };
}

/// The ticket that is served is looked at, and the slot taken where it is the seat's own.
pub(crate) struct Find;

impl<S: Recorded> Play<Option<S>, View<S::Entry>> for Find {
    ghost then = { Finds S.stands_for };
}

/// The number of entries is looked at.
pub(crate) struct Look;

impl<S: Recorded> Play<Option<S>, View<S::Entry>> for Look {
    ghost then = { Looks };
}

/// The slot is given back, and the next ticket is served.
pub(crate) struct End;

impl<S: Recorded> Play<Option<S>, View<S::Entry>> for End {
    ghost then = { Ends };
}

/// The writer makes a seat.
pub(crate) struct NewSeat;

impl<E> Split<View<E>> for NewSeat {
    ghost left = { makes };

    ghost right = { λ v. fresh Sits v.seen };
}

/// A note of what was seen is written.
pub(crate) struct NewNote;

impl<E> Split<View<E>> for NewNote {
    ghost left = { λ v. v };

    ghost right = { λ v. fresh Carries v.seen };
}

/// A note is met, which is then spent.
pub(crate) struct Meet;

impl<E> Join<View<E>> for Meet {
    ghost use Rattle.std.specs.Prelude.{[]};

    ghost both = { meets };

    ghost spent = { fresh Spent [] };
}

/// The entry that is being added. The call that adds it picks it.
pub(crate) trait Says<E> {
    ghost use Rattle.std.specs.Prelude.{Option};

    ghost said: { Option E };
}

impl<E> Says<E> for Brand {
    ghost use Rattle.std.specs.Prelude.{None};

    ghost said = { None };
}

/// The writer adds an entry.
pub(crate) struct Add<N> {
    says: PhantomData<N>,
}

impl<S: Recorded, N: Says<S::Entry>> Play<Option<S>, View<S::Entry>> for Add<N> {
    ghost then = { Adds N.said };
}
