ghost use Rattle.std.specs.Prelude.{◌≡◌, ◌++◌, ◌∷◌, [], IfOk, Some};
ghost use Rattle.twin_list.specs.Halves.{IsHalfOf, half_list, IsPlaceOf, IsHalf};

use crate::half::Half;
use crate::law::Place;
use crate::list::TwinList;
use crate::plays::{Add, Compare, Meet, Part, Says};
use atomic_table::Table;
use std::alloc::{AllocError, Global};
use std::marker::Brand;

impl<E> TwinList<E> {
    /// The empty list, and its two halves.
    pub fn new(alloc: Global) -> Result<(TwinList<E>, Half<E>, Half<E>), AllocError>
        ensures of { IfOk result (λ t. IsHalfOf t.0 t.1 × IsHalfOf t.0 t.2) }
        ensures none { IfOk result (λ t. (half_list t.1 ≡ []) × (half_list t.2 ≡ [])) }
    {
        let Ok((table, mut place)) = Table::new(alloc, &[0], Vec::new(alloc), &()) else {
            return Err(AllocError);
        };
        let other = table.shared.split_seat::<Part>(&mut place);
        Ok((TwinList { table }, Half { place }, Half { place: other }))
    }

    // Puts the halves together, has them compared, and takes them apart.
    fn compare_in(&self, place: &mut Place<E>, other: Place<E>) -> Place<E>
        requires of { IsPlaceOf self.now place.old × IsPlaceOf self.now other }
        requires halves { IsHalf place.old × IsHalf other }
        ensures same { other.me.0.list ≡ place.old.me.0.list }
        ensures of { IsPlaceOf self.now place.new × IsPlaceOf self.now result }
        ensures halves { IsHalf place.new × IsHalf result }
        ensures kept { (place.new.me.0.list ≡ place.old.me.0.list) × (result.me.0.list ≡ place.old.me.0.list) }
    {
        let shared = &self.table.shared;
        shared.join_seat::<Meet>(place, other);
        shared.load::<Compare>(place, 0);
        shared.split_seat::<Part>(place)
    }

    // Puts the halves together, adds the entry, which is the one that `N` says, and takes them apart.
    fn add_in<N: Says<E>>(&self, place: &mut Place<E>, other: Place<E>, entry: &E) -> Place<E>
        requires of { IsPlaceOf self.now place.old × IsPlaceOf self.now other }
        requires halves { IsHalf place.old × IsHalf other }
        requires said { N.said ≡ Some entry.now }
        ensures same { other.me.0.list ≡ place.old.me.0.list }
        ensures of { IsPlaceOf self.now place.new × IsPlaceOf self.now result }
        ensures halves { IsHalf place.new × IsHalf result }
        ensures added { (place.new.me.0.list ≡ place.old.me.0.list ++ entry.now ∷ []) × (result.me.0.list ≡ place.old.me.0.list ++ entry.now ∷ []) }
    {
        let shared = &self.table.shared;
        shared.join_seat::<Meet>(place, other);
        shared.load::<Add<N>>(place, 0);
        shared.split_seat::<Part>(place)
    }

    /// Tells that both halves know the same list. It gives the other one back.
    pub fn compare(&self, mine: &mut Half<E>, other: Half<E>) -> Half<E>
        requires of { IsHalfOf self.now mine.old × IsHalfOf self.now other }
        ensures same { half_list other ≡ half_list mine.old }
        ensures of { IsHalfOf self.now mine.new × IsHalfOf self.now result }
        ensures kept { (half_list mine.new ≡ half_list mine.old) × (half_list result ≡ half_list mine.old) }
    {
        let Half { place } = other;
        let place = self.compare_in(&mut mine.place, place);
        Half { place }
    }

    /// Adds an entry to the list, which both halves knew alike and then know with it. It gives the other one back.
    pub fn add(&self, mine: &mut Half<E>, other: Half<E>, entry: &E) -> Half<E>
        requires of { IsHalfOf self.now mine.old × IsHalfOf self.now other }
        ensures same { half_list other ≡ half_list mine.old }
        ensures of { IsHalfOf self.now mine.new × IsHalfOf self.now result }
        ensures added { (half_list mine.new ≡ half_list mine.old ++ entry.now ∷ []) × (half_list result ≡ half_list mine.old ++ entry.now ∷ []) }
    {
        let Half { place } = other;
        let place = self.add_in::<Brand>(&mut mine.place, place, entry);
        Half { place }
    }
}
