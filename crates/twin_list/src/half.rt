ghost use Rattle.std.specs.Prelude.{◌≡◌, []};
ghost use Rattle.twin_list.specs.declared.law.Part.TheVariants.{One};

use crate::law::Place;

/// One of the two halves of a list. It knows the whole list.
#[derive(Drop)]
pub struct Half<E> {
    pub(crate) place: Place<E>,
    ghost part: { place.me.0.part ≡ One },
    ghost bare: { place.me.1 ≡ [] },
}
