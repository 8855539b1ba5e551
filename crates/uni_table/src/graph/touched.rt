//! The places of the rows that a batch touched.
ghost use Rattle.std.specs.Prelude.{◌≡◌, ◌+◌, ◌<◌, ◌≤◌, ◌^◌, ◌++◌, ◌∷◌, [], length, true, vec_capacity, OnOk, if◌then◌else◌};

use std::alloc::AllocError;

/// Makes room for the places of so many rows and one more.
pub(super) fn make_room(touched: &mut Vec<u32>, rows: usize) -> Result<(), AllocError>
    requires fewer { length touched.old.items ≤ rows }
    requires few { rows < 2 ^ 32 }
    ensures items { touched.new.items ≡ touched.old.items }
    ensures room { vec_capacity touched.old ≤ vec_capacity touched.new }
    ensures ok { OnOk result (rows + 1 ≤ vec_capacity touched.new) }
{
    touched.reserve(rows + 1 - touched.len())
}

/// Notes the place of a row that is touched, the first time.
pub(super) fn note_touched(touched: &mut Vec<u32>, place: usize, is_first: bool)
    requires room { is_first ≡ true → length touched.old.items < vec_capacity touched.old }
    requires few { place < 2 ^ 32 }
    ensures items { touched.new.items ≡ (if is_first then touched.old.items ++ place ∷ [] else touched.old.items) }
    ensures room { vec_capacity touched.new ≡ vec_capacity touched.old }
{
    if is_first {
        touched.push_reserved(place as u32);
    }
}
