//! Two halves of a list of numbers.
ghost use Rattle.std.specs.Prelude.{◌≡◌, ◌+◌, length};
ghost use Rattle.twin_list.specs.Halves.{IsHalfOf, half_list};

use crate::{Half, TwinList};
use std::test::Fail;

// Adds the numbers below a count.
fn grow(twin: &TwinList<u64>, mine: &mut Half<u64>, other: Half<u64>, count: u64) -> Half<u64>
    requires of { IsHalfOf twin.now mine.old × IsHalfOf twin.now other }
    ensures of { IsHalfOf twin.now mine.new × IsHalfOf twin.now result }
    ensures alike { half_list result ≡ half_list mine.new }
    ensures longer { length (half_list mine.new) ≡ length (half_list mine.old) + count }
{
    let mut other = twin.compare(mine, other);
    for number in 0..count {
        other = twin.add(mine, other, &number);
    }
    other
}

// The calls return, and memory is found.
#[test]
fn a_list_grows_by_both_halves(rt: HostRuntime) -> Result<(), Fail> {
    let (twin, mut mine, other) = TwinList::new(rt.alloc())?;
    let mut other = grow(&twin, &mut mine, other, 1000);
    let _mine = grow(&twin, &mut other, mine, 10);
    Ok(())
}
