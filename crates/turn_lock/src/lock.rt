//! The lock.
ghost use Rattle.std.specs.Prelude.{◌≡◌};

use crate::law::Bench;
use crate::recorded::Recorded;

/// A lock over one value whose history only grows. Threads share it by reference.
#[derive(Drop)]
pub struct TurnLock<S: Recorded> {
    pub(crate) table: Bench<S>,
    ghost sized: { table.shared.table_id.words ≡ 3 },
}
