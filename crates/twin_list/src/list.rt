ghost use Rattle.std.specs.Prelude.{◌≡◌};

use crate::law::Bench;

/// A list that two holders know alike. Threads share it by reference.
#[derive(Drop)]
pub struct TwinList<E> {
    pub(crate) table: Bench<E>,
    ghost sized: { table.shared.table_id.words ≡ 1 },
}
