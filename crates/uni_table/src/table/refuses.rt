ghost use Rattle.std.specs.Prelude.{◌≡◌};

use crate::{FeedRefusal, Table};
use uni_base::EntityId;

impl Table {
    ghost use Rattle.uni_table.specs.Commands.{refuses_entity};

    /// Why an entity is refused, if it is.
    pub(crate) fn refuses_entity(&self, vertical: u16, id: EntityId) -> Option<FeedRefusal>
        ensures { result ≡ refuses_entity self.now.limits self.now.contents vertical id }
    {
        match self.entity(id) {
            Some(row) if row.vertical == vertical => None,
            Some(_) => Some(FeedRefusal::Elsewhere),
            None if self.entities() < self.limits.entities => None,
            None => Some(FeedRefusal::TableFull),
        }
    }
}
