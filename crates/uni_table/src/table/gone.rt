ghost use Rattle.std.specs.Prelude.{◌≡◌};
ghost use Rattle.uni_table.specs.Contents.{without_leaving};
ghost use Rattle.uni_table.specs.declared.command.Command.TheVariants.{Gone};

use crate::Table;
use crate::graph::Graph;
use uni_base::{EntityId, Key};

impl Table {
    ghost use Rattle.uni_table.specs.Commands.{next};

    /// Takes out an entity, and every edge that leaves or reaches it.
    pub(crate) fn gone(&mut self, id: EntityId)
        ensures { self.new ≡ record self.old { contents = next self.old.schema self.old.contents (Gone id) } }
    {
        remove_leaving(&mut self.graph, self.schema.types(), id);
        self.graph.remove_into(id);
        self.graph.remove_entity(id);
    }
}

// Takes out the edges that leave an id, of the types below a number.
fn remove_leaving(graph: &mut Graph, types: u16, id: EntityId)
    ensures { graph.new ≡ record graph.old { contents = without_leaving graph.old.contents types id } }
{
    for type_no in 0..types {
        graph.remove_from(type_no, &Key::Id(id));
    }
}
