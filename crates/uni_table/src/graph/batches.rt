//! The end of a batch: what stands now is what stood at the last publish.
ghost use Rattle.std.specs.Prelude.{◌≡◌, ℕ, ◌<◌, Some, length, slice_get};
ghost use Rattle.indexmap.specs.Layout.{set_value_at};
ghost use Rattle.uni_table.specs.declared.graph.numbers.EdgeNo.{EdgeNo};
ghost use Rattle.uni_table.specs.declared.graph.numbers.Node.{Node};
ghost use Rattle.uni_table.specs.declared.graph.numbers.Slot.{Slot};
ghost use Rattle.uni_table.specs.GraphRows.{contents_of, published_of, HasSettled, settled, settled_entity, IsRows};

use super::numbers::EdgeNo;
use super::rows::Rows;
use super::short_node::ShortNode;
use super::short_slot::ShortSlot;
use indexmap::IndexMap;
use uni_base::EntityId;

// Makes an edge one that the batch has not touched.
fn settle_slot(edges: &mut IndexMap<EdgeNo, ShortSlot>, index: usize)
    ensures { (n : EdgeNo) (slot : Slot) → slice_get edges.old.entries index ≡ Some (n, slot) → edges.new.entries ≡ set_value_at edges.old.entries index (settled slot) }
{
    if let Some(slot) = edges.get_index_mut(index) {
        slot.settle();
    }
}

// Makes an id one that the batch has not touched.
fn settle_node(ids: &mut IndexMap<EntityId, ShortNode>, index: usize)
    ensures { (id : ℕ) (node : Node) → slice_get ids.old.entries index ≡ Some (id, node) → ids.new.entries ≡ set_value_at ids.old.entries index (settled_entity node) }
{
    if let Some(node) = ids.get_index_mut(index) {
        node.settle();
    }
}

impl Rows {
    // Settles the edge that was touched last. Whether there was one.
    fn settle_edge(&mut self) -> bool
        requires { IsRows self.old }
        ensures kept { IsRows self.new }
        ensures same { contents_of self.new ≡ contents_of self.old }
        ensures ids { self.new.touched_ids ≡ self.old.touched_ids }
        ensures settled { HasSettled result self.old.touched_edges.items self.new.touched_edges.items }
    {
        let Some(place) = self.touched_edges.pop() else {
            return false;
        };
        settle_slot(&mut self.edges, place as usize);
        true
    }

    // Settles the id that was touched last. Whether there was one.
    fn settle_id(&mut self) -> bool
        requires { IsRows self.old }
        ensures kept { IsRows self.new }
        ensures same { contents_of self.new ≡ contents_of self.old }
        ensures edges { self.new.touched_edges ≡ self.old.touched_edges }
        ensures settled { HasSettled result self.old.touched_ids.items self.new.touched_ids.items }
    {
        let Some(place) = self.touched_ids.pop() else {
            return false;
        };
        settle_node(&mut self.ids, place as usize);
        true
    }

    /// Begins the next batch: what stands now is what stood as the last one ended. It costs the rows that
    /// the batch touched, and takes no memory.
    pub fn begin_batch(&mut self)
        requires { IsRows self.old }
        ensures kept { IsRows self.new }
        ensures same { contents_of self.new ≡ contents_of self.old }
        ensures published { published_of self.new ≡ contents_of self.old }
    {
        while self.settle_edge() {}
        while self.settle_id() {}
    }
}
