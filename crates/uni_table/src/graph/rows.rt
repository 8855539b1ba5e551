//! The rows of a graph, each map by number, and the numbers of edges and audiences.
ghost use Rattle.std.specs.Prelude.{◌≡◌, ℕ, ◌+◌, ◌<◌, ◌≤◌, ◌^◌, true, None, Some, length, nat_eq, slice_get, slice_index_or, IfOk, IfSome, OnOk, OnErr, if◌then◌else◌};
ghost use Rattle.std.specs.Map.{keys_of, lookup};
ghost use Rattle.indexmap.specs.IndexMap.{IsUnique};
ghost use Rattle.uni_table.specs.Contents.{empty};
ghost use Rattle.uni_table.specs.GraphRows.{contents_of, published_of, audience_named, last_at, IsRows, IsQuiet, IsNumbered, IsStateOf, IsCircleKnown, IsPlaceOf, IsIndexOf, Grows};
ghost use Rattle.uni_table.specs.GraphKeys.{source_eq, is_noted_at};

use super::numbers::{EdgeNo, EntityBefore, Node, Side, SlotState, Source};
use super::short_node::ShortNode;
use super::short_slot::ShortSlot;
use super::short_source::ShortSource;
use super::touched::make_room;
use indexmap::IndexMap;
use std::alloc::{AllocError, Global};
use std::collections::BTreeSet;
use std::hash::Hash;
use uni_base::{Audience, EdgeRef, EntityId, Key};

/// Ids, sources and edges, each numbered in the order in which they came. A row that is gone is marked,
/// and stays.
#[derive(Drop)]
pub(crate) struct Rows {
    pub ids: IndexMap<EntityId, ShortNode>,
    /// each type and key with the number of the last edge that starts there, gone or not, or 0
    pub sources: IndexMap<ShortSource, u32>,
    /// for an id, from 1 on, a number of a source that starts there, counted from 1, or 0: where to look first
    pub starts: Vec<u32>,
    pub edges: IndexMap<EdgeNo, ShortSlot>,
    /// ends with the numbers of edges: an entry counts while its edge lives and has that end
    pub ends: BTreeSet<(u64, u32)>,
    pub entity_count: u64,
    pub edge_count: u64,
    /// the places of the ids that the batch touched, and of the edges, with room for all
    pub touched_ids: Vec<u32>,
    pub touched_edges: Vec<u32>,
}

/// The greatest number of rows of a map.
pub(super) const MAX_ROWS: usize = 4_294_967_295;

/// The index of a key that is none of a map, which is added with a value.
fn add_key<K: Eq + Hash + Drop, V: Drop>(
    map: &mut IndexMap<K, V>,
    key: K,
    value: V,
) -> Result<u32, AllocError>
    requires few { length map.old.entries < 2 ^ 32 }
    requires new { lookup (K.eq key) map.old.entries ≡ None }
    ensures grown { Grows map.old.entries map.new.entries key value }
    ensures index { IfOk result (λ i. slice_get (keys_of map.new.entries) i ≡ Some key) }
    ensures few { length map.new.entries < 2 ^ 32 }
    ensures unique { IsUnique K.eq map.new }
{
    let index = map.len();
    if index >= MAX_ROWS {
        return Err(AllocError);
    }
    map.insert(key, value)?;
    Ok(index as u32)
}

// Fills a list up with 0 to a length, if it is shorter.
fn fill_up(numbers: &mut Vec<u32>, len: usize) -> Result<(), AllocError>
    ensures same { (place : ℕ) → slice_index_or numbers.new.items place 0 ≡ slice_index_or numbers.old.items place 0 }
    ensures long { OnOk result (len ≤ length numbers.new.items) }
{
    if numbers.len() < len {
        numbers.resize(len, 0)?;
    }
    Ok(())
}

// Notes the number of a source, counted from 1, at the id that is its key, where that is no larger than so many
// ids.
fn note_start(starts: &mut Vec<u32>, ids: usize, key: &Key, number: u32) -> Result<(), AllocError>
    ensures { OnOk result ((place : ℕ) → slice_index_or starts.new.items place 0 ≡ (if is_noted_at ids key.now number place then number + 1 else slice_index_or starts.old.items place 0)) }
{
    let Key::Id(id) = key else {
        return Ok(());
    };
    let place = id.get().saturating_sub(1) as usize;
    if place >= ids || number == u32::MAX {
        return Ok(());
    }
    fill_up(starts, place + 1)?;
    starts[place] = number + 1;
    Ok(())
}

impl Rows {
    /// Nothing.
    pub fn new(alloc: Global) -> Rows
        ensures kept { IsRows result }
        ensures empty { contents_of result ≡ empty }
        ensures published { published_of result ≡ empty }
    {
        Rows {
            ids: IndexMap::new(alloc),
            sources: IndexMap::new(alloc),
            starts: Vec::new(alloc),
            edges: IndexMap::new(alloc),
            ends: BTreeSet::new(alloc),
            entity_count: 0,
            edge_count: 0,
            touched_ids: Vec::new(alloc),
            touched_edges: Vec::new(alloc),
        }
    }

    /// Makes room for so many edges more. Where there is no memory for it, they make it as they come.
    pub fn reserve_edges(&mut self, edges: usize)
        requires { IsRows self.old }
        ensures { IsQuiet self.old self.new }
    {
        let _is_made = self.edges.reserve(edges);
    }

    // The number of a type and key.
    fn source_no(&mut self, type_no: u16, key: Key) -> Result<u32, AllocError>
        requires { IsRows self.old }
        ensures quiet { IsQuiet self.old self.new }
        ensures number { IfOk result (λ n. slice_get (keys_of self.new.sources.entries) n ≡ Some (record { type_no = type_no; key = key })) }
    {
        match self.source_index(type_no, &key) {
            Some(number) => Ok(number as u32),
            None => self.add_source(type_no, key),
        }
    }

    /// The number of a type and key that is none of the sources, which is added.
    pub fn add_source(&mut self, type_no: u16, key: Key) -> Result<u32, AllocError>
        requires kept { IsRows self.old }
        requires new { IsIndexOf source_eq (keys_of self.old.sources.entries) (record { type_no = type_no; key = key }) None }
        ensures quiet { IsQuiet self.old self.new }
        ensures ids { self.new.ids ≡ self.old.ids }
        ensures number { IfOk result (λ n. slice_get (keys_of self.new.sources.entries) n ≡ Some (record { type_no = type_no; key = key })) }
    {
        let source = ShortSource::of(*self.sources.allocator(), type_no, key)?;
        let number = add_key(&mut self.sources, source, 0)?;
        // Without memory for the note the source is found by its hash.
        let _is_noted = note_start(&mut self.starts, self.ids.len(), &key, number);
        Ok(number)
    }

    /// The number of an id.
    pub fn id_no(&mut self, id: EntityId) -> Result<u32, AllocError>
        requires { IsRows self.old }
        ensures quiet { IsQuiet self.old self.new }
        ensures number { IfOk result (λ n. slice_get (keys_of self.new.ids.entries) n ≡ Some id) }
    {
        match self.id_index(id) {
            Some(number) => Ok(number as u32),
            None => self.add_id(id),
        }
    }

    // The number of an id that is none of the ids, which is added.
    fn add_id(&mut self, id: EntityId) -> Result<u32, AllocError>
        requires kept { IsRows self.old }
        requires new { IsIndexOf nat_eq (keys_of self.old.ids.entries) id None }
        ensures quiet { IsQuiet self.old self.new }
        ensures number { IfOk result (λ n. slice_get (keys_of self.new.ids.entries) n ≡ Some id) }
    {
        make_room(&mut self.touched_ids, self.ids.len())?;
        let node = Node {
            row: None,
            before: EntityBefore::Same,
            last_edge: 0,
        };
        add_key(&mut self.ids, id, ShortNode::of(node))
    }

    /// The state of an edge with an audience.
    pub fn state_of(&mut self, audience: &Audience) -> Result<SlotState, AllocError>
        requires { IsRows self.old }
        ensures quiet { IsQuiet self.old self.new }
        ensures state { IfOk result (λ state. IsStateOf self.new state audience.now) }
    {
        match audience {
            Audience::Public => Ok(SlotState::Public),
            Audience::Only => Ok(SlotState::Only),
            Audience::Circle(type_no, key) => {
                let source = self.source_no(*type_no, *key)?;
                Ok(SlotState::Circle(source))
            }
        }
    }

    /// The audience that a state stands for. None where the edge is gone.
    pub fn audience(&self, state: SlotState) -> Option<Audience>
        requires { IsCircleKnown (length self.now.sources.entries) state }
        ensures { result ≡ audience_named (keys_of self.now.sources.entries) state }
    {
        match state {
            SlotState::Gone => None,
            SlotState::Public => Some(Audience::Public),
            SlotState::Only => Some(Audience::Only),
            SlotState::Circle(n) => {
                let (short, _) = self.sources.get_index(n as usize)?;
                let source = short.source();
                Some(Audience::Circle(source.type_no, source.key))
            }
        }
    }

    /// The index of a type and key. None where no edge ever started there.
    pub fn source_index(&self, type_no: u16, key: &Key) -> Option<usize>
        ensures { IsIndexOf source_eq (keys_of self.now.sources.entries) (record { type_no = type_no; key = key.now }) result }
    {
        let source = Source { type_no, key: *key };
        match self.noted_source(&source) {
            Some(index) => Some(index),
            None => self.hashed_source(&source),
        }
    }

    // The index of a source, if it is the one that was noted of its id.
    fn noted_source(&self, source: &Source) -> Option<usize>
        ensures { IfSome result (λ index. slice_get (keys_of self.now.sources.entries) index ≡ Some source.now) }
    {
        let Key::Id(id) = source.key else {
            return None;
        };
        let number = *self.starts.get(id.get().saturating_sub(1) as usize)?;
        if number == 0 {
            return None;
        }
        let index = (number - 1) as usize;
        let (known, _last) = self.sources.get_index(index)?;
        if known.is(source) { Some(index) } else { None }
    }

    // The same of any source, by a hash.
    fn hashed_source(&self, source: &Source) -> Option<usize>
        ensures { IsIndexOf source_eq (keys_of self.now.sources.entries) source.now result }
    {
        match self.sources.get_full(source) {
            Some((index, _, _)) => Some(index),
            None => None,
        }
    }

    /// The index of an id. None where it never was an entity, and no edge ever led there. Where ids came
    /// as 1, 2, 3 and so on, it is found without a hash.
    pub fn id_index(&self, id: EntityId) -> Option<usize>
        ensures { IsIndexOf nat_eq (keys_of self.now.ids.entries) id result }
    {
        let in_turn = (id.get() - 1) as usize;
        match self.ids.get_index(in_turn) {
            Some((known, _)) if *known == id => Some(in_turn),
            _ => self.hashed_index(id),
        }
    }

    // The same, by a hash.
    fn hashed_index(&self, id: EntityId) -> Option<usize>
        ensures { IsIndexOf nat_eq (keys_of self.now.ids.entries) id result }
    {
        match self.ids.get_full(&id) {
            Some((index, _, _)) => Some(index),
            None => None,
        }
    }

    /// The index of the edge of two numbers, gone or not. None where it never was there.
    pub fn place(&self, number: EdgeNo, edge: &EdgeRef) -> Option<usize>
        requires kept { IsRows self.now }
        requires number { IsNumbered self.now number edge.now }
        ensures { IsPlaceOf self.now edge.now result }
    {
        match self.edges.get_full(&number) {
            Some((index, _, _)) => Some(index),
            None => None,
        }
    }

    /// The number of the last edge with a number at an end, gone or not, or 0.
    pub fn last(&self, side: Side, index: usize) -> u32
        ensures { result ≡ last_at side self.now index }
    {
        match side {
            Side::Target => match self.ids.get_index(index) {
                Some((_, node)) => node.last_edge(),
                None => 0,
            },
            Side::Source => match self.sources.get_index(index) {
                Some((_, last)) => *last,
                None => 0,
            },
        }
    }

    /// A copy of all rows.
    pub fn copy(&self) -> Result<Rows, AllocError>
        requires { IsRows self.now }
        ensures kept { IfOk result IsRows }
        ensures same { IfOk result (λ copy. contents_of copy ≡ contents_of self.now) }
        ensures published { IfOk result (λ copy. published_of copy ≡ published_of self.now) }
    {
        let mut touched_ids = self.touched_ids.clone()?;
        make_room(&mut touched_ids, self.ids.len())?;
        let mut touched_edges = self.touched_edges.clone()?;
        make_room(&mut touched_edges, self.edges.len())?;
        Ok(Rows {
            ids: self.ids.clone()?,
            sources: self.sources.clone()?,
            starts: self.starts.clone()?,
            edges: self.edges.clone()?,
            ends: self.ends.clone()?,
            entity_count: self.entity_count,
            edge_count: self.edge_count,
            touched_ids,
            touched_edges,
        })
    }
}
