//! Where an edge stands among the rows, and its two ends.
ghost use Rattle.std.specs.Prelude.{◌≡◌, Some, nat_eq, slice_get, IfOk};
ghost use Rattle.std.specs.Map.{keys_of};
ghost use Rattle.uni_table.specs.GraphKeys.{source_eq};
ghost use Rattle.uni_table.specs.GraphRows.{IsFound, IsIndexOf, IsNumbered, IsPlaceOf, IsQuiet, IsRows};

use super::numbers::EdgeNo;
use super::rows::Rows;
use std::alloc::AllocError;
use uni_base::EdgeRef;

/// An edge that was looked for: the number of its source, that of its target, and its place, gone or not.
/// None where there is none.
#[derive(Clone, Copy, Debug)]
pub(crate) struct FoundEdge<'a> {
    pub edge: &'a EdgeRef,
    pub source: Option<usize>,
    pub target: Option<usize>,
    pub place: Option<usize>,
}

impl Rows {
    /// Looks for an edge, once for each of its ends, and once for itself where both are there.
    pub fn found<'a>(&self, edge: &'a EdgeRef) -> FoundEdge<'a>
        requires { IsRows self.now }
        ensures found { IsFound self.now result }
        ensures edge { result.edge.now ≡ edge.now }
    {
        let source = self.source_index(edge.type_no, &edge.key);
        let target = self.id_index(edge.target);
        let place = self.place_between(source, target, edge);
        FoundEdge {
            edge,
            source,
            target,
            place,
        }
    }

    // The index of the edge between two ends, gone or not. None where it never was there.
    fn place_between(
        &self,
        source: Option<usize>,
        target: Option<usize>,
        edge: &EdgeRef,
    ) -> Option<usize>
        requires kept { IsRows self.now }
        requires source { IsIndexOf source_eq (keys_of self.now.sources.entries) (record { type_no = edge.now.type_no; key = edge.now.key }) source }
        requires target { IsIndexOf nat_eq (keys_of self.now.ids.entries) edge.now.target target }
        ensures { IsPlaceOf self.now edge.now result }
    {
        let Some(source) = source else {
            return None;
        };
        let Some(target) = target else {
            return None;
        };
        let number = EdgeNo {
            source: source as u32,
            target: target as u32,
        };
        self.place(number, edge)
    }

    /// The index of an edge, gone or not. None where it never was there.
    pub fn find(&self, edge: &EdgeRef) -> Option<usize>
        requires { IsRows self.now }
        ensures { IsPlaceOf self.now edge.now result }
    {
        self.found(edge).place
    }

    // The number of the source of an edge, which is added where there is none.
    fn found_source(&mut self, found: &FoundEdge<'_>) -> Result<u32, AllocError>
        requires kept { IsRows self.old }
        requires found { IsFound self.old found.now }
        ensures quiet { IsQuiet self.old self.new }
        ensures ids { self.new.ids ≡ self.old.ids }
        ensures number { IfOk result (λ n. slice_get (keys_of self.new.sources.entries) n ≡ Some (record { type_no = found.now.edge.now.type_no; key = found.now.edge.now.key })) }
    {
        match found.source {
            Some(number) => Ok(number as u32),
            None => self.add_source(found.edge.type_no, found.edge.key),
        }
    }

    // The number of the target of an edge, which is added where there is none.
    fn found_target(&mut self, found: &FoundEdge<'_>) -> Result<u32, AllocError>
        requires kept { IsRows self.old }
        requires target { IsIndexOf nat_eq (keys_of self.old.ids.entries) found.now.edge.now.target found.now.target }
        ensures quiet { IsQuiet self.old self.new }
        ensures number { IfOk result (λ n. slice_get (keys_of self.new.ids.entries) n ≡ Some found.now.edge.now.target) }
    {
        match found.target {
            Some(number) => Ok(number as u32),
            None => self.id_no(found.edge.target),
        }
    }

    /// The numbers of an edge. An end that there is none of is added.
    pub fn edge_no(&mut self, found: &FoundEdge<'_>) -> Result<EdgeNo, AllocError>
        requires kept { IsRows self.old }
        requires found { IsFound self.old found.now }
        ensures quiet { IsQuiet self.old self.new }
        ensures number { IfOk result (λ n. IsNumbered self.new n found.now.edge.now) }
    {
        let source = self.found_source(found)?;
        let target = self.found_target(found)?;
        Ok(EdgeNo { source, target })
    }
}
