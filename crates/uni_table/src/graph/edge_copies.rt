//! Copies of edges, which lie side by side where they start at one source, so that these are read in one piece.
ghost use Rattle.std.specs.Prelude.{◌≡◌, ◌<◌, length, IfOk};
ghost use Rattle.uni_table.specs.GraphRows.{IsRows};
ghost use Rattle.uni_table.specs.GraphSources.{AreCopies, IsCopy};
ghost use Rattle.uni_table.specs.declared.graph.rows.Rows.{Rows};

use super::numbers::SlotState;
use super::order::PlacedEdge;
use super::rows::Rows;
use super::sources::FarEnd;
use std::alloc::{AllocError, Global};

/// What an edge leads to, with its number, and with that of the edge before it among those of its source. Numbers
/// count from 1, and what has the number 0 is a copy of none.
#[derive(Clone, Copy, Debug)]
pub(crate) struct EdgeCopy {
    pub number: u32,
    pub next: u32,
    pub end: FarEnd,
}

/// Copies of edges, and for each source a place, which is the one after its last copy where the source is listed.
/// That tells where to look first, and no more: a copy is told by its number.
#[derive(Drop)]
pub(crate) struct EdgeCopies {
    copies: Vec<EdgeCopy>,
    /// by the number of the source
    after: Vec<u32>,
}

impl EdgeCopy {
    /// A copy of none.
    fn none() -> EdgeCopy
        ensures { result.number ≡ 0 }
    {
        EdgeCopy {
            number: 0,
            next: 0,
            end: FarEnd {
                target: 0,
                state: SlotState::Gone,
            },
        }
    }
}

// So many copies of none.
fn blank(alloc: Global, count: usize) -> Result<Vec<EdgeCopy>, AllocError>
    ensures { (rows : Rows) → IfOk result (λ copies. AreCopies rows copies.items) }
{
    let mut copies = Vec::with_capacity(alloc, count)?;
    for _ in 0..count {
        copies.push(EdgeCopy::none())?;
    }
    Ok(copies)
}

// The places at which the copies of sources begin, one source after another as they are listed, in place of how
// many each has.
fn lay_out(after: &mut [u32], lasts: &[PlacedEdge]) {
    let mut place: u32 = 0;
    for last in lasts {
        if let Some(after) = after.get_mut(last.source as usize) {
            let count = *after;
            *after = place;
            place = place.saturating_add(count);
        }
    }
}

impl EdgeCopies {
    /// All copies.
    pub(super) fn as_slice(&self) -> &[EdgeCopy]
        ensures { result.now ≡ self.now.copies.items }
    {
        &self.copies
    }

    /// The place after the last copy of a source.
    pub(super) fn after(&self, source: usize) -> usize {
        match self.after.get(source) {
            Some(place) => *place as usize,
            None => 0,
        }
    }

    // Takes the place after the last copy of a source for one more.
    fn take_place(&mut self, source: usize) -> Option<usize>
        ensures { self.new.copies ≡ self.old.copies }
    {
        let after = self.after.get_mut(source)?;
        let place = *after;
        *after = place.saturating_add(1);
        Some(place as usize)
    }

    // Puts the copy of an edge of a source, where it has a place.
    fn put(&mut self, source: usize, copy: EdgeCopy)
        ensures { (rows : Rows) → AreCopies rows self.old.copies.items → IsCopy rows copy → AreCopies rows self.new.copies.items }
    {
        let Some(place) = self.take_place(source) else {
            return;
        };
        if place < self.copies.len() {
            self.copies[place] = copy;
        }
    }
}

impl Rows {
    // How many edges each source has.
    fn counts_from(&self, alloc: Global) -> Result<Vec<u32>, AllocError> {
        let mut counts = Vec::new(alloc);
        counts.resize(self.sources.len(), 0u32)?;
        for index in 0..self.edges.len() {
            if let Some((number, _)) = self.edges.get_index(index)
                && let Some(count) = counts.get_mut(number.source as usize)
            {
                *count = count.saturating_add(1);
            }
        }
        Ok(counts)
    }

    // Copies the edge of an index.
    fn copy_edge(&self, index: usize, copies: &mut EdgeCopies)
        requires kept { IsRows self.now }
        requires within { index < length self.now.edges.entries }
        requires copies { AreCopies self.now copies.old.copies.items }
        ensures { AreCopies self.now copies.new.copies.items }
    {
        let (number, slot) = self.edges.get_index(index).unwrap();
        let copy = EdgeCopy {
            number: index as u32 + 1,
            next: slot.next_from(),
            end: FarEnd {
                target: number.target,
                state: slot.state(),
            },
        };
        copies.put(number.source as usize, copy);
    }

    /// Copies of all edges, those of the listed sources side by side in their order. It costs two passes over the
    /// edges.
    pub(super) fn edge_copies(
        &self,
        alloc: Global,
        lasts: &[PlacedEdge],
    ) -> Result<EdgeCopies, AllocError>
        requires { IsRows self.now }
        ensures { IfOk result (λ copies. AreCopies self.now copies.copies.items) }
    {
        let mut after = self.counts_from(alloc)?;
        lay_out(&mut after, lasts);
        let mut copies = EdgeCopies {
            copies: blank(alloc, self.edges.len())?,
            after,
        };
        for index in 0..self.edges.len() {
            self.copy_edge(index, &mut copies);
        }
        Ok(copies)
    }
}
