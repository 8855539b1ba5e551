ghost use Rattle.std.specs.Prelude.{◌≡◌, IfOk};
ghost use Rattle.uni_meaning.specs.Standings.{both, either, is_found, shown_of};

use std::alloc::{AllocError, Global};
use uni_base::EdgeList;

/// How an entity stands under a query: it is no hit, or a hit with nothing to show to the viewer, or one
/// with the edges that are shown.
#[derive(Drop)]
pub(crate) enum Standing {
    Missed,
    Hidden,
    Shown(EdgeList),
}

impl Standing {
    pub fn is_found(&self) -> bool
        ensures { result ≡ is_found self.now }
    {
        match self {
            Standing::Missed => false,
            Standing::Hidden | Standing::Shown(_) => true,
        }
    }

    /// The edges that are shown, if any.
    pub fn shown(&self, alloc: Global) -> Result<Option<EdgeList>, AllocError>
        ensures { IfOk result (λ shown. shown ≡ shown_of self.now) }
    {
        match self {
            Standing::Missed | Standing::Hidden => Ok(None),
            Standing::Shown(edges) => {
                let mut shown = EdgeList::new(alloc);
                shown.extend_from_slice(edges.as_slice())?;
                Ok(Some(shown))
            }
        }
    }

    pub fn copy(&self, alloc: Global) -> Result<Standing, AllocError>
        ensures { IfOk result (λ copy. copy ≡ self.now) }
    {
        match self {
            Standing::Missed => Ok(Standing::Missed),
            Standing::Hidden => Ok(Standing::Hidden),
            Standing::Shown(edges) => {
                let mut copy = EdgeList::new(alloc);
                copy.extend_from_slice(edges.as_slice())?;
                Ok(Standing::Shown(copy))
            }
        }
    }

    /// Where one of two is enough: what this one shows, else what the other one does.
    pub fn or(self, alloc: Global, other: &Standing) -> Result<Standing, AllocError>
        ensures { IfOk result (λ standing. standing ≡ either self other.now) }
    {
        match (self, other) {
            (Standing::Missed, other) => other.copy(alloc),
            (Standing::Hidden, Standing::Shown(_)) => other.copy(alloc),
            (Standing::Hidden, _) => Ok(Standing::Hidden),
            (Standing::Shown(edges), _) => Ok(Standing::Shown(edges)),
        }
    }

    /// Where both count that are found: what they show, one after the other, or nothing if one shows
    /// nothing.
    pub fn and(self, alloc: Global, other: &Standing) -> Result<Standing, AllocError>
        ensures { IfOk result (λ standing. standing ≡ both self other.now) }
    {
        match (self, other) {
            (Standing::Missed, other) => other.copy(alloc),
            (Standing::Hidden, _) | (Standing::Shown(_), Standing::Hidden) => Ok(Standing::Hidden),
            (Standing::Shown(edges), Standing::Missed) => Ok(Standing::Shown(edges)),
            (Standing::Shown(mut edges), Standing::Shown(more)) => {
                edges.extend_from_slice(more.as_slice())?;
                Ok(Standing::Shown(edges))
            }
        }
    }
}
