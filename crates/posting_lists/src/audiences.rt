ghost use Rattle.std.specs.Prelude.{◌≡◌, ◌<◌, ◌++◌, ◌∷◌, [], length, IfOk, OnOk, OnErr, Some, slice_get};

use crate::circles::{CircleTable, StoredAudience};
use std::alloc::{AllocError, Global};
use std::marker::Model;
use uni_base::Audience;

/// A column of audiences, with a small table of the circles that occur in it.
#[derive(Drop)]
pub(crate) struct AudienceColumn {
    stored: Vec<StoredAudience>,
    circles: CircleTable,
}

impl Model for AudienceColumn {
    ghost use Rattle.std.specs.Prelude.{List, map, All};
    ghost use Rattle.uni_base.specs.declared.edge.Audience.{Audience};

    ghost Value = { List Audience };

    ghost use Rattle.posting_lists.specs.Audiences.{audience_of, IsStored};

    ghost view = { λ c. map (audience_of c.circles) c.stored.items };

    ghost invariant = { λ c. All (IsStored c.circles) c.stored.items };
}

impl AudienceColumn {
    pub(crate) fn new(alloc: Global) -> AudienceColumn
        ensures { result ≡ [] }
    {
        AudienceColumn {
            stored: Vec::new(alloc),
            circles: CircleTable::new(alloc),
        }
    }

    pub(crate) fn with_capacity(
        alloc: Global,
        audiences: usize,
    ) -> Result<AudienceColumn, AllocError>
        ensures { IfOk result (λ column. column ≡ []) }
    {
        Ok(AudienceColumn {
            stored: Vec::with_capacity(alloc, audiences)?,
            circles: CircleTable::new(alloc),
        })
    }

    pub(crate) fn len(&self) -> usize
        ensures { result ≡ length self.now }
    {
        self.stored.len()
    }

    pub(crate) fn get(&self, i: usize) -> Audience
        requires { i < length self.now }
        ensures { slice_get self.now i ≡ Some result }
    {
        match self.stored[i] {
            StoredAudience::Public => Audience::Public,
            StoredAudience::Only => Audience::Only,
            StoredAudience::Circle(number) => {
                let (type_no, key) = self.circles.get(number);
                Audience::Circle(type_no, key)
            }
        }
    }

    pub(crate) fn push(&mut self, audience: Audience) -> Result<(), AllocError>
        ensures ok { OnOk result (self.new ≡ self.old ++ audience ∷ []) }
        ensures err { OnErr result (self.new ≡ self.old) }
    {
        let stored = self.circles.store(&audience)?;
        self.stored.push(stored)?;
        Ok(())
    }
}
