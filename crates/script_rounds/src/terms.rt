ghost use Rattle.std.specs.Prelude.{◌≡◌};
ghost use Rattle.uni_base.specs.StandardLimits.{IsWithinStandard};
ghost use Rattle.script_rounds.specs.Asks.{most_hits};

use std::alloc::Global;
use std::marker::Model;
use std::sync::Arc;
use uni_base::Limits;
use uni_schema::Schema;

/// What the lines of a script are read under: limits and a schema; and the memory for queries.
#[derive(Drop)]
pub(crate) struct Terms {
    alloc: Global,
    limits: Limits,
    schema: Arc<Schema>,
}

impl Model for Terms {
    ghost use Rattle.std.specs.Arc.{arc_value};
    ghost use Rattle.uni_base.specs.StandardLimits.{IsWithinStandard};
    ghost use Rattle.script_rounds.specs.Terms.{Terms, under};

    ghost Value = { Terms };

    ghost view = { λ t. under t.limits (arc_value t.schema) };

    ghost invariant = { λ t. IsWithinStandard t.limits };
}

impl Terms {
    ghost use Rattle.std.specs.Arc.{arc_value};
    ghost use Rattle.script_rounds.specs.Terms.{under};

    pub(crate) fn new(alloc: Global, limits: Limits, schema: Arc<Schema>) -> Terms
        requires { IsWithinStandard limits }
        ensures { result ≡ under limits (arc_value schema) }
    {
        Terms {
            alloc,
            limits,
            schema,
        }
    }

    pub(crate) fn alloc(&self) -> Global {
        self.alloc
    }

    pub(crate) fn limits(&self) -> &Limits
        ensures limits { result.now ≡ self.now.limits }
        ensures standard { IsWithinStandard self.now.limits }
    {
        &self.limits
    }

    pub(crate) fn schema(&self) -> &Schema
        ensures { result.now ≡ self.now.schema }
    {
        &self.schema
    }

    /// How many hits an `ask` may want.
    pub(crate) fn most_hits(&self) -> u64
        ensures { result ≡ most_hits self.now }
    {
        if self.schema.format() == 2 {
            self.limits.ask_limit_2
        } else {
            self.limits.ask_limit
        }
    }
}
