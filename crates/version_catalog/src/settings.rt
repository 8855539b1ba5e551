ghost use Rattle.std.specs.Prelude.{◌≡◌};
ghost use Rattle.std.specs.Arc.{arc_value};
ghost use Rattle.twin_list.specs.Halves.{list_id};

use crate::Install;
use std::marker::Model;
use std::snapshot::Snapshot;
use std::sync::Arc;
use twin_list::TwinList;
use uni_base::Limits;
use uni_schema::Schema;

/// What a catalogue is opened with: a schema, limits, and a list of installs, of which it only says which one it is.
#[derive(Drop)]
pub struct Settings {
    schema: Arc<Schema>,
    limits: Limits,
    installs: Snapshot<TwinList<Install>>,
}

impl Model for Settings {
    ghost use Rattle.std.specs.Arc.{arc_value};
    ghost use Rattle.twin_list.specs.Halves.{list_id};
    ghost use Rattle.version_catalog.specs.Settings.{SettingsState};

    ghost Value = { SettingsState };

    ghost view = { λ s. record { schema = arc_value s.schema; limits = s.limits; installs = list_id s.installs.value } };
}

impl Settings {
    pub fn new(schema: Arc<Schema>, limits: Limits, installs: &TwinList<Install>) -> Settings
        ensures { result ≡ record { schema = arc_value schema; limits = limits; installs = list_id installs.now } }
    {
        Settings {
            schema,
            limits,
            installs: Snapshot::of(installs),
        }
    }

    pub fn schema(&self) -> &Arc<Schema>
        ensures { arc_value result.now ≡ self.now.schema }
    {
        &self.schema
    }

    pub fn limits(&self) -> &Limits
        ensures { result.now ≡ self.now.limits }
    {
        &self.limits
    }
}
