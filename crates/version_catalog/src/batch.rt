//! The commands of a batch, which contracts alone see.
ghost use Rattle.std.specs.Prelude.{◌≡◌, ◌∷◌, ◌++◌, []};

use std::marker::Model;
use std::mem;
use std::snapshot::Snapshot;
use uni_table::Command;

// Commands in order: none, or others and one more.
#[derive(Drop)]
struct Commands {
    more: Option<(Snapshot<Commands>, Command)>,
}

impl Model for Commands {
    ghost use Rattle.std.specs.Prelude.{List, length, [], ◌∷◌, ◌++◌};
    ghost use Rattle.std.specs.Option.{option_map_or};
    ghost use Rattle.uni_table.specs.declared.command.Command.{Command};

    ghost Value = { List Command };

    ghost view = { λ c. option_map_or (λ m. m.0.value ++ m.1 ∷ []) c.more [] };

    ghost size = { length };

    ghost use Rattle.std.proofs.Common.{arith, length-append};

    ghost size_decreases = { λ c h. Prim.grind (arith, length-append) };
}

/// The commands that are accepted and not published yet, in order. It takes no memory: what they did is in
/// the feeder's table, and the list is there for contracts, which see it.
#[derive(Drop)]
pub struct Batch {
    commands: Snapshot<Commands>,
}

impl Model for Batch {
    ghost use Rattle.std.specs.Prelude.{List};
    ghost use Rattle.uni_table.specs.declared.command.Command.{Command};

    ghost Value = { List Command };

    ghost view = { λ b. b.commands.value };
}

impl Batch {
    /// The batch without commands.
    pub fn new() -> Batch
        ensures { result ≡ [] }
    {
        Batch {
            commands: Snapshot::of(&Commands { more: None }),
        }
    }

    /// Adds a command at the end.
    pub fn push(&mut self, command: Command)
        ensures { self.new ≡ self.old ++ command ∷ [] }
    {
        let before = mem::replace(&mut self.commands, Batch::new().commands);
        self.commands = Snapshot::of(&Commands {
            more: Some((before, command)),
        });
    }
}
