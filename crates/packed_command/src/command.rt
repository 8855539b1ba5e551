ghost use Rattle.std.specs.Prelude.{◌≡◌, IfOk, IfSome};
ghost use Rattle.packed_command.specs.Packed.{command_of, edge_of, puts_edge};

use crate::key::ShortKey;
use std::alloc::{AllocError, Global};
use std::marker::Model;
use uni_base::{EntityId, Rank};
use uni_table::{AudienceText, Command};

/// A command in 24 bytes, where its key has at most 12 and an edge that it puts does not end and is shown to
/// everybody or to its owners alone; any other one lies in a box. Contracts see the command.
#[derive(Debug, Drop)]
pub struct PackedCommand {
    form: Form,
}

/// The forms of commands. Fields stand in such an order that none takes more than 24 bytes.
#[derive(Debug, Drop)]
pub(crate) enum Form {
    Entity {
        vertical: u16,
        rank: Rank,
        id: EntityId,
    },
    Gone {
        id: EntityId,
    },
    Public {
        key: ShortKey,
        type_no: u16,
        target: EntityId,
    },
    Only {
        key: ShortKey,
        type_no: u16,
        target: EntityId,
    },
    Cut {
        key: ShortKey,
        type_no: u16,
        target: EntityId,
    },
    Whole(Box<Command>),
}

impl Model for PackedCommand {
    ghost use Rattle.uni_table.specs.declared.command.Command.{Command};
    ghost use Rattle.packed_command.specs.Packed.{command_of};

    ghost Value = { Command };

    ghost view = { λ p. command_of p.form };
}

impl PackedCommand {
    /// A command, which takes memory where it lies in a box.
    pub fn of(alloc: Global, command: &Command) -> Result<PackedCommand, AllocError>
        ensures { IfOk result (λ packed. packed ≡ command.now) }
    {
        let form = match in_place(command) {
            Some(form) => form,
            None => Form::Whole(Box::new(alloc, *command)?),
        };
        Ok(PackedCommand { form })
    }

    /// Whether it puts an edge.
    pub fn puts_edge(&self) -> bool
        ensures { result ≡ puts_edge self.now }
    {
        match &self.form {
            Form::Public { .. } | Form::Only { .. } => true,
            Form::Whole(command) => matches!(**command, Command::Edge { .. }),
            _ => false,
        }
    }

    /// The command as it was.
    pub fn command(&self) -> Command
        ensures { result ≡ self.now }
    {
        unpacked(&self.form)
    }
}

// The form of a command in place. None where it says more.
fn in_place(command: &Command) -> Option<Form>
    ensures { IfSome result (λ form. command_of form ≡ command.now) }
{
    match *command {
        Command::Entity { vertical, id, rank } => Some(Form::Entity { vertical, rank, id }),
        Command::Gone { id } => Some(Form::Gone { id }),
        Command::Edge {
            type_no,
            key,
            target,
            audience,
            until: 0,
        } => {
            let key = ShortKey::of(&key)?;
            match audience {
                AudienceText::Public => Some(Form::Public {
                    key,
                    type_no,
                    target,
                }),
                AudienceText::Only => Some(Form::Only {
                    key,
                    type_no,
                    target,
                }),
                AudienceText::Circle(..) => None,
            }
        }
        Command::Edge { .. } => None,
        Command::Cut {
            type_no,
            key,
            target,
        } => Some(Form::Cut {
            key: ShortKey::of(&key)?,
            type_no,
            target,
        }),
    }
}

// The command of a form.
fn unpacked(form: &Form) -> Command
    ensures { result ≡ command_of form.now }
{
    match form {
        Form::Entity { vertical, rank, id } => Command::Entity {
            vertical: *vertical,
            id: *id,
            rank: *rank,
        },
        Form::Gone { id } => Command::Gone { id: *id },
        Form::Public {
            key,
            type_no,
            target,
        } => edge(key, *type_no, *target, AudienceText::Public),
        Form::Only {
            key,
            type_no,
            target,
        } => edge(key, *type_no, *target, AudienceText::Only),
        Form::Cut {
            key,
            type_no,
            target,
        } => Command::Cut {
            type_no: *type_no,
            key: key.word(),
            target: *target,
        },
        Form::Whole(command) => **command,
    }
}

// An edge that does not end.
fn edge(key: &ShortKey, type_no: u16, target: EntityId, audience: AudienceText) -> Command
    ensures { result ≡ edge_of key.now type_no target audience }
{
    Command::Edge {
        type_no,
        key: key.word(),
        target,
        audience,
        until: 0,
    }
}
