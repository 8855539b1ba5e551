//! Commands of every form, packed and as they were.
use packed_command::PackedCommand;
use std::alloc::Global;
use std::mem::size_of;
use std::process::Abort;
use std::test::Fail;
use uni_base::{EntityId, Rank, Word};
use uni_table::{AudienceText, Command};

fn word(text: &[u8]) -> Result<Word, Fail> {
    Ok(Word::read(text).ok_or("no word")?)
}

fn id(number: u64) -> Result<EntityId, Fail> {
    Ok(EntityId::new(number).ok_or("no id")?)
}

// An edge of a type with a key, to an audience, up to a publish or for good.
fn edge(key: &[u8], audience: AudienceText, until: u64) -> Result<Command, Fail> {
    Ok(Command::Edge {
        type_no: 3,
        key: word(key)?,
        target: id(u64::MAX)?,
        audience,
        until,
    })
}

// Commands are as they were once they are packed.
fn are_kept(rt: &impl Abort, alloc: Global, commands: &[Command]) -> Result<(), Fail> {
    for command in commands {
        let packed = PackedCommand::of(alloc, command)?;
        assert!(rt; packed.command() == *command);
    }
    Ok(())
}

#[test]
fn every_form(rt: HostRuntime) -> Result<(), Fail> {
    let entity = Command::Entity {
        vertical: 2,
        id: id(7)?,
        rank: Rank(9),
    };
    let cut = Command::Cut {
        type_no: 1,
        key: word(b"123456789012")?,
        target: id(4)?,
    };
    let long_cut = Command::Cut {
        type_no: 1,
        key: word(b"1234567890123")?,
        target: id(4)?,
    };
    let others = [entity, cut, long_cut, Command::Gone { id: id(1)? }];
    let circle = AudienceText::Circle(5, word(b"rome")?);
    let edges = [
        edge(b"1", AudienceText::Public, 0)?,
        edge(b"santiago-de-", AudienceText::Only, 0)?,
        edge(b"santiago-de-compostela", AudienceText::Public, 0)?,
        edge(b"2", AudienceText::Public, 1)?,
        edge(b"3", circle, 0)?,
    ];
    are_kept(&rt, rt.alloc(), &others)?;
    are_kept(&rt, rt.alloc(), &edges)
}

#[test]
fn bytes(rt: HostRuntime) -> Result<(), Fail> {
    assert_eq!(rt; size_of::<PackedCommand>(), 24);
    Ok(())
}
