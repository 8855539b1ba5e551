//! Answers, and the text that they are.
use crate::{Answer, StackRow, StackRows, write_answer};
use std::alloc::Global;
use std::test::Fail;
use uni_base::{DocKey, EdgeList, EdgeRef, EntityId, Key, Limits, Rank, Text, Word};
use uni_meaning::{Hit, HitList, Reply};
use uni_schema::{HeaderReader, Schema};

/// People with their friends and towns, and photos.
static HEADER: [&str; 6] = [
    "unicorn 1",
    "vertical user 2 1",
    "vertical photo 1 2",
    "type friend user user both index",
    "type lives word user target index",
    "begin",
];

/// One answer of each kind, some with two lines more.
const ANSWERS: &[u8] = b"published 2 1
reply 3 at 1 hits 2
hit 7 via lives:rome>7
hit 9 via friend:7>9 lives:rome>7
compacted 4 5
stats 5 at 1 stacks 2
stack user 1 0 layers 4
stack photo 0 1 layers 0
refused 6 21
error 70 64
error 8 41 13
memory 9
tidied user 1 0 3
untidied photo 0 1
";

fn schema(alloc: Global) -> Result<Schema, Fail> {
    let mut header = HeaderReader::new(alloc, Limits::standard());
    for (before, line) in HEADER.iter().enumerate() {
        match header.take(before as u64 + 1, line.as_bytes()) {
            Ok(true) => return Ok(header.schema()),
            Ok(false) => {}
            Err(_) => return Err("no header")?,
        }
    }
    Err("no begin")?
}

fn word(text: &[u8]) -> Result<Word, Fail> {
    Ok(Word::read(text).ok_or("no word")?)
}

fn id(number: u64) -> Result<EntityId, Fail> {
    Ok(EntityId::new(number).ok_or("no id")?)
}

fn doc(rank: u32, number: u64) -> Result<DocKey, Fail> {
    Ok(DocKey {
        rank: Rank(rank),
        id: id(number)?,
    })
}

// Somebody who lives in Rome, and a friend.
fn reply(alloc: Global, friend: u16, lives: u16) -> Result<Reply, Fail> {
    let in_rome = EdgeRef {
        type_no: lives,
        key: Key::Word(word(b"rome")?),
        target: id(7)?,
    };
    let of_friend = EdgeRef {
        type_no: friend,
        key: Key::Id(id(7)?),
        target: id(9)?,
    };
    let mut one = EdgeList::new(alloc);
    one.push(in_rome)?;
    let mut two = EdgeList::new(alloc);
    two.push(of_friend)?;
    two.push(in_rome)?;
    let mut hits = HitList::new(alloc);
    hits.push(Hit {
        key: doc(6, 7)?,
        lineage: one,
    })?;
    hits.push(Hit {
        key: doc(5, 9)?,
        lineage: two,
    })?;
    Ok(Reply { publishes: 1, hits })
}

// Two stacks, of which one is empty.
fn stacks(alloc: Global, user: u16, photo: u16) -> Result<StackRows, Fail> {
    let mut rows = StackRows::new(alloc);
    rows.push(StackRow {
        vertical: user,
        shard: 1,
        replica: 0,
        layers: 4,
    })?;
    rows.push(StackRow {
        vertical: photo,
        shard: 0,
        replica: 1,
        layers: 0,
    })?;
    Ok(rows)
}

fn type_no(schema: &Schema, name: &[u8]) -> Result<u16, Fail> {
    Ok(schema.type_no(&word(name)?).ok_or("no type")?)
}

fn vertical_no(schema: &Schema, name: &[u8]) -> Result<u16, Fail> {
    Ok(schema.vertical_no(&word(name)?).ok_or("no vertical")?)
}

// Adds the lines of an answer.
fn add(alloc: Global, out: &mut Text, schema: &Schema, answer: Answer) -> Result<(), Fail> {
    write_answer(alloc, schema, &answer, out)?;
    Ok(())
}

fn add_reply(alloc: Global, out: &mut Text, schema: &Schema) -> Result<(), Fail> {
    let friend = type_no(schema, b"friend")?;
    let lives = type_no(schema, b"lives")?;
    let reply = reply(alloc, friend, lives)?;
    add(alloc, out, schema, Answer::Reply(3, reply))
}

fn add_stacks(alloc: Global, out: &mut Text, schema: &Schema) -> Result<(), Fail> {
    let user = vertical_no(schema, b"user")?;
    let photo = vertical_no(schema, b"photo")?;
    let stacks = stacks(alloc, user, photo)?;
    add(alloc, out, schema, Answer::Stats(5, 1, stacks))
}

fn add_faults(alloc: Global, out: &mut Text, schema: &Schema) -> Result<(), Fail> {
    add(alloc, out, schema, Answer::Refused(6, 21))?;
    add(alloc, out, schema, Answer::Fault(70, 64))?;
    add(alloc, out, schema, Answer::QueryFault(8, 41, 13))?;
    add(alloc, out, schema, Answer::Memory(9))
}

fn add_tidied(alloc: Global, out: &mut Text, schema: &Schema) -> Result<(), Fail> {
    let user = vertical_no(schema, b"user")?;
    let photo = vertical_no(schema, b"photo")?;
    add(alloc, out, schema, Answer::Tidied(user, 1, 0, 3))?;
    add(alloc, out, schema, Answer::Untidied(photo, 0, 1))
}

// Adds the lines of them all.
fn add_all(alloc: Global, out: &mut Text, schema: &Schema) -> Result<(), Fail> {
    add(alloc, out, schema, Answer::Published(2, 1))?;
    add_reply(alloc, out, schema)?;
    add(alloc, out, schema, Answer::Compacted(4, 5))?;
    add_stacks(alloc, out, schema)?;
    add_faults(alloc, out, schema)?;
    add_tidied(alloc, out, schema)
}

fn are_answers(text: &[u8]) -> bool {
    text == ANSWERS
}

#[test]
fn each_answer_has_its_lines(rt: HostRuntime) -> Result<(), Fail> {
    let schema = schema(rt.alloc())?;
    let mut out = Text::new(rt.alloc());
    add_all(rt.alloc(), &mut out, &schema)?;
    assert!(rt; are_answers(out.as_slice()));
    Ok(())
}
