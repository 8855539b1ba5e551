//! Random questions over random tables.
ghost use Rattle.std.specs.Prelude.{◌≡◌, ◌<◌};
ghost use Rattle.apply_extract.specs.Conditions.{IsStanding};

use super::asked::{Question, is_answered, nothing, version_of};
use crate::tests::is_put;
use shard_index::Version;
use std::alloc::Global;
use std::sync::Wait;
use std::test::Fail;
use std::thread::Threads;
use uni_base::EntityId;
use uni_table::Table;

// Numbers in no order, the same at each run.
#[derive(Drop)]
struct Noise {
    state: u64,
}

impl Noise {
    fn below(&mut self, n: u64) -> u64
        requires { 0 < n }
        ensures { result < n }
    {
        self.state = self
            .state
            .wrapping_mul(6_364_136_223_846_793_005)
            .wrapping_add(1_442_695_040_888_963_407);
        (self.state >> 33) % n
    }
}

// Few shards, and as many as there may be, most of which have nobody.
const HEADERS: [&[u8]; 2] = [
    b"unicorn 2|vertical user 3 2|vertical photo 2 1|type friend user user both index|type lives word user target index|type tagged user photo source index|type shows photo user source forward|type blocked user user source index|deny blocked|begin",
    b"unicorn 2|vertical user 64 1|vertical photo 64 4|type friend user user both index|type lives word user target index|type tagged user photo source index|type shows photo user source forward|type blocked user user source index|deny blocked|begin",
];

// Lines of a table, which bars part. A `#` stands for an id.
const LINES: &[u8] =
    b"entity user # #|entity user # #|entity user # #|entity photo # #|edge friend # # public|edge friend # # public|edge friend # # only|edge friend # # in:friend:#|edge lives rome # public|edge lives rieti # public|edge lives oslo # only|edge tagged # # public|edge tagged # # in:lives:rome|edge shows # # public|edge shows # # only|edge blocked # # public";

// Queries for users, which bars part. `U` stands for one of users, `P` for one of photos.
const USERS: &[u8] =
    b"friend:#|lives:rome|lives:oslo|lives:r*|(and U U)|(or U U U)|(difference U U)|(weak-and U (term friend:# :optional-hits 1))|(weak-and (term lives:rome :optional-weight 1/2) U)|(strong-or U (term friend:# :optional-weight 1/2) lives:r*)|(apply friend: U)|(apply friend: U :limit 2)|(extract shows: P)|(extract shows: P :limit 1)";

// Queries for photos.
const PHOTOS: &[u8] =
    b"tagged:#|(apply tagged: U)|(apply tagged: U :limit 3)|(and P P)|(or P P)|(difference P P)";

// The piece of a number, of pieces that bars part.
fn piece(pieces: &'static [u8], number: u64) -> Option<&'static [u8]> {
    for (at, piece) in pieces.split(|byte| *byte == b'|').enumerate() {
        if at as u64 == number {
            return Some(piece);
        }
    }
    None
}

// A line of the table.
fn line(alloc: Global, noise: &mut Noise) -> Option<Vec<u8>> {
    let form = piece(LINES, noise.below(16))?;
    let mut line = Vec::new(alloc);
    for byte in form {
        let byte = if *byte == b'#' {
            b'1' + noise.below(9) as u8
        } else {
            *byte
        };
        line.push(byte).ok()?;
    }
    Some(line)
}

// A form of a query: one without a query in it where there is no more depth.
fn form(noise: &mut Noise, kind: u8, depth: u32) -> Option<&'static [u8]> {
    match (kind, depth) {
        (b'P', 0) => piece(PHOTOS, 0),
        (b'P', _) => piece(PHOTOS, noise.below(6)),
        (_, 0) => piece(USERS, noise.below(4)),
        _ => piece(USERS, noise.below(14)),
    }
}

// Writes a query, with so many levels at most.
fn write_query(noise: &mut Noise, kind: u8, depth: u32, text: &mut Vec<u8>) -> Option<()> {
    for byte in form(noise, kind, depth)? {
        match *byte {
            b'#' => text.push(b'1' + noise.below(9) as u8).ok()?,
            b'U' | b'P' if depth > 0 => write_query(noise, *byte, depth - 1, text)?,
            other => text.push(other).ok()?,
        }
    }
    Some(())
}

// A question.
fn is_asked(
    rt: &(impl Threads + Wait + Sync),
    alloc: Global,
    table: &Table,
    version: &Version,
    noise: &mut Noise,
) -> Option<bool>
    requires standing { IsStanding version.now }
    requires same { version.now.schema ≡ table.now.schema }
{
    let kind = if noise.below(3) == 0 { b'P' } else { b'U' };
    let mut text = Vec::new(alloc);
    write_query(noise, kind, 4, &mut text)?;
    let limit = match noise.below(3) {
        0 => 5000,
        _ => noise.below(5) as u32 + 1,
    };
    let question = Question {
        viewer: EntityId::new(noise.below(9) + 1)?,
        limit,
        text: text.as_slice(),
    };
    is_answered(rt, alloc, &[2], table, version, &question)
}

// A table of a hundred lines, of which some are refused.
fn is_filled(alloc: Global, table: &mut Table, noise: &mut Noise) -> Option<()> {
    for _ in 0..100 {
        let line = line(alloc, noise)?;
        is_put(table, line.as_slice());
    }
    Some(())
}

// How many questions are answered, of as many as are asked of one table.
fn answered(
    rt: &(impl Threads + Wait + Sync),
    alloc: Global,
    table: &Table,
    noise: &mut Noise,
    questions: u64,
) -> Option<u64> {
    let version = version_of(alloc, table)?;
    for number in 0..questions {
        if !is_asked(rt, alloc, table, &version, noise)? {
            return Some(number);
        }
    }
    Some(questions)
}

// Whether fifty questions are answered over the table of a seed.
fn is_answered_whole(
    rt: &(impl Threads + Wait + Sync),
    alloc: Global,
    header: &[u8],
    seed: u64,
) -> Result<bool, Fail> {
    let mut noise = Noise { state: seed };
    let mut table = nothing(alloc, header)?;
    if is_filled(alloc, &mut table, &mut noise).is_none() {
        return Err("no table")?;
    }
    Ok(answered(rt, alloc, &table, &mut noise, 50) == Some(50))
}

// Fails at the first seed of so many whose table answers otherwise.
fn follow(
    rt: &(impl Threads + Wait + Sync),
    alloc: Global,
    header: &[u8],
    tables: u64,
) -> Result<(), Fail> {
    for case in 0..tables {
        if !is_answered_whole(rt, alloc, header, case)? {
            return Err(Fail::new(case));
        }
    }
    Ok(())
}

#[test]
fn in_few_shards(rt: HostRuntime) -> Result<(), Fail> {
    follow(&rt, rt.alloc(), HEADERS[0], 38)
}

#[test]
fn in_many_shards(rt: HostRuntime) -> Result<(), Fail> {
    follow(&rt, rt.alloc(), HEADERS[1], 2)
}
