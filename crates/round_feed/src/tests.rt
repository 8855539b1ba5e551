//! Rounds of a small catalogue, with answers and layers that were worked out by hand.
ghost use Rattle.std.specs.Prelude.{◌≡◌};
ghost use Rattle.script_rounds.specs.Fits.{ItemsFit};
ghost use Rattle.turn_lock.specs.Seats.{SeatRests};
ghost use Rattle.uni_base.specs.StandardLimits.{IsWithinStandard};
ghost use Rattle.version_catalog.specs.Seats.{IsFeederOf, IsCompactorOf, IsSessionOf};
ghost use Rattle.round_feed.specs.Seats.{terms_of};

use crate::{compact_round, feed_round};
use rack_aggregate::Gate;
use reply_text::{AnswerList, write_answer};
use script_rounds::{ItemList, Rounds};
use std::alloc::Global;
use std::sync::Wait;
use std::test::Fail;
use uni_base::{Limits, MemorySource, Text};
use uni_schema::Schema;
use version_catalog::{Catalogue, Compactor, Feeder, Session};

mod scripts;

// Users in two shards of two replicas, and photos in one: five stacks. A bar ends a line, and rounds begin
// at line 7.
const HEADER: &[u8] = b"\
    unicorn 2|vertical user 2 2|vertical photo 1 1|type friend user user both index|\
    type lives word user target index|begin|";

// More turns than a test takes.
const MANY: u64 = 1_000_000;

// Adds a part to a text. A bar stands for an LF.
fn add(text: &mut Text, part: &[u8]) -> Result<(), Fail> {
    for byte in part {
        text.push(if *byte == b'|' { b'\n' } else { *byte })?;
    }
    Ok(())
}

// The lines of answers.
fn add_answers(
    alloc: Global,
    schema: &Schema,
    answers: &AnswerList,
    text: &mut Text,
) -> Result<(), Fail> {
    for answer in answers.as_slice() {
        write_answer(alloc, schema, answer, text)?;
    }
    Ok(())
}

// Feeds a round, and compacts in one.
fn fed<R: Wait, G: Gate>(
    rt: &R,
    alloc: Global,
    catalogue: &Catalogue,
    feeder: &mut Feeder,
    items: &ItemList,
    gate: &G,
) -> Option<AnswerList>
    requires of { IsFeederOf catalogue.now feeder.old }
    requires fit { ItemsFit (terms_of catalogue.now) items.now }
    ensures { IsFeederOf catalogue.now feeder.new }
{
    if feeder.turns() > MANY || items.len() as u64 > MANY {
        return None;
    }
    feed_round(rt, alloc, catalogue, feeder, items, gate).ok()
}

fn compacted<R: Wait, G: Gate>(
    rt: &R,
    alloc: Global,
    catalogue: &Catalogue,
    compactor: &mut Compactor,
    items: &ItemList,
    gate: &G,
) -> Option<AnswerList>
    requires of { IsCompactorOf catalogue.now compactor.old }
    requires fit { ItemsFit (terms_of catalogue.now) items.now }
    ensures { IsCompactorOf catalogue.now compactor.new }
{
    if compactor.turns() > MANY || items.len() as u64 > MANY {
        return None;
    }
    compact_round(rt, alloc, catalogue, compactor, items, gate).ok()
}

// A catalogue with a seat of each kind, and the rounds of a script.
#[derive(Drop)]
struct Opened {
    catalogue: Catalogue,
    feeder: Feeder,
    compactor: Compactor,
    session: Session,
    rounds: Rounds,
    source: MemorySource,
    ghost feeds: { IsFeederOf catalogue feeder },
    ghost compacts: { IsCompactorOf catalogue compactor },
    ghost asks: { IsSessionOf catalogue session },
    ghost rests: { SeatRests session },
    ghost terms: { rounds.terms ≡ terms_of catalogue },
}

impl Opened {
    fn new<R: Wait>(rt: &R, alloc: Global, limits: Limits, script: Text) -> Result<Opened, Fail>
        requires { IsWithinStandard limits }
    {
        let mut pieces = Vec::new(alloc);
        pieces.push(script)?;
        let mut source = MemorySource::new(pieces, Vec::new(alloc));
        let Ok((rounds, schema)) = Rounds::open(alloc, limits, &mut source) else {
            return Err("no header")?;
        };
        let (catalogue, mut feeder, compactor) = Catalogue::new(rt, alloc, schema, limits)?;
        let session = catalogue.session(&mut feeder);
        Ok(Opened {
            catalogue,
            feeder,
            compactor,
            session,
            rounds,
            source,
        })
    }

    // Plays a round, and answers the lines of its compactor, which comes first, and of its feeder, and the
    // layers of all stacks then.
    fn play<R: Wait, G: Gate>(&mut self, rt: &R, alloc: Global, gate: &G) -> Result<Text, Fail> {
        let Ok(Some(round)) = self.rounds.next(&mut self.source) else {
            return Err("no round")?;
        };
        let compacts = compacted(
            rt,
            alloc,
            &self.catalogue,
            &mut self.compactor,
            &round.items,
            gate,
        )
        .ok_or("not compacted")?;
        let feeds = fed(
            rt,
            alloc,
            &self.catalogue,
            &mut self.feeder,
            &round.items,
            gate,
        )
        .ok_or("not fed")?;
        let mut text = Text::new(alloc);
        let schema = self.feeder.table().schema();
        add_answers(alloc, schema, &compacts, &mut text)?;
        add_answers(alloc, schema, &feeds, &mut text)?;
        self.add_layers(rt, alloc, &mut text)?;
        Ok(text)
    }

    // The number of layers of each stack, in one line.
    fn add_layers<R: Wait>(&mut self, rt: &R, alloc: Global, text: &mut Text) -> Result<(), Fail> {
        if self.session.turns() > MANY {
            return Err("too many")?;
        }
        text.extend_from_slice(b"layers")?;
        let pinned = self.catalogue.pin(rt, &mut self.session)?;
        for stack in pinned.version().stacks() {
            let layers = stack.layers();
            text.extend_from_slice(format!(in alloc; " {layers}")?.as_bytes())?;
        }
        text.push(b'\n')?;
        Ok(())
    }
}
