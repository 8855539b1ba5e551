//! A small catalogue, and asks of sessions whose answers are compared with what the definitions say.
ghost use Rattle.std.specs.Prelude.{◌≤◌, All, IfSome, length};
ghost use Rattle.session_asks.specs.Replies.{IsAsk};
ghost use Rattle.session_asks.specs.Seats.{AllMayTake};
ghost use Rattle.version_catalog.specs.Seats.{IsFeederOf};

use crate::{AskLine, AskList};
use feed_reader::{FeedLine, read_feed_line};
use query_check::check;
use query_reader::read_query;
use reply_text::{Answer, AnswerList};
use std::alloc::Global;
use std::sync::{Arc, Wait};
use std::test::Fail;
use uni_base::{Limits, cut_at, read_between, read_id};
use uni_meaning::{Hit, Reply, plain_answer};
use uni_schema::{HeaderReader, Schema};
use uni_table::Table;
use version_catalog::{Catalogue, Feeder, Session};

mod halves;
mod layers;
mod replies;
mod threads;

// Users in two shards of two replicas, and photos in one. A bar ends a line.
const HEADER: &[u8] =
    b"unicorn 2|vertical user 2 2|vertical photo 1 1|type friend user user both index|type lives word user target index|type tagged user photo source index|type shows photo user source forward|type blocked user user source index|deny blocked|begin";

// More turns than a test takes.
const MANY: u64 = 1_000_000;

fn schema(alloc: Global) -> Option<Schema> {
    let mut header = HeaderReader::new(alloc, Limits::standard());
    let mut rest = HEADER;
    for line_no in 1..=20 {
        let (line, others) = cut_at(rest, b'|').unwrap_or((rest, b""));
        match header.take(line_no, line) {
            Ok(true) => return Some(header.schema()),
            Ok(false) => rest = others,
            Err(_) => return None,
        }
    }
    None
}

// A catalogue with its feeder.
#[derive(Drop)]
struct Opened {
    catalogue: Catalogue,
    feeder: Feeder,
    ghost feeds: { IsFeederOf catalogue feeder },
}

fn open<R: Wait>(rt: &R, alloc: Global) -> Result<Opened, Fail> {
    let Some(schema) = schema(alloc) else {
        return Err("no header")?;
    };
    let schema = Arc::new(alloc, schema)?;
    let (catalogue, feeder, _) = Catalogue::new(rt, alloc, schema, Limits::standard())?;
    Ok(Opened { catalogue, feeder })
}

// Whether a line is a change that the feeder takes.
fn is_put(_catalogue: &Catalogue, feeder: &mut Feeder, line: &[u8]) -> bool
    requires { IsFeederOf _catalogue.now feeder.old }
    ensures { IsFeederOf _catalogue.now feeder.new }
{
    let Ok(FeedLine::Change(command)) = read_feed_line(feeder.table().schema(), line) else {
        return false;
    };
    feeder.put(&command).is_ok()
}

// Whether the feeder takes all lines, which bars part.
fn are_put(catalogue: &Catalogue, feeder: &mut Feeder, lines: &[u8]) -> bool
    requires { IsFeederOf catalogue.now feeder.old }
    ensures { IsFeederOf catalogue.now feeder.new }
{
    for line in lines.split(|byte| *byte == b'|') {
        if !is_put(catalogue, feeder, line) {
            return false;
        }
    }
    true
}

// Whether it takes and publishes them.
fn is_fed<R: Wait>(rt: &R, catalogue: &Catalogue, feeder: &mut Feeder, lines: &[u8]) -> bool
    requires { IsFeederOf catalogue.now feeder.old }
    ensures { IsFeederOf catalogue.now feeder.new }
{
    are_put(catalogue, feeder, lines)
        && feeder.turns() < MANY
        && catalogue.publish(rt, feeder).is_ok()
}

// Reads `VIEWER LIMIT QUERY`.
fn read_ask(alloc: Global, schema: &Schema, line: u64, text: &[u8]) -> Option<AskLine>
    ensures { IfSome result (λ ask. IsAsk schema.now ask) }
{
    // The weights of a query that was read are shares.
    apply_extract::laws::within_has_shares();
    let limits = Limits::standard();
    let (viewer, rest) = cut_at(text, b' ')?;
    let (limit, text) = cut_at(rest, b' ')?;
    let viewer = read_id(viewer)?;
    let limit = read_between(limit, 1, 5000)? as u32;
    if text.len() > 4096 {
        return None;
    }
    let Ok(query) = read_query(alloc, &limits, 2, text) else {
        return None;
    };
    let Ok(query) = check(alloc, schema, &limits, &query) else {
        return None;
    };
    Some(AskLine {
        line,
        viewer,
        limit,
        query,
    })
}

// Reads asks, which bars part; there are none in the empty text.
fn read_asks(alloc: Global, schema: &Schema, text: &[u8]) -> Option<AskList>
    ensures { IfSome result (λ asks. All (IsAsk schema.now) asks) }
{
    let mut asks = AskList::new(alloc);
    if text.is_empty() {
        return Some(asks);
    }
    let mut line = 9;
    for ask in text.split(|byte| *byte == b'|') {
        line = line % 100 + 1;
        let ask = read_ask(alloc, schema, line, ask)?;
        let Ok(()) = asks.push(ask) else {
            return None;
        };
    }
    Some(asks)
}

// Reads a list for each session; semicolons part them.
fn read_lists(alloc: Global, schema: &Schema, text: &[u8]) -> Option<Vec<AskList>>
    ensures { IfSome result (λ lists. All (All (IsAsk schema.now)) lists.items) }
{
    let mut lists = Vec::new(alloc);
    for asks in text.split(|byte| *byte == b';') {
        let asks = read_asks(alloc, schema, asks)?;
        let Ok(()) = lists.push(asks) else {
            return None;
        };
    }
    Some(lists)
}

// A new session for each list.
fn sessions_for(
    alloc: Global,
    catalogue: &Catalogue,
    feeder: &mut Feeder,
    lists: &[AskList],
) -> Option<Vec<Session>>
    requires { IsFeederOf catalogue.now feeder.old }
    ensures of { IsFeederOf catalogue.now feeder.new }
    ensures may { IfSome result (λ sessions. AllMayTake catalogue.now sessions.items lists.now) }
{
    let mut sessions = Vec::new(alloc);
    for list in lists {
        if feeder.sessions() >= 126 || list.len() > 1000 {
            return None;
        }
        let Ok(()) = sessions.push(catalogue.session(feeder)) else {
            return None;
        };
    }
    Some(sessions)
}

// Whether two hits are of one entity, by the same edges.
fn is_same(hit: &Hit, other: &Hit) -> bool {
    hit.key == other.key && hit.lineage.as_slice() == other.lineage.as_slice()
}

// Whether two replies are the same.
fn are_same(reply: &Reply, other: &Reply) -> bool {
    let hits = reply.hits.as_slice();
    let others = other.hits.as_slice();
    reply.publishes == other.publishes
        && hits.len() == others.len()
        && hits
            .iter()
            .zip(others)
            .all(|(hit, other)| is_same(hit, other))
}

// Whether an ask has the reply that it is due of a table, after so many publishes.
fn is_due(
    alloc: Global,
    table: &Table,
    publishes: u64,
    ask: &AskLine,
    answer: &Answer,
) -> Option<bool>
    requires { IsAsk table.now.schema ask.now }
{
    let Answer::Reply(line, reply) = answer else {
        return Some(false);
    };
    let due = plain_answer(alloc, table, publishes, &ask.query, ask.viewer, ask.limit).ok()?;
    Some(*line == ask.line && are_same(reply, &due))
}

// Whether asks have the replies that they are due of a table, after so many publishes.
fn are_due(
    alloc: Global,
    table: &Table,
    publishes: u64,
    asks: &AskList,
    answers: &AnswerList,
) -> Option<bool>
    requires { All (IsAsk table.now.schema) asks.now }
{
    for (place, ask) in asks.as_slice().iter().enumerate() {
        if !is_due(alloc, table, publishes, ask, answers.get(place)?)? {
            return Some(false);
        }
    }
    Some(asks.len() == answers.len())
}
