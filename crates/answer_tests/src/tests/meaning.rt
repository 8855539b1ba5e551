//! Questions over a small table, with the answers as they were worked out by hand.
use super::{HEADER, ROWS, is_put, schema};
use query_check::check;
use query_reader::read_query;
use std::alloc::Global;
use std::sync::Arc;
use std::test::Fail;
use uni_base::{EdgeRef, EntityId, Fields, Key, Limits, cut_at, read_between, read_id};
use uni_meaning::{Hit, Reply, plain_answer};
use uni_schema::Schema;
use uni_table::Table;

// The text before the first of a byte, and what is after it.
fn part(text: &[u8], byte: u8) -> (&[u8], &[u8]) {
    cut_at(text, byte).unwrap_or((text, b""))
}

// Whether a key is as a text writes it.
fn is_key(key: &Key, text: &[u8]) -> bool {
    match key {
        Key::Id(id) => read_id(text) == Some(*id),
        Key::Word(word) => word.bytes() == text,
    }
}

// Whether an edge is that of a text: `TYPE:KEY:TARGET`, where a type is a number.
fn is_edge(edge: &EdgeRef, text: &[u8]) -> bool {
    let Some((type_no, rest)) = cut_at(text, b':') else {
        return false;
    };
    let Some((key, target)) = cut_at(rest, b':') else {
        return false;
    };
    read_between(type_no, 0, 65_535) == Some(edge.type_no as u64)
        && is_key(&edge.key, key)
        && read_id(target) == Some(edge.target)
}

// Whether edges are those of a text, which slashes part.
fn is_lineage(edges: &[EdgeRef], text: &[u8]) -> bool {
    let mut rest = text;
    for edge in edges {
        let (first, others) = part(rest, b'/');
        if !is_edge(edge, first) {
            return false;
        }
        rest = others;
    }
    rest.is_empty()
}

// Whether a hit is that of a text: its id alone, or also each edge of its lineage after a slash.
fn is_hit(hit: &Hit, text: &[u8], whole: bool) -> bool {
    if !whole {
        return read_id(text) == Some(hit.key.id);
    }
    let Some((id, edges)) = cut_at(text, b'/') else {
        return false;
    };
    read_id(id) == Some(hit.key.id) && is_lineage(hit.lineage.as_slice(), edges)
}

// Whether hits are those of a text in order, each after a space.
fn are_hits(hits: &[Hit], text: &[u8], whole: bool) -> bool {
    let mut texts = Fields::of(text);
    if texts.next().is_none_or(|front| !front.is_empty()) {
        return false;
    }
    for hit in hits {
        if !texts.next().is_some_and(|text| is_hit(hit, text, whole)) {
            return false;
        }
    }
    texts.next().is_none()
}

// A question with the hits that answer it: `VIEWER LIMIT QUERY= HIT HIT`.
#[derive(Drop)]
struct Question<'a> {
    viewer: EntityId,
    limit: u32,
    query: &'a [u8],
    hits: &'a [u8],
}

fn read_question(text: &[u8]) -> Option<Question<'_>> {
    let (asked, hits) = cut_at(text, b'=')?;
    let (viewer, rest) = cut_at(asked, b' ')?;
    let (limit, query) = cut_at(rest, b' ')?;
    Some(Question {
        viewer: read_id(viewer)?,
        limit: read_between(limit, 0, 65_535)? as u32,
        query,
        hits,
    })
}

fn reply(alloc: Global, table: &Table, question: &Question<'_>) -> Option<Reply> {
    let limits = Limits::standard();
    if question.query.len() > 1024 {
        return None;
    }
    let query = read_query(alloc, &limits, 2, question.query).ok()?;
    let query = check(alloc, table.schema(), &limits, &query).ok()?;
    plain_answer(alloc, table, 1, &query, question.viewer, question.limit).ok()
}

// Whether a question has its answer, with whole lineages or with ids alone.
fn is_answered(alloc: Global, table: &Table, text: &[u8], whole: bool) -> bool {
    let Some(question) = read_question(text) else {
        return false;
    };
    match reply(alloc, table, &question) {
        Some(reply) => reply.publishes == 1
            && are_hits(reply.hits.as_slice(), question.hits, whole),
        None => false,
    }
}

// Whether a step is as it is to be: `ask` and a question with whole lineages, `find` and one with ids
// alone, or a change of the table.
fn is_met(alloc: Global, table: &mut Table, step: &[u8]) -> bool {
    let Some((kind, rest)) = cut_at(step, b' ') else {
        return false;
    };
    if kind == b"ask".as_slice() {
        is_answered(alloc, table, rest, true)
    } else if kind == b"find".as_slice() {
        is_answered(alloc, table, rest, false)
    } else {
        is_put(table, step)
    }
}

// Makes steps, which bars part. Fails at the number of the first that is not as it is to be.
fn follow(alloc: Global, table: &mut Table, steps: &[u8]) -> Result<(), Fail> {
    for (number, step) in steps.split(|byte| *byte == b'|').enumerate() {
        if !is_met(alloc, table, step) {
            return Err(Fail::new(number));
        }
    }
    Ok(())
}

// Makes steps over the small table.
fn answers(alloc: Global, steps: &[u8]) -> Result<(), Fail> {
    let schema = schema(alloc, HEADER).ok_or("no header")?;
    let schema = Arc::new(alloc, schema)?;
    let mut table = Table::new(alloc, schema, Limits::standard());
    follow(alloc, &mut table, ROWS)?;
    follow(alloc, &mut table, steps)
}

const OPERATORS: &[u8] =
    b"ask 9 10 friend:1= 2/0:1:2 3/0:1:3 5/0:1:5|ask 9 10 (and friend:1 lives:rome)= 2/0:1:2/1:rome:2 5/0:1:5/1:rome:5|ask 9 10 (difference friend:1 lives:rome)= 3/0:1:3|ask 9 10 (or friend:1 lives:rome)= 2/0:1:2 3/0:1:3 5/0:1:5 6/1:rome:6 4/1:rome:4|ask 9 10 (strong-or friend:1 (term lives:rome :optional-weight 1/2))= 2/0:1:2 3/0:1:3 5/0:1:5 6/1:rome:6 4/1:rome:4";

// The count is spent on 6, which the outer operator discards. In shard 1, 7 follows 3 with two kept and
// none of its own. Each shard has a count of its own.
const WALKS: &[u8] =
    b"ask 9 10 (weak-and (term friend:1 :optional-hits 1) lives:rome)= 2/0:1:2/1:rome:2 5/0:1:5/1:rome:5 6/1:rome:6|find 9 10 (weak-and (term friend:1 :optional-weight 1/2) lives:rome)= 2 5 6 4|find 9 10 (weak-and (term friend:1 :optional-weight 2/3) lives:rome)= 2 5 6|find 9 10 (weak-and (term friend:1 :optional-weight 1/1) lives:rome)= 2 5|edge lives oslo 4 public|find 9 10 (and (weak-and (term friend:1 :optional-hits 1) lives:rome) (or lives:oslo))=|entity user 7 80|edge friend 1 7 public|find 9 10 (strong-or friend:1 (term lives:rome :optional-weight 1/2))= 2 3 5 6 4|cut friend 1 5|find 9 10 (weak-and (term friend:1 :optional-hits 1) lives:rome)= 2 5 6";

// A joining edge that is hidden, then each whole lineage of 102. What is hidden counts at the limit, and
// an owner sees it.
const JOINS: &[u8] =
    b"ask 9 10 (apply tagged: friend:1)= 102/2:3:102/0:1:3 101/2:2:101/0:1:2|find 9 10 (apply tagged: friend:1 :limit 1)= 101|ask 9 10 (extract shows: (apply tagged: friend:1))= 1/3:102:1/2:3:102/0:1:3 4/3:102:4/2:3:102/0:1:3|edge tagged 3 102 only|ask 9 10 (apply tagged: friend:1)= 102/2:5:102/0:1:5 101/2:2:101/0:1:2|edge friend 1 5 only|find 9 10 (apply tagged: friend:1)= 101|edge friend 1 5 public|edge tagged 5 102 only|find 9 10 (apply tagged: friend:1)= 101|find 9 1 (apply tagged: friend:1)=|find 3 1 (apply tagged: friend:1)= 102";

// The friends of 5 may see that 2 is a friend of 1. Then 3 denies 9, and nobody else. Ranks and rows are
// read as they stand.
const VIEWERS: &[u8] =
    b"edge friend 5 6 only|edge friend 1 2 in:friend:5|find 6 10 friend:1= 2 3 5|find 9 10 friend:1= 3 5|entity user 9 1|edge blocked 3 9 public|find 9 10 friend:1= 5|find 1 10 friend:1= 2 3 5|entity user 5 95|find 1 10 friend:1= 5 2 3|gone 3|find 1 10 friend:1= 5 2|find 1 1 friend:1= 5";

const BEGINNINGS: &[u8] =
    b"edge lives roma 3 public|edge lives roma 2 public|ask 9 10 lives:rom*= 2/1:roma:2 3/1:roma:3 5/1:rome:5 6/1:rome:6 4/1:rome:4|find 9 10 lives:os*=|edge lives roma 2 only|ask 9 10 (and lives:rom* (difference friend:1 lives:roma))= 5/1:rome:5/0:1:5|find 9 1 lives:rom*= 2";

#[test]
fn operators(rt: HostRuntime) -> Result<(), Fail> {
    answers(rt.alloc(), OPERATORS)
}

#[test]
fn walks(rt: HostRuntime) -> Result<(), Fail> {
    answers(rt.alloc(), WALKS)
}

#[test]
fn joins(rt: HostRuntime) -> Result<(), Fail> {
    answers(rt.alloc(), JOINS)
}

#[test]
fn viewers(rt: HostRuntime) -> Result<(), Fail> {
    answers(rt.alloc(), VIEWERS)
}

#[test]
fn beginnings_of_words(rt: HostRuntime) -> Result<(), Fail> {
    answers(rt.alloc(), BEGINNINGS)
}
