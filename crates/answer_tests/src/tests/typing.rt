ghost use Rattle.std.specs.Prelude.{◌<◌};

use super::{HEADER, schema};
use query_check::check;
use query_tree::{DEFAULT_LIMIT, JoinNode, ListNode, Mark, Operand, Query, QueryRefusal, TermNode};
use std::alloc::Global;
use std::test::Fail;
use uni_base::{Limits, Word};
use uni_schema::Schema;

/// What a query is to be: of a vertical, or with a fault at a column.
#[derive(Clone, Copy, Debug, PartialEq, Eq)]
enum Expected {
    Vertical(u16),
    Fault(u32, u32),
}

/// The queries by their numbers, with what they are to be. Each stands above as a text.
fn query(alloc: Global, number: u32) -> Result<(Query, Expected), Fail> {
    Ok(match number {
        // friend:1
        0 => (term(1, b"friend", b"1")?, Expected::Vertical(0)),
        // lives:1
        1 => (term(1, b"lives", b"1")?, Expected::Vertical(0)),
        // lives:ro*
        2 => (prefix(1, b"lives", b"ro")?, Expected::Vertical(0)),
        // frend:1
        3 => (term(1, b"frend", b"1")?, Expected::Fault(41, 1)),
        // friend:rome
        4 => (term(1, b"friend", b"rome")?, Expected::Fault(42, 1)),
        // friend:1*
        5 => (prefix(1, b"friend", b"1")?, Expected::Fault(42, 1)),
        // shows:102
        6 => (term(1, b"shows", b"102")?, Expected::Fault(43, 1)),
        // (extract friend: friend:1)
        7 => {
            let join = join(alloc, 1, 10, b"friend", term(18, b"friend", b"1")?)?;
            (Query::Extract(join), Expected::Fault(44, 10))
        }
        // (apply shows: tagged:1)
        8 => {
            let join = join(alloc, 1, 8, b"shows", term(15, b"tagged", b"1")?)?;
            (Query::Apply(join), Expected::Fault(43, 8))
        }
        // (and friend:1 tagged:1)
        9 => {
            let list = both(alloc, term(6, b"friend", b"1")?, term(15, b"tagged", b"1")?)?;
            (Query::And(list), Expected::Fault(45, 15))
        }
        // (or friend:1 (apply tagged: friend:1))
        10 => {
            let join = join(alloc, 14, 21, b"tagged", term(29, b"friend", b"1")?)?;
            let list = both(alloc, term(5, b"friend", b"1")?, Query::Apply(join))?;
            (Query::Or(list), Expected::Fault(45, 14))
        }
        // (apply friend: tagged:2)
        11 => {
            let join = join(alloc, 1, 8, b"friend", term(16, b"tagged", b"2")?)?;
            (Query::Apply(join), Expected::Fault(46, 8))
        }
        // (apply lives: frend:1)
        12 => {
            let join = join(alloc, 1, 8, b"lives", term(15, b"frend", b"1")?)?;
            (Query::Apply(join), Expected::Fault(41, 15))
        }
        // (extract shows: (apply tagged: friend:1))
        13 => {
            let tagged = join(alloc, 17, 24, b"tagged", term(32, b"friend", b"1")?)?;
            let join = join(alloc, 1, 10, b"shows", Query::Apply(tagged))?;
            (Query::Extract(join), Expected::Vertical(0))
        }
        // (difference (apply tagged: friend:1) tagged:2)
        14 => {
            let join = join(alloc, 13, 20, b"tagged", term(28, b"friend", b"1")?)?;
            let list = both(alloc, Query::Apply(join), term(38, b"tagged", b"2")?)?;
            (Query::Difference(list), Expected::Vertical(1))
        }
        // four joins around friend:1
        15 => (joined(alloc, 4)?, Expected::Vertical(0)),
        // five
        _ => (joined(alloc, 5)?, Expected::Fault(47, 61)),
    })
}

fn word(text: &[u8]) -> Result<Word, Fail> {
    Ok(Word::read(text).ok_or("no word")?)
}

fn node(column: u32, type_name: &[u8], key: &[u8]) -> Result<TermNode, Fail> {
    Ok(TermNode {
        column,
        type_name: word(type_name)?,
        key: word(key)?,
    })
}

fn term(column: u32, type_name: &[u8], key: &[u8]) -> Result<Query, Fail> {
    Ok(Query::Term(node(column, type_name, key)?))
}

fn prefix(column: u32, type_name: &[u8], key: &[u8]) -> Result<Query, Fail> {
    Ok(Query::Prefix(node(column, type_name, key)?))
}

fn both(alloc: Global, first: Query, second: Query) -> Result<ListNode, Fail> {
    let first = Operand {
        node: first,
        mark: Mark::Plain,
    };
    let second = Operand {
        node: second,
        mark: Mark::Plain,
    };
    Ok(ListNode {
        column: 1,
        operands: vec![in alloc; first, second]?,
    })
}

fn join(
    alloc: Global,
    column: u32,
    type_column: u32,
    type_name: &[u8],
    node: Query,
) -> Result<JoinNode, Fail> {
    Ok(JoinNode {
        column,
        type_column,
        type_name: word(type_name)?,
        limit: DEFAULT_LIMIT,
        node: Box::new(alloc, node)?,
    })
}

/// So many `(apply friend: ` before `friend:1`, and as many parentheses after it.
fn joined(alloc: Global, joins: u32) -> Result<Query, Fail>
    requires { joins < 100 }
{
    let mut query = term(1 + 15 * joins, b"friend", b"1")?;
    for around in (0..joins).rev() {
        let column = 1 + 15 * around;
        query = Query::Apply(join(alloc, column, column + 7, b"friend", query)?);
    }
    Ok(query)
}

// What a query is found to be.
fn found(alloc: Global, schema: &Schema, query: &Query) -> Result<Expected, Fail> {
    match check(alloc, schema, &Limits::standard(), query) {
        Ok(checked) => Ok(Expected::Vertical(checked.vertical)),
        Err(QueryRefusal::Fault { code, column }) => Ok(Expected::Fault(code, column)),
        Err(QueryRefusal::Memory) => Err("memory")?,
    }
}

#[test]
fn queries_and_their_faults(rt: HostRuntime) -> Result<(), Fail> {
    let schema = schema(rt.alloc(), HEADER).ok_or("no schema")?;
    for number in 0..17 {
        let (query, expected) = query(rt.alloc(), number)?;
        if found(rt.alloc(), &schema, &query)? != expected {
            return Err(Fail::new(number));
        }
    }
    Ok(())
}
