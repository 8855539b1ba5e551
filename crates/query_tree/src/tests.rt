use crate::{
    DEFAULT_LIMIT, JoinNode, ListNode, Mark, Operand, Query, QueryRefusal, TermNode, print_query,
};
use std::alloc::Global;
use std::test::Fail;
use uni_base::Word;

/// The texts of the queries that `query` makes, by their numbers.
static TEXTS: [&str; 16] = [
    "friend:1",
    "(and friend:1 lives:rome)",
    "(or friend:1 lives:rome)",
    "(difference friend:1 lives:rome)",
    "(weak-and (term friend:1 :optional-hits 1) lives:rome)",
    "(strong-or friend:1 (term lives:rome :optional-weight 1/2))",
    "(weak-and friend:1 (term lives:rome :optional-hits 0))",
    "(strong-or (term friend:1 :optional-weight 999/1000) (term lives:rome :optional-weight 1/1))",
    "(apply friend: friend:1)",
    "(apply friend: friend:1 :limit 1)",
    "(extract lives: (apply friend: friend:1 :limit 5000) :limit 999)",
    "(weak-and (apply friend: friend:1 :limit 5 :optional-hits 1000000) friend:1)",
    "(strong-or (or friend:1 lives:rome :optional-weight 1/3) friend:1)",
    "(and (weak-and (term friend:1 :optional-hits 1) lives:rome) friend:1)",
    "lives:ro*",
    "(weak-and (term lives:ro* :optional-weight 1/2) friend:1)",
];

fn query(alloc: Global, number: usize) -> Result<Query, Fail> {
    match number {
        1 => Ok(Query::And(marked(alloc, Mark::Plain, Mark::Plain)?)),
        2 => Ok(Query::Or(marked(alloc, Mark::Plain, Mark::Plain)?)),
        3 => Ok(Query::Difference(marked(alloc, Mark::Plain, Mark::Plain)?)),
        4 => Ok(Query::WeakAnd(marked(alloc, Mark::Hits(1), Mark::Plain)?)),
        5 => Ok(Query::StrongOr(marked(alloc, Mark::Plain, Mark::Weight(1, 2))?)),
        6 => Ok(Query::WeakAnd(marked(alloc, Mark::Plain, Mark::Hits(0))?)),
        7 => Ok(Query::StrongOr(marked(alloc, Mark::Weight(999, 1000), Mark::Weight(1, 1))?)),
        8 => applied(alloc, DEFAULT_LIMIT),
        9 => applied(alloc, 1),
        10 => Ok(Query::Extract(join(alloc, b"lives", 999, applied(alloc, 5000)?)?)),
        11 => Ok(Query::WeakAnd(before_friends(alloc, applied(alloc, 5)?, Mark::Hits(1_000_000))?)),
        12 => {
            let inner = Query::Or(marked(alloc, Mark::Plain, Mark::Plain)?);
            Ok(Query::StrongOr(before_friends(alloc, inner, Mark::Weight(1, 3))?))
        }
        13 => {
            let inner = Query::WeakAnd(marked(alloc, Mark::Hits(1), Mark::Plain)?);
            Ok(Query::And(before_friends(alloc, inner, Mark::Plain)?))
        }
        14 => prefix(b"lives", b"ro"),
        15 => {
            let weighed = before_friends(alloc, prefix(b"lives", b"ro")?, Mark::Weight(1, 2))?;
            Ok(Query::WeakAnd(weighed))
        }
        _ => friends(),
    }
}

fn word(text: &[u8]) -> Result<Word, Fail> {
    Ok(Word::read(text).ok_or("no word")?)
}

fn term(type_name: &[u8], key: &[u8]) -> Result<Query, Fail> {
    Ok(Query::Term(TermNode {
        column: 1,
        type_name: word(type_name)?,
        key: word(key)?,
    }))
}

fn prefix(type_name: &[u8], key: &[u8]) -> Result<Query, Fail> {
    Ok(Query::Prefix(TermNode {
        column: 1,
        type_name: word(type_name)?,
        key: word(key)?,
    }))
}

fn friends() -> Result<Query, Fail> {
    term(b"friend", b"1")
}

fn marked(alloc: Global, first: Mark, second: Mark) -> Result<ListNode, Fail> {
    let first = Operand {
        node: friends()?,
        mark: first,
    };
    let second = Operand {
        node: term(b"lives", b"rome")?,
        mark: second,
    };
    Ok(ListNode {
        column: 1,
        operands: vec![in alloc; first, second]?,
    })
}

fn before_friends(alloc: Global, node: Query, mark: Mark) -> Result<ListNode, Fail> {
    let second = Operand {
        node: friends()?,
        mark: Mark::Plain,
    };
    Ok(ListNode {
        column: 1,
        operands: vec![in alloc; Operand { node, mark }, second]?,
    })
}

fn join(alloc: Global, type_name: &[u8], limit: u32, node: Query) -> Result<JoinNode, Fail> {
    Ok(JoinNode {
        column: 1,
        type_column: 8,
        type_name: word(type_name)?,
        limit,
        node: Box::new(alloc, node)?,
    })
}

fn applied(alloc: Global, limit: u32) -> Result<Query, Fail> {
    Ok(Query::Apply(join(alloc, b"friend", limit, friends()?)?))
}

#[test]
fn prints(rt: HostRuntime) -> Result<(), Fail> {
    for (number, text) in TEXTS.iter().enumerate() {
        let printed = print_query(rt.alloc(), &query(rt.alloc(), number)?)?;
        assert!(rt; printed.as_slice() == text.as_bytes(), "query {number}");
    }
    Ok(())
}

#[test]
fn a_term_is_one_node(rt: HostRuntime) -> Result<(), Fail> {
    let term = Query::Term(TermNode {
        column: 1,
        type_name: word(b"friend")?,
        key: word(b"1")?,
    });
    assert_eq!(rt; term.nodes(), 1);
    assert_eq!(rt; term.depth(), 0);
    Ok(())
}

#[test]
fn refusals_say_what_they_are(rt: HostRuntime) -> Result<(), Fail> {
    let fault = QueryRefusal::Fault {
        code: 32,
        column: 14,
    };
    assert_eq!(rt;
        fault.to_string(rt.alloc())?.as_str(),
        "fault 32 at column 14"
    );
    assert_eq!(rt;
        QueryRefusal::Memory.to_string(rt.alloc())?.as_str(),
        "memory ran out"
    );
    Ok(())
}
