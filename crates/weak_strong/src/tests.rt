ghost use Rattle.std.specs.Prelude.{◌≡◌, ◌≤◌, IfOk, option_to_list, vec_len};

use crate::{Fraction, StrongOrCursor, WeakAndCursor, WeakMark};
use set_cursors::{AndCursor, DifferenceCursor, OperatorCursor, OrCursor};
use std::alloc::Global;
use std::test::Fail;
use uni_base::{DocCursor, DocKey, EntityId, Rank};

mod random;

// Entities in rank order, with their ranks.
const RANKED: [(u64, u32); 10] = [
    (2, 90),
    (3, 90),
    (7, 80),
    (5, 70),
    (6, 60),
    (8, 60),
    (1, 50),
    (9, 50),
    (4, 10),
    (10, 10),
];

const FRIENDS: [u64; 3] = [2, 3, 5];

const ROMANS: [u64; 4] = [2, 5, 6, 4];

// A cursor over at most one key.
#[derive(Drop)]
struct OneKey(Option<DocKey>);

impl DocCursor for OneKey {
    ghost remaining = { λ c. option_to_list c.0 };

    fn peek(&self) -> Option<DocKey> {
        self.0
    }

    fn step(&mut self) {
        self.0 = None;
    }

    fn seek(&mut self, from: DocKey) {
        if let Some(key) = self.0 {
            if key.cmp(&from).is_lt() {
                self.0 = None;
            }
        }
    }
}

// What is asked of two lists of entities, each with a mark.
#[derive(Clone, Copy)]
enum Question {
    And,
    Or,
    Difference,
    Weak(WeakMark, WeakMark),
    Strong(Option<Fraction>, Option<Fraction>),
}

fn key(id: u64) -> Option<DocKey> {
    for (ranked, rank) in RANKED {
        if ranked == id {
            return Some(DocKey {
                rank: Rank(rank),
                id: EntityId::new(id)?,
            });
        }
    }
    None
}

fn list(alloc: Global, ids: &[u64]) -> Result<OrCursor<OneKey>, Fail> {
    let mut operands = Vec::new(alloc);
    for id in ids {
        operands.push(OneKey(key(*id)))?;
    }
    Ok(OrCursor::new(operands))
}

fn pair(alloc: Global, a: &[u64], b: &[u64]) -> Result<Vec<OrCursor<OneKey>>, Fail> {
    let mut operands = Vec::new(alloc);
    operands.push(list(alloc, a)?)?;
    operands.push(list(alloc, b)?)?;
    Ok(operands)
}

fn weak(
    alloc: Global,
    a: &[u64],
    first: WeakMark,
    b: &[u64],
    second: WeakMark,
) -> Result<WeakAndCursor<OrCursor<OneKey>>, Fail> {
    let mut operands = Vec::new(alloc);
    operands.push((list(alloc, a)?, first))?;
    operands.push((list(alloc, b)?, second))?;
    Ok(WeakAndCursor::new(alloc, operands)?)
}

// The keys that a cursor has from a key on, or from its first on.
fn keys<C: DocCursor>(
    alloc: Global,
    cursor: &mut C,
    from: Option<DocKey>,
) -> Result<Vec<u64>, Fail> {
    let mut ids = Vec::new(alloc);
    if let Some(key) = from {
        cursor.seek(key);
    }
    for _ in 0..RANKED.len() {
        if let Some(key) = cursor.peek() {
            ids.push(key.id.get())?;
            cursor.step();
        }
    }
    Ok(ids)
}

fn answer(
    alloc: Global,
    question: Question,
    a: &[u64],
    b: &[u64],
    from: Option<DocKey>,
) -> Result<Vec<u64>, Fail> {
    match question {
        Question::And => keys(alloc, &mut AndCursor::new(pair(alloc, a, b)?), from),
        Question::Or => keys(alloc, &mut OrCursor::new(pair(alloc, a, b)?), from),
        Question::Difference => {
            let mut cursor = DifferenceCursor::new(list(alloc, a)?, list(alloc, b)?);
            keys(alloc, &mut cursor, from)
        }
        Question::Weak(first, second) => keys(alloc, &mut weak(alloc, a, first, b, second)?, from),
        Question::Strong(first, second) => {
            let mut operands = Vec::new(alloc);
            operands.push((list(alloc, a)?, first))?;
            operands.push((list(alloc, b)?, second))?;
            keys(alloc, &mut StrongOrCursor::new(alloc, operands)?, from)
        }
    }
}

// Those of some ids that do not come before one in rank order.
fn ids_from(alloc: Global, ids: &[u64], from: u64) -> Result<Vec<u64>, Fail> {
    let mut late = false;
    let mut rest = Vec::new(alloc);
    for (id, _) in RANKED {
        late = late || id == from;
        if late && ids.contains(&id) {
            rest.push(id)?;
        }
    }
    Ok(rest)
}

// A question whose second list has no mark.
fn hits(left: u32) -> Question {
    Question::Weak(WeakMark::Hits(left), WeakMark::Hits(0))
}

fn share(n: u32, d: u32) -> Question
    requires { (1 ≤ n) × (n ≤ d) × (d ≤ 1000) }
{
    Question::Weak(WeakMark::Weight(Fraction { n, d }), WeakMark::Hits(0))
}

fn floor(n: u32, d: u32) -> Question
    requires { (1 ≤ n) × (n ≤ d) × (d ≤ 1000) }
{
    Question::Strong(Some(Fraction { n, d }), None)
}

#[test]
fn questions_have_these_keys_from_each_key_on(rt: HostRuntime) -> Result<(), Fail> {
    let none: &[u64] = &[];
    let cases: [(Question, &[u64], &[u64], &[u64]); 28] = [
        (Question::And, &FRIENDS, &ROMANS, &[2, 5]),
        (Question::And, &FRIENDS, none, none),
        (Question::And, &FRIENDS, &FRIENDS, &FRIENDS),
        (Question::And, &[2, 3], &[6, 4], none),
        (Question::Difference, &FRIENDS, &ROMANS, &[3]),
        (Question::Difference, &FRIENDS, &FRIENDS, none),
        (Question::Or, &FRIENDS, &ROMANS, &[2, 3, 5, 6, 4]),
        (Question::Or, none, none, none),
        (Question::Or, &[1], &[4], &[1, 4]),
        // all friends may lack one hit, in one shard and in two
        (hits(1), &FRIENDS, &ROMANS, &[2, 5, 6]),
        (hits(1), &[2], &[2, 6, 4], &[2, 6]),
        (hits(1), &[3, 5], &[5], &[5]),
        // one friend fewer
        (hits(1), &[2, 3], &ROMANS, &[2, 5]),
        (hits(1), &[3], &[5], &[5]),
        (hits(1), none, none, none),
        (hits(0), &FRIENDS, &ROMANS, &[2, 5]),
        // friends are a half, two thirds or all of the hits
        (share(1, 2), &[2], &[2, 6, 4], &[2, 6, 4]),
        (share(1, 2), &[3, 5], &[5], &[5]),
        (share(2, 3), &[2], &[2, 6, 4], &[2, 6]),
        (share(2, 3), &[3, 5], &[5], &[5]),
        (share(1, 1), &[2], &[2, 6, 4], &[2]),
        (share(1, 1), &[3, 5], &[5], &[5]),
        // half of the hits live in Rome, also where one more friend follows the third
        (floor(1, 2), &ROMANS, &FRIENDS, &[2, 3, 5, 6, 4]),
        (floor(1, 2), &[2, 6, 4], &[2], &[2, 6, 4]),
        (floor(1, 2), &[5], &[3, 7, 5], &[3, 5]),
        (floor(1, 2), &[6, 4], &[3, 5, 6], &[3, 6, 4]),
        (floor(1, 1), &[6, 4], &FRIENDS, &[6, 4]),
        (
            Question::Strong(None, None),
            &FRIENDS,
            &ROMANS,
            &[2, 3, 5, 6, 4],
        ),
    ];
    for (question, a, b, want) in cases {
        let all = answer(rt.alloc(), question, a, b, None)?;
        assert_eq!(rt; all.as_slice(), want);
        for (id, _) in RANKED {
            let late = answer(rt.alloc(), question, a, b, key(id))?;
            assert_eq!(rt; late.as_slice(), ids_from(rt.alloc(), want, id)?.as_slice());
        }
    }
    Ok(())
}

// What all friends but one and all Romans are, and who lives in Oslo.
fn nested(alloc: Global) -> Result<Vec<WeakAndCursor<OrCursor<OneKey>>>, Fail>
    ensures { IfOk result (λ operands. vec_len operands ≡ 2) }
{
    let mut operands = Vec::new(alloc);
    operands.push(weak(
        alloc,
        &FRIENDS,
        WeakMark::Hits(1),
        &ROMANS,
        WeakMark::Hits(0),
    )?)?;
    operands.push(weak(alloc, &[4], WeakMark::Hits(0), &[4], WeakMark::Hits(0))?)?;
    Ok(operands)
}

// A count is spent by what the inner cursor passes, whatever the outer one leaves out.
#[test]
fn cursors_of_one_type_nest(rt: HostRuntime) -> Result<(), Fail> {
    let alloc = rt.alloc();
    let cursor = OrCursor::new(nested(alloc)?);
    assert!(rt; cursor.matches(0) && !cursor.matches(1));
    assert_eq!(rt; cursor.operand(0).peek(), key(2));
    let either: &[u64] = &[2, 5, 6, 4];
    let both: &[u64] = &[];
    for (id, _) in RANKED {
        let any = keys(alloc, &mut OrCursor::new(nested(alloc)?), key(id))?;
        assert_eq!(rt; any.as_slice(), ids_from(alloc, either, id)?.as_slice());
        let all = keys(alloc, &mut AndCursor::new(nested(alloc)?), key(id))?;
        assert_eq!(rt; all.as_slice(), both);
    }
    Ok(())
}
