// Random questions, whose answers are worked out plainly from the list of what is kept.
use super::{Question, RANKED, answer, ids_from, key};
use crate::{Fraction, WeakMark};
use std::alloc::Global;
use std::test::Fail;

// The next of a sequence of pseudo-random numbers, by a linear congruential generator.
fn draw(state: &mut u64) -> u64 {
    *state = state
        .wrapping_mul(6364136223846793005)
        .wrapping_add(1442695040888963407);
    *state >> 33
}

fn some_ids(alloc: Global, state: &mut u64) -> Result<Vec<u64>, Fail> {
    let mut ids = Vec::new(alloc);
    for (id, _) in RANKED {
        if draw(state) % 2 == 0 {
            ids.push(id)?;
        }
    }
    Ok(ids)
}

fn fraction(state: &mut u64) -> Fraction {
    match draw(state) % 4 {
        0 => Fraction { n: 1, d: 3 },
        1 => Fraction { n: 1, d: 2 },
        2 => Fraction { n: 2, d: 3 },
        _ => Fraction { n: 1, d: 1 },
    }
}

fn mark(state: &mut u64) -> WeakMark {
    match draw(state) % 4 {
        0 => WeakMark::Hits(0),
        1 => WeakMark::Hits(1),
        2 => WeakMark::Hits(2),
        _ => WeakMark::Weight(fraction(state)),
    }
}

fn weight(state: &mut u64) -> Option<Fraction> {
    if draw(state) % 3 == 0 {
        None
    } else {
        Some(fraction(state))
    }
}

fn question(state: &mut u64) -> Question {
    match draw(state) % 7 {
        0 => Question::And,
        1 => Question::Or,
        2 => Question::Difference,
        3 | 4 => Question::Weak(mark(state), mark(state)),
        _ => Question::Strong(weight(state), weight(state)),
    }
}

// How many of the kept ids a list has.
fn own(kept: &[u64], ids: &[u64]) -> u64 {
    let mut own: u64 = 0;
    for id in kept {
        if ids.contains(id) {
            own = own.saturating_add(1);
        }
    }
    own
}

// How many of them it lacks.
fn lacks(kept: &[u64], ids: &[u64]) -> u64 {
    (kept.len() as u64).saturating_sub(own(kept, ids))
}

// Whether those that it has are a share of them, rounded down.
fn has_share(kept: &[u64], ids: &[u64], share: Fraction) -> bool {
    let whole = (kept.len() as u64).saturating_mul(u64::from(share.n));
    whole < (own(kept, ids).saturating_add(1)).saturating_mul(u64::from(share.d))
}

fn allows_weakly(kept: &[u64], ids: &[u64], mark: WeakMark) -> bool {
    match mark {
        WeakMark::Hits(left) => lacks(kept, ids) <= u64::from(left),
        WeakMark::Weight(share) => has_share(kept, ids, share),
    }
}

fn allows_strongly(kept: &[u64], ids: &[u64], weight: Option<Fraction>) -> bool {
    match weight {
        Some(share) => has_share(kept, ids, share),
        None => true,
    }
}

// Whether the kept ids are such as is asked.
fn allows(question: Question, kept: &[u64], a: &[u64], b: &[u64]) -> bool {
    match question {
        Question::And => lacks(kept, a) == 0 && lacks(kept, b) == 0,
        Question::Or => true,
        Question::Difference => lacks(kept, a) == 0 && own(kept, b) == 0,
        Question::Weak(first, second) => {
            allows_weakly(kept, a, first) && allows_weakly(kept, b, second)
        }
        Question::Strong(first, second) => {
            allows_strongly(kept, a, first) && allows_strongly(kept, b, second)
        }
    }
}

// Along the entities in rank order, those that one list has and with which what is kept is such as is asked.
fn plain(alloc: Global, question: Question, a: &[u64], b: &[u64]) -> Result<Vec<u64>, Fail> {
    let mut kept = Vec::new(alloc);
    for (id, _) in RANKED {
        if a.contains(&id) || b.contains(&id) {
            kept.push(id)?;
            if !allows(question, kept.as_slice(), a, b) {
                kept.pop();
            }
        }
    }
    Ok(kept)
}

#[test]
fn random_questions_have_the_plain_answers(rt: HostRuntime) -> Result<(), Fail> {
    let alloc = rt.alloc();
    let mut state: u64 = 20;
    for _ in 0..300_u32 {
        let question = question(&mut state);
        let a = some_ids(alloc, &mut state)?;
        let b = some_ids(alloc, &mut state)?;
        let want = plain(alloc, question, a.as_slice(), b.as_slice())?;
        for (id, _) in RANKED {
            let late = answer(alloc, question, a.as_slice(), b.as_slice(), key(id))?;
            assert_eq!(rt;
                late.as_slice(),
                ids_from(alloc, want.as_slice(), id)?.as_slice()
            );
        }
    }
    Ok(())
}
