//! Each operator over the graph, with its lineages.
use super::{FIRST, ONE_SHARD, are_answered};
use std::test::Fail;
use uni_base::Limits;

const SETS: &[u8] = b"\
    ask 9 1 10 friend:1|=\
    reply 33 at 1 hits 3|hit 2 via friend:1>2|hit 3 via friend:1>3|hit 5 via friend:1>5|;\
    ask 9 1 10 (and friend:1 lives:rome)|=\
    reply 33 at 1 hits 2|hit 2 via friend:1>2 lives:rome>2|hit 5 via friend:1>5 lives:rome>5|;\
    ask 9 1 10 (difference friend:1 lives:rome)|=\
    reply 33 at 1 hits 1|hit 3 via friend:1>3|;\
    ask 9 1 10 (or friend:1 lives:rome)|=\
    reply 33 at 1 hits 5|hit 2 via friend:1>2|hit 3 via friend:1>3|hit 5 via friend:1>5|\
    hit 6 via lives:rome>6|hit 4 via lives:rome>4|";

// The count is spent on 6, and 4 finds none left; an outer operator that discards 6 does not give
// it back.
// In shard 1, 7 follows 3 with two accepted and no match. Each shard has a count of its own.
const WALKS: &[u8] = b"\
    ask 9 1 10 (weak-and (term friend:1 :optional-hits 1) lives:rome)|=\
    reply 33 at 1 hits 3|hit 2 via friend:1>2 lives:rome>2|hit 5 via friend:1>5 lives:rome>5|\
    hit 6 via lives:rome>6|;\
    cut friend 1 5|publish|go|\
    ask 9 1 10 (weak-and (term friend:1 :optional-hits 1) lives:rome)|=\
    published 34 2|reply 36 at 2 hits 3|hit 2 via friend:1>2 lives:rome>2|hit 5 via lives:rome>5|\
    hit 6 via lives:rome>6|;\
    edge lives oslo 4 public|publish|go|\
    ask 9 1 10 (and (weak-and (term friend:1 :optional-hits 1) lives:rome) (or lives:oslo))|=\
    published 34 2|reply 36 at 2 hits 0|;\
    ask 9 1 10 (strong-or friend:1 (term lives:rome :optional-weight 1/2))|=\
    reply 33 at 1 hits 5|hit 2 via friend:1>2|hit 3 via friend:1>3|hit 5 via friend:1>5|\
    hit 6 via lives:rome>6|hit 4 via lives:rome>4|;\
    entity user 7 80|edge friend 1 7 public|publish|go|\
    ask 9 1 10 (strong-or friend:1 (term lives:rome :optional-weight 1/2))|=\
    published 35 2|reply 37 at 2 hits 5|hit 2 via friend:1>2|hit 3 via friend:1>3|\
    hit 5 via friend:1>5|hit 6 via lives:rome>6|hit 4 via lives:rome>4|";

const ONE_COUNT: &[u8] = b"\
    cut friend 1 5|publish|go|\
    ask 9 1 10 (weak-and (term friend:1 :optional-hits 1) lives:rome)|=\
    published 34 2|reply 36 at 2 hits 2|hit 2 via friend:1>2 lives:rome>2|hit 5 via lives:rome>5|";

const JOINS: &[u8] = b"\
    ask 9 1 10 (apply tagged: friend:1)|=\
    reply 33 at 1 hits 2|hit 102 via tagged:3>102 friend:1>3|hit 101 via tagged:2>101 friend:1>2|;\
    ask 9 1 10 (apply tagged: friend:1 :limit 1)|=\
    reply 33 at 1 hits 1|hit 101 via tagged:2>101 friend:1>2|;\
    ask 9 1 10 (extract shows: (apply tagged: friend:1))|=\
    reply 33 at 1 hits 2|hit 1 via shows:102>1 tagged:3>102 friend:1>3|\
    hit 4 via shows:102>4 tagged:3>102 friend:1>3|";

#[test]
fn each_operator(rt: HostRuntime) -> Result<(), Fail> {
    are_answered(&rt, rt.alloc(), Limits::standard(), FIRST, SETS)?;
    are_answered(&rt, rt.alloc(), Limits::standard(), FIRST, WALKS)?;
    are_answered(&rt, rt.alloc(), Limits::standard(), ONE_SHARD, ONE_COUNT)?;
    are_answered(&rt, rt.alloc(), Limits::standard(), FIRST, JOINS)
}
