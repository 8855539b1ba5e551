//! What the second format adds: weights in a weak-and, a larger limit, edges that end, and prefix
//! terms.
use super::{FIRST, SECOND, are_answered};
use std::test::Fail;
use uni_base::Limits;

const WEIGHTS: &[u8] = b"\
    ask 9 1 10 (weak-and (term friend:1 :optional-weight 1/2) lives:rome)|=\
    reply 33 at 1 hits 4|hit 2 via friend:1>2 lives:rome>2|hit 5 via friend:1>5 lives:rome>5|\
    hit 6 via lives:rome>6|hit 4 via lives:rome>4|;\
    ask 9 1 10 (weak-and (term friend:1 :optional-weight 2/3) lives:rome)|=\
    reply 33 at 1 hits 3|hit 2 via friend:1>2 lives:rome>2|hit 5 via friend:1>5 lives:rome>5|\
    hit 6 via lives:rome>6|;\
    ask 9 1 10 (weak-and (term friend:1 :optional-weight 1/1) lives:rome)|=\
    reply 33 at 1 hits 2|hit 2 via friend:1>2 lives:rome>2|hit 5 via friend:1>5 lives:rome>5|;\
    ask 9 1 50000 friend:1|=\
    reply 33 at 1 hits 3|hit 2 via friend:1>2|hit 3 via friend:1>3|hit 5 via friend:1>5|;\
    ask 9 1 50001 friend:1|=error 33 63|";

// An edge with an end to come, one whose end is its own publish, and one that gets an end.
const ENDS: &[u8] = b"\
    edge friend 1 4 public until 3|publish|go|ask 9 1 10 friend:1|go|\
    publish|go|ask 9 1 10 friend:1|=\
    published 34 2|\
    reply 36 at 2 hits 4|hit 2 via friend:1>2|hit 3 via friend:1>3|hit 5 via friend:1>5|\
    hit 4 via friend:1>4|\
    published 38 3|\
    reply 40 at 3 hits 3|hit 2 via friend:1>2|hit 3 via friend:1>3|hit 5 via friend:1>5|;\
    edge friend 1 4 public until 2|publish|go|ask 9 1 10 friend:1|go|\
    publish|go|ask 9 1 10 friend:1|=\
    published 34 2|\
    reply 36 at 2 hits 3|hit 2 via friend:1>2|hit 3 via friend:1>3|hit 5 via friend:1>5|\
    published 38 3|\
    reply 40 at 3 hits 3|hit 2 via friend:1>2|hit 3 via friend:1>3|hit 5 via friend:1>5|;\
    edge friend 1 2 public until 2|publish|go|ask 9 1 10 friend:1|go|\
    publish|go|ask 9 1 10 friend:1|=\
    published 34 2|reply 36 at 2 hits 2|hit 3 via friend:1>3|hit 5 via friend:1>5|\
    published 38 3|reply 40 at 3 hits 2|hit 3 via friend:1>3|hit 5 via friend:1>5|;\
    edge friend 1 4 public until 0|edge friend 1 4 public until 1048577|=\
    refused 33 11|refused 34 11|";

// All towns that begin so. Where the edge of the first town is hidden, that of the second is shown.
const PREFIXES: &[u8] = b"\
    edge lives roma 3 public|edge lives roma 2 public|publish|go|ask 9 1 10 lives:rom*|=\
    published 35 2|reply 37 at 2 hits 5|hit 2 via lives:roma>2|hit 3 via lives:roma>3|\
    hit 5 via lives:rome>5|hit 6 via lives:rome>6|hit 4 via lives:rome>4|;\
    edge lives roma 3 public|edge lives roma 2 only|publish|go|ask 9 1 10 lives:rom*|=\
    published 35 2|reply 37 at 2 hits 5|hit 2 via lives:rome>2|hit 3 via lives:roma>3|\
    hit 5 via lives:rome>5|hit 6 via lives:rome>6|hit 4 via lives:rome>4|;\
    ask 9 1 10 friend:1*|=error 33 42 1|;\
    ask 9 1 10 lives:*|=error 33 31 1|;\
    ask 9 1 10 lives:os*|=reply 33 at 1 hits 0|";

// The first format has none of this.
const REFUSED: &[u8] = b"\
    ask 9 1 10 (weak-and (term friend:1 :optional-weight 1/2) lives:rome)|=error 33 36 26|;\
    ask 9 1 5001 friend:1|=error 33 63|;\
    edge friend 1 4 public until 3|=refused 33 11|;\
    ask 9 1 10 lives:rom*|=error 33 31 1|";

#[test]
fn the_second_format(rt: HostRuntime) -> Result<(), Fail> {
    are_answered(&rt, rt.alloc(), Limits::standard(), SECOND, WEIGHTS)?;
    are_answered(&rt, rt.alloc(), Limits::standard(), SECOND, ENDS)?;
    are_answered(&rt, rt.alloc(), Limits::standard(), SECOND, PREFIXES)?;
    are_answered(&rt, rt.alloc(), Limits::standard(), FIRST, REFUSED)
}
