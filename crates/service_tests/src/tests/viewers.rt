//! Who may see which edges.
use super::{FIRST, are_answered};
use std::test::Fail;
use uni_base::Limits;

// Where a joining edge is hidden, the next one is shown. What is hidden counts at the limit, and an
// owner sees it. Two edges that a viewer may see do not show a hit, unless they are of one lineage.
const HIDDEN: &[u8] = b"\
    edge tagged 3 102 only|publish|go|ask 9 1 10 (apply tagged: friend:1)|=\
    published 34 2|reply 36 at 2 hits 2|hit 102 via tagged:5>102 friend:1>5|\
    hit 101 via tagged:2>101 friend:1>2|;\
    edge tagged 3 102 only|edge tagged 5 102 only|publish|go|\
    ask 9 1 10 (apply tagged: friend:1)|\
    ask 9 1 1 (apply tagged: friend:1)|\
    ask 3 1 1 (apply tagged: friend:1)|=\
    published 35 2|reply 37 at 2 hits 1|hit 101 via tagged:2>101 friend:1>2|\
    reply 38 at 2 hits 0|\
    reply 39 at 2 hits 1|hit 102 via tagged:3>102 friend:1>3|;\
    edge tagged 3 102 only|edge friend 1 5 only|publish|go|\
    ask 9 1 10 (apply tagged: friend:1)|=\
    published 35 2|reply 37 at 2 hits 1|hit 101 via tagged:2>101 friend:1>2|";

// The friends of 5, or those who live in Rome, may see that 2 is a friend of 1. Then 3 blocks 9.
const CIRCLES: &[u8] = b"\
    edge friend 5 6 only|edge friend 1 2 in:friend:5|publish|go|\
    ask 6 1 10 friend:1|ask 9 1 10 friend:1|=\
    published 35 2|\
    reply 37 at 2 hits 3|hit 2 via friend:1>2|hit 3 via friend:1>3|hit 5 via friend:1>5|\
    reply 38 at 2 hits 2|hit 3 via friend:1>3|hit 5 via friend:1>5|;\
    edge friend 1 2 in:lives:rome|publish|go|ask 6 1 10 friend:1|ask 9 1 10 friend:1|=\
    published 34 2|\
    reply 36 at 2 hits 3|hit 2 via friend:1>2|hit 3 via friend:1>3|hit 5 via friend:1>5|\
    reply 37 at 2 hits 2|hit 3 via friend:1>3|hit 5 via friend:1>5|;\
    entity user 9 1|edge blocked 3 9 public|publish|go|\
    ask 9 1 10 friend:1|ask 1 2 10 friend:1|=\
    published 35 2|\
    reply 37 at 2 hits 2|hit 2 via friend:1>2|hit 5 via friend:1>5|\
    reply 38 at 2 hits 3|hit 2 via friend:1>2|hit 3 via friend:1>3|hit 5 via friend:1>5|";

#[test]
fn only_what_a_viewer_may_see(rt: HostRuntime) -> Result<(), Fail> {
    are_answered(&rt, rt.alloc(), Limits::standard(), FIRST, HIDDEN)?;
    are_answered(&rt, rt.alloc(), Limits::standard(), FIRST, CIRCLES)
}
