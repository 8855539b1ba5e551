//! How sessions are parted, and workers shared among queries: no clause says it.
use crate::AskList;
use crate::idle::{IdleWorkers, TwoParts};
use crate::sessions::{asks_of, middle, share_of};
use crate::tests::{read_asks, schema};
use std::alloc::Global;
use std::test::Fail;

// Sessions that ask so often.
fn asking(alloc: Global, counts: &[u8]) -> Option<Vec<AskList>> {
    let schema = schema(alloc)?;
    let mut lists = Vec::new(alloc);
    for count in counts {
        let text = match count {
            b'0' => b"".as_slice(),
            b'1' => b"1 9 friend:1",
            b'2' => b"1 9 friend:1|1 9 friend:1",
            _ => b"1 9 friend:1|1 9 friend:1|1 9 friend:1|1 9 friend:1|1 9 friend:1",
        };
        lists.push(read_asks(alloc, &schema, text)?).ok()?;
    }
    Some(lists)
}

// Numbers of asks, and how many sessions are in front.
const PARTED: [(&[u8], usize); 8] = [
    (b"11", 1),
    (b"1111", 2),
    (b"0501", 2),
    (b"1005", 3),
    (b"5001", 1),
    (b"0011", 3),
    (b"22122", 2),
    (b"1150", 2),
];

// How many are in front of the middle.
fn half(lists: &[AskList]) -> Option<usize> {
    if lists.len() < 2 {
        return None;
    }
    Some(middle(lists, asks_of(lists) / 2))
}

#[test]
fn parts_of_sessions(rt: HostRuntime) -> Result<(), Fail> {
    for (counts, front) in PARTED {
        let lists = asking(rt.alloc(), counts).ok_or("no asks")?;
        assert_eq!(rt; half(lists.as_slice()), Some(front));
    }
    Ok(())
}

#[test]
fn workers_of_queries(rt: HostRuntime) -> Result<(), Fail> {
    assert_eq!(rt; share_of(64, 3), 21);
    assert_eq!(rt; share_of(4, 4), 1);
    assert_eq!(rt; share_of(2, 3), 1);
    assert_eq!(rt; share_of(7, 0), 7);
    assert_eq!(rt; share_of(7, usize::MAX), 1);
    Ok(())
}

#[test]
fn idle_workers(rt: HostRuntime) {
    let idle = IdleWorkers::new(1);
    assert!(rt; idle.take());
    assert!(rt; !idle.take());
    let parts = TwoParts::new();
    idle.end(&parts);
    idle.end(&parts);
    assert!(rt; idle.take());
    assert!(rt; !idle.take());
}
