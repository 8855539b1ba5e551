use crate::fork_both;
use std::sync::atomic::{AtomicU64, Ordering};
use std::test::Fail;

#[test]
fn both_are_called(rt: HostRuntime) -> Result<(), Fail> {
    let calls = AtomicU64::new(0);
    let mut first = 0_u64;
    let mut second = 0_u64;
    let (one, other) = fork_both(
        &rt,
        &mut || -> u64 {
            first = 7;
            calls.fetch_add(1, Ordering::SeqCst)
        },
        &mut || -> bool {
            second = 9;
            calls.fetch_add(1, Ordering::SeqCst) < 2
        },
    );
    assert_eq!(rt; first, 7);
    assert_eq!(rt; second, 9);
    assert!(rt; one < 2);
    assert!(rt; other);
    assert_eq!(rt; calls.load(Ordering::SeqCst), 2);
    Ok(())
}
