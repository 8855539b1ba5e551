use crate::{SharedLayers, last_words};
use std::sync::Arc;
use std::test::Fail;

#[test]
fn the_last_word_on_each_key_counts(rt: HostRuntime) -> Result<(), Fail> {
    let mut log = Vec::new(rt.alloc());
    for (key, value) in [(3u32, 'a'), (1, 'b'), (3, 'c'), (2, 'd'), (1, 'e')] {
        log.push((key, value))?;
    }
    let rows = last_words(log)?;
    assert_eq!(rt; rows.as_slice(), [(1, 'e'), (2, 'd'), (3, 'c')].as_slice());
    Ok(())
}

// A stack grows by one layer 200 times, and each earlier one stays as it was.
#[test]
fn a_stack_grows_and_its_ancestors_stay(rt: HostRuntime) -> Result<(), Fail> {
    let mut stacks = Vec::new(rt.alloc());
    let mut newest = SharedLayers::of(rt.alloc(), Arc::new(rt.alloc(), 0u64)?)?;
    for n in 1..200 {
        let mut next = newest.roomy(1)?;
        next.push_reserved(Arc::new(rt.alloc(), n)?);
        stacks.push(newest)?;
        newest = next;
    }
    stacks.push(newest)?;
    for (n, stack) in stacks.iter().enumerate() {
        assert_eq!(rt; stack.layers(), n + 1, "of {n}");
        for i in 0..stack.layers() {
            assert_eq!(rt; **stack.layer(i), i as u64, "layer {i} of {n}");
        }
    }
    Ok(())
}
