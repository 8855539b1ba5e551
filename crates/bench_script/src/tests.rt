use crate::bench_script;
use std::test::Fail;

// The first round of two people under seed 1, worked out by hand.
const FIRST_ROUND: &[u8] = b"unicorn 1\n\
vertical user 4 2\n\
type friend user user both index\n\
type lives word user target index\n\
begin\n\
entity user 1 807\n\
entity user 2 249\n\
edge friend 1 2 public\n\
edge friend 1 1 public\n\
edge friend 1 1 public\n\
edge friend 1 1 public\n\
edge lives c4 1 public\n\
edge friend 2 2 public\n\
edge friend 2 2 public\n\
edge friend 2 1 public\n\
edge friend 2 2 public\n\
edge lives c2 2 public\n\
publish\n\
go\n";

// A number that tells texts apart.
fn digest(text: &[u8]) -> u32 {
    let mut digest: u32 = 0;
    for byte in text {
        digest = digest.wrapping_mul(31).wrapping_add(*byte as u32);
    }
    digest
}

#[test]
fn scripts_of_some_seeds(rt: HostRuntime) -> Result<(), Fail> {
    let alloc = rt.alloc();
    let text = bench_script(alloc, 1, 2)?;
    assert!(rt; text.as_slice().starts_with(FIRST_ROUND));
    for (seed, people, length, mark) in [
        (1, 2, 4616, 3483215425),
        (2_147_483_646, 3, 4761, 1071869839),
        (1, 1000, 175401, 3146547189),
        (7, 20, 7443, 2567891220),
    ] {
        let text = bench_script(alloc, seed, people)?;
        assert_eq!(rt; text.len(), length);
        assert_eq!(rt; digest(text.as_slice()), mark);
    }
    Ok(())
}
