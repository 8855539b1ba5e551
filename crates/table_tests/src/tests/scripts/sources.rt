//! Sources that give their bytes in pieces, and that fail.
use super::{read, text};
use script_rounds::Rounds;
use std::alloc::Global;
use std::test::Fail;
use uni_base::{Limits, MemorySource};

const SCRIPT: &str =
    "unicorn 1|vertical user 1 1|begin|entity user 1 2|go|# between|compact user 0 0|go|ask 9 1 10 x:1";

const ROUNDS: &str = "[ 4:change][ 7:compact-0-0-0][ 9:fault-41-1]";

// A source that gives the script in pieces of so many bytes, the read of a number failing.
fn pieces(alloc: Global, script: &str, size: usize, fails: u64) -> Result<MemorySource, Fail> {
    let mut pieces = Vec::new(alloc);
    let mut piece = text(alloc, &[])?;
    for byte in text(alloc, &[script.as_bytes()])?.as_slice() {
        piece.push(*byte)?;
        if piece.len() >= size {
            pieces.push(piece)?;
            piece = text(alloc, &[])?;
        }
    }
    pieces.push(piece)?;
    Ok(MemorySource::new(pieces, vec![in alloc; fails]?))
}

// What a script is read as in pieces of so many bytes, the read of a number failing.
fn shown(alloc: Global, script: &str, size: usize, fails: u64) -> Result<String, Fail> {
    let mut source = pieces(alloc, script, size, fails)?;
    read(alloc, Limits::standard(), &mut source)
}

// Whatever the pieces, the rounds are the same.
#[test]
fn pieces_of_any_size(rt: HostRuntime) -> Result<(), Fail> {
    for size in [1, 7, 100] {
        if shown(rt.alloc(), SCRIPT, size, 0)?.as_str() != ROUNDS {
            return Err(Fail::new(size));
        }
    }
    Ok(())
}

// What stands where a read fails: the rounds whose `go` was read. The LF of the first `go` is byte 53, that
// of the second byte 83; the script has 97.
fn before_the_fault(call: u64) -> &'static str {
    if call <= 53 {
        "fault"
    } else if call <= 83 {
        "[ 4:change]fault"
    } else {
        "[ 4:change][ 7:compact-0-0-0]fault"
    }
}

#[test]
fn each_read_may_fail(rt: HostRuntime) -> Result<(), Fail> {
    for call in 1..99 {
        if shown(rt.alloc(), SCRIPT, 1, call)?.as_str() != before_the_fault(call) {
            return Err(Fail::new(call));
        }
    }
    Ok(())
}

// Headers that are refused.
#[test]
fn refused_headers(rt: HostRuntime) -> Result<(), Fail> {
    for (script, want) in [
        ("", "short 1"),
        ("unicorn 1|vertical user 1 1", "short 3"),
        ("unicorn 1|", "short 2"),
        ("unicorn 3|begin|", "bad 1"),
        ("unicorn 1|begin now|begin|", "bad 2"),
        ("unicorn 1|begin", ""),
    ] {
        for size in [1, 1000] {
            if shown(rt.alloc(), script, size, 0)?.as_str() != want {
                return Err(Fail::new(want));
            }
        }
    }
    Ok(())
}

// The lines that were read so far.
#[test]
fn lines_are_counted(rt: HostRuntime) -> Result<(), Fail> {
    let mut source = pieces(rt.alloc(), SCRIPT, 10, 0)?;
    let Ok((mut rounds, _)) = Rounds::open(rt.alloc(), Limits::standard(), &mut source) else {
        return Err("not opened")?;
    };
    for want in [3, 5, 8, 9] {
        if rounds.lines() != want || rounds.next(&mut source).is_err() {
            return Err(Fail::new(want));
        }
    }
    Ok(())
}
