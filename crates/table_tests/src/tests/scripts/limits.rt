//! The limits of a line, of a round and of a script.
ghost use Rattle.std.specs.Prelude.{◌≤◌};
ghost use Rattle.uni_base.specs.StandardLimits.{IsWithinStandard};

use super::{read, text, whole};
use std::alloc::Global;
use std::test::Fail;
use uni_base::{Limits, Text, cut_at, read_between};

const HEADER: &[u8] = b"unicorn 1|vertical user 1 1|begin|";

// Rows of the limits of a line and of a round, the lines after the header, and what the script is read as,
// with a semicolon between any two.
const ROUNDS: &[u8] =
    b"40 9 =;40 9 go|=[];40 9 go=[];40 9 go|go|=[][];40 9 |=[];40 9 # at the end=[];40 9 publish|go|stats=[ 4:publish][ 6:stats];40 9 publish||# between|stats|go|go |=[ 4:publish 7:stats][ 9:refused-11]";

const LIMITS: &[u8] =
    b"20 9 publish x12345678901|=[ 4:refused-11];20 9 publish x123456789012|=[ 4:fault-64];20 9 ask x1234567890123456|stats=[ 4:fault-64 5:stats];20 9 # a comment that is longer than a line may be|publish|=[ 5:publish];40 2 stats|stats|stats|stats|go|stats|=[ 4:stats 5:stats 6:fault-65][ 9:stats];40 2 stats|# one|stats||ask|ask|nothing|go|publish|=[ 4:stats 6:stats 8:fault-65][ 12:publish];20 1 stats|publish x123456789012|publish x123456789012|stats|go|publish|=[ 4:stats 5:fault-64][ 9:publish];40 0 stats|stats|=[ 4:fault-65];40 1 stats|stats|# after|go |go|=[ 4:stats 5:fault-65];18 9 ||stats|=[ 6:stats];40 9 ask 9 3 1 x:1=[ 4:fault-62];40 9 ask 9 2 8 x:1=[ 4:fault-63];40 9 ask 9 2 7 x:1=[ 4:fault-41-1]";

// What lines after the header are read as under some limits.
fn shown(alloc: Global, limits: Limits, lines: &[u8]) -> Result<String, Fail>
    requires { IsWithinStandard limits }
{
    let script = text(alloc, &[HEADER, lines])?;
    let mut source = whole(alloc, script)?;
    read(alloc, limits, &mut source)
}

// Whether the lines of a row are read under its limits as it says.
fn is_read(alloc: Global, row: &[u8]) -> Result<bool, Fail> {
    let (given, want) = cut_at(row, b'=').ok_or("no row")?;
    let (line, given) = cut_at(given, b' ').ok_or("no limit of a line")?;
    let (round, lines) = cut_at(given, b' ').ok_or("no limit of a round")?;
    let mut limits = Limits::standard();
    limits.line = read_between(line, 0, 65_536).ok_or("no limit of a line")?;
    limits.round = read_between(round, 0, 1_000_000).ok_or("no limit of a round")?;
    limits.sessions = 2;
    limits.ask_limit = 7;
    let shown = shown(alloc, limits, lines)?;
    Ok(shown.as_bytes() == want)
}

// Fails at the number of the first row that is read otherwise.
fn are_read(alloc: Global, rows: &[u8]) -> Result<(), Fail> {
    for (number, row) in rows.split(|byte| *byte == b';').enumerate() {
        if !is_read(alloc, row)? {
            return Err(Fail::new(number));
        }
    }
    Ok(())
}

#[test]
fn lines_and_rounds_have_limits(rt: HostRuntime) -> Result<(), Fail> {
    are_read(rt.alloc(), ROUNDS)?;
    are_read(rt.alloc(), LIMITS)
}

// Whether a script of 48 bytes is read so under a limit of its bytes. The LF of its `go` is byte 43.
fn is_read_to(alloc: Global, bytes: u64, want: &str) -> Result<bool, Fail>
    requires { bytes ≤ 48 }
{
    let mut limits = Limits::standard();
    limits.script = bytes;
    let shown = shown(alloc, limits, b"stats|go|stats")?;
    Ok(shown.as_str() == want)
}

#[test]
fn a_script_has_a_limit(rt: HostRuntime) -> Result<(), Fail> {
    for (bytes, want) in [
        (48, "[ 4:stats][ 6:stats]"),
        (47, "[ 4:stats]long 48"),
        (43, "[ 4:stats]long 44"),
        (42, "long 43"),
        (41, "long 42"),
        (34, "long 35"),
        (33, "long 34"),
        (0, "long 1"),
    ] {
        if !is_read_to(rt.alloc(), bytes, want)? {
            return Err(Fail::new(bytes));
        }
    }
    Ok(())
}

// A script with a line of many bytes between two others.
fn with_line(alloc: Global, front: &str, fill: u8, bytes: u32, end: &str) -> Result<Text, Fail> {
    let mut script = text(alloc, &[HEADER, b"stats|", front.as_bytes()])?;
    for _ in 0..bytes {
        script.push(fill)?;
    }
    script.extend_from_slice(end.as_bytes())?;
    script.extend_from_slice(b"\nstats\n")?;
    Ok(script)
}

// What it is read as.
fn shown_with(alloc: Global, front: &str, fill: u8, bytes: u32, end: &str) -> Result<String, Fail> {
    let script = with_line(alloc, front, fill, bytes, end)?;
    let mut source = whole(alloc, script)?;
    read(alloc, Limits::standard(), &mut source)
}

// Lines that are far too long, a comment, and a query with a column above 60,000.
#[test]
fn long_lines(rt: HostRuntime) -> Result<(), Fail> {
    for (front, fill, bytes, end, want) in [
        ("x", b'x', 65_535, "", "[ 4:stats 5:refused-11 6:stats]"),
        ("x", b'x', 65_536, "", "[ 4:stats 5:fault-64 6:stats]"),
        ("x", b'x', 1_000_000, "", "[ 4:stats 5:fault-64 6:stats]"),
        ("go", b'o', 200_000, "", "[ 4:stats 5:fault-64 6:stats]"),
        ("#", b'#', 1_000_000, "", "[ 4:stats 6:stats]"),
        (
            "ask 9 1 7 ",
            b' ',
            60_000,
            "Rome",
            "[ 4:stats 5:fault-31-60001 6:stats]",
        ),
    ] {
        let shown = shown_with(rt.alloc(), front, fill, bytes, end)?;
        if shown.as_str() != want {
            return Err(Fail::new(bytes));
        }
    }
    Ok(())
}
