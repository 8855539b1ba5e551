//! Lines of every form, each alone in its script.
use super::{read, text, whole};
use std::alloc::Global;
use std::test::Fail;
use uni_base::{Limits, cut_at};

// People with friends, the towns where they live and whom they block; photos, with whom they were tagged
// by and whom they show. The line after it is the tenth.
const FIRST: &[u8] = b"unicorn 1|";

const SECOND: &[u8] = b"unicorn 2|";

const HEADER: &[u8] =
    b"vertical user 2 2|vertical photo 1 1|type friend user user both index|type lives word user target index|type tagged user photo source index|type shows photo user source forward|type blocked user user source index|begin|";

// Rows of a line and what it is in both formats, with a semicolon between any two. Changes are read
// whatever the table says of them, and 11 comes before 12.
const CHANGES: &[u8] =
    b"edge friend 1 99 public=change;edge friend 99 1 public=change;edge friend 1 2 in:shows:102=change;entity photo 1 5=change;edge friend rome 2 public=change;cut friend 1 99=change;gone 77=change;publish=publish;entity user 0 5=refused-11;edge frend 1 2 public=refused-12;edge frend 1 0 public=refused-11;edge friend 1 2 in:frend:1=refused-12;gone 01=refused-11;gone  1=refused-11; gone 1=refused-11;gone 1 =refused-11;gone 1\r=refused-11;gone\t1=refused-11;publish =refused-11;publ=refused-11; # no comment=refused-11;go =refused-11;Go=refused-11;stats=stats;stats =refused-11";

const COMPACTS: &[u8] =
    b"compact user 0 0=compact-0-0-0;compact user 1 1=compact-0-1-1;compact photo 0 0=compact-1-0-0;compact user 2 0=refused-12;compact user 0 2=refused-12;compact photo 0 1=refused-12;compact town 0 0=refused-12;compact user 99999999999999999999 0=refused-12;compact user 0 99999999999999999999=refused-12;compact user 999999999999999999999 0=refused-11;compact town 0 999999999999999999999=refused-11;compact user 00 0=refused-11;compact user 0  0=refused-11;compact 1user 0 0=refused-11;compact user 0=refused-11;compact user 0 0 0=refused-11;compact=refused-11";

// The parts of an `ask` come under their own codes, the first one first.
const ASKS: &[u8] =
    b"ask 9 1 10 friend:1=ask-9-1-10-0;ask 9 64 5000 tagged:1=ask-9-64-5000-1;ask 9 1 10  friend:1 =ask-9-1-10-0;ask=fault-61;ask =fault-61;asks=refused-11;ask  1 10 friend:1=fault-61;ask 0 1 10 friend:1=fault-61;ask 0 0 0 (=fault-61;ask 9=fault-62;ask 9 0 10 friend:1=fault-62;ask 9 65 10 friend:1=fault-62;ask 9 65 0 (=fault-62;ask 9 1=fault-63;ask 9 1 =fault-63;ask 9 1 0 friend:1=fault-63;ask 9 1 0 (=fault-63;ask 9 1 10=fault-32-1;ask 9 1 10 =fault-32-1;ask 18446744073709551616 1 10 friend:1=fault-61";

const QUERIES: &[u8] =
    b"ask 9 1 10 (and friend:1 Rome)=fault-31-15;ask 9 1 10 (and friend:1 rome)=fault-31-15;ask 9 1 10 (and friend:1=fault-32-14;ask 9 1 10 friend:1 friend:2=fault-33-10;ask 9 1 10 (frend 1)=fault-34-2;ask 9 1 10 ()=fault-34-2;ask 9 1 10 (and)=fault-35-5;ask 9 1 10 (difference friend:1)=fault-35-21;ask 9 1 10 (and (term friend:1 :optional-hits 1) lives:rome)=fault-36-21;ask 9 1 10 (apply tagged: friend:1 :limit 0)=fault-36-32;ask 9 1 10 frend:1=fault-41-1;ask 9 1 10 friend:rome=fault-42-1;ask 9 1 10 shows:102=fault-43-1;ask 9 1 10 (extract friend: friend:1)=fault-44-10;ask 9 1 10 (and friend:1 tagged:1)=fault-45-15;ask 9 1 10 (apply friend: tagged:2)=fault-46-8;ask 9 1 10 (apply friend: (apply friend: (apply friend: (apply friend: (apply friend: friend:1)))))=fault-47-61;ask 9 1 10 (and frend:1=fault-32-13;ask 9 1 10 (extract shows: (apply tagged: friend:1))=ask-9-1-10-0;ask 9 1 10 (apply tagged: friend:1)=ask-9-1-10-1";

// Rows of one format.
const FIRST_ALONE: &[u8] =
    b"edge friend 1 4 public until 3=refused-11;edge frend 1 4 public until 3=refused-11;ask 9 1 5001 friend:1=fault-63;ask 9 1 10 lives:ro*=fault-31-1";

const SECOND_ALONE: &[u8] =
    b"edge friend 1 4 public until 3=change;edge frend 1 4 public until 3=refused-12;edge friend 1 4 public until 0=refused-11;edge frend 1 4 public until 0=refused-11;edge friend 1 4 public until 1=change;edge friend 1 4 public until 1048576=change;edge friend 1 4 public until 1048577=refused-11;ask 9 1 5001 friend:1=ask-9-1-5001-0;ask 9 1 50000 friend:1=ask-9-1-50000-0;ask 9 1 50001 friend:1=fault-63;ask 9 1 10 lives:ro*=ask-9-1-10-0;ask 9 1 10 friend:1*=fault-42-1";

// Whether a line after a header, without an LF at its end, is what it is to be.
fn is_read(alloc: Global, first: &[u8], line: &[u8], want: &[u8]) -> Result<bool, Fail> {
    let script = text(alloc, &[first, HEADER, line])?;
    let mut source = whole(alloc, script)?;
    let shown = read(alloc, Limits::standard(), &mut source)?;
    let shown = shown.as_bytes();
    let shown = shown.strip_prefix(b"[ 10:").ok_or("no item")?;
    Ok(shown.strip_suffix(b"]") == Some(want))
}

// Fails at the number of the first row whose line is something else.
fn are_read(alloc: Global, first: &[u8], rows: &[u8]) -> Result<(), Fail> {
    for (number, row) in rows.split(|byte| *byte == b';').enumerate() {
        let (line, want) = cut_at(row, b'=').ok_or("no row")?;
        if !is_read(alloc, first, line, want)? {
            return Err(Fail::new(number));
        }
    }
    Ok(())
}

#[test]
fn each_form_is_one_thing(rt: HostRuntime) -> Result<(), Fail> {
    for rows in [CHANGES, COMPACTS, ASKS, QUERIES] {
        are_read(rt.alloc(), FIRST, rows)?;
        are_read(rt.alloc(), SECOND, rows)?;
    }
    are_read(rt.alloc(), FIRST, FIRST_ALONE)?;
    are_read(rt.alloc(), SECOND, SECOND_ALONE)
}
