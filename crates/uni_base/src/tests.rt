use crate::{
    Failed, MemorySink, MemorySource, Rows, Sink, Source, StdSink, StdSource, SureSink, SureSource,
    Text,
};
use std::alloc::Global;
use std::io::{Error, ErrorKind, Read, Write};
use std::test::Fail;

fn text(alloc: Global, bytes: &[u8]) -> Result<Text, Fail> {
    let mut text = Rows::new(alloc);
    for byte in bytes {
        text.push(*byte)?;
    }
    Ok(text)
}

// What a read into two bytes gives: the bytes, or None where it fails.
fn read_two<S: Source>(source: &mut S) -> Option<(usize, [u8; 2])> {
    let mut buffer = [b'-'; 2];
    let n = source.read(&mut buffer).ok()?;
    Some((n, buffer))
}

#[test]
fn pieces_are_read_one_at_a_time(rt: HostRuntime) -> Result<(), Fail> {
    let mut pieces = Vec::new(rt.alloc());
    for piece in ["ab", "", "", "cde", "f", ""] {
        pieces.push(text(rt.alloc(), piece.as_bytes())?)?;
    }
    let mut source = MemorySource::new(pieces, vec![in rt.alloc(); 2, 5]?);
    let want = [
        Some((2, *b"ab")),
        None,
        Some((2, *b"cd")),
        Some((1, *b"e-")),
        None,
        Some((1, *b"f-")),
        Some((0, *b"--")),
    ];
    for (call, expected) in want.iter().enumerate() {
        assert_eq!(rt; read_two(&mut source), *expected, "at {call}");
    }
    assert_eq!(rt; source.faults(), 2);
    Ok(())
}

#[test]
fn a_memory_sink_takes_what_it_has_room_for(rt: HostRuntime) -> Result<(), Fail> {
    let mut sink = MemorySink::new(rt.alloc(), 5, 3, vec![in rt.alloc(); 2]?)?;
    let want = [
        ("abcd", Ok(3)),
        ("d", Err(Failed)),
        ("", Ok(0)),
        ("defg", Ok(2)),
        ("f", Err(Failed)),
        ("", Ok(0)),
    ];
    for (piece, expected) in want {
        assert_eq!(rt; sink.write(piece.as_bytes()), expected, "at {piece}");
    }
    assert_eq!(rt; sink.bytes(), b"abcde".as_slice());
    assert_eq!(rt; sink.faults(), 2);
    Ok(())
}

#[test]
fn sure_streams_never_fail(rt: HostRuntime) -> Result<(), Fail> {
    let mut source = SureSource::new(text(rt.alloc(), b"abc")?);
    assert_eq!(rt; read_two(&mut source), Some((2, *b"ab")));
    assert_eq!(rt; read_two(&mut source), Some((1, *b"c-")));
    assert_eq!(rt; read_two(&mut source), Some((0, *b"--")));
    let mut sink = SureSink::new();
    assert_eq!(rt; sink.write(b"abc"), Ok(3));
    assert_eq!(rt; sink.write(b""), Ok(0));
    assert_eq!(rt; sink.count(), 3);
    Ok(())
}

// A reader whose every second read is an error, and a writer that takes one byte, none, and then
// is in error.
#[derive(Drop)]
struct Faulty {
    calls: u64,
}

impl Read for Faulty {
    fn read(&mut self, into: &mut [u8]) -> std::io::Result<usize> {
        self.calls = self.calls.saturating_add(1);
        if self.calls % 2 == 0 || into.is_empty() {
            return Err(Error::new(ErrorKind::Interrupted, "no byte"));
        }
        into[0] = b'x';
        Ok(1)
    }
}

impl Write for Faulty {
    fn write(&mut self, from: &[u8]) -> std::io::Result<usize> {
        self.calls = self.calls.saturating_add(1);
        match self.calls {
            1 => Ok(from.len().min(1)),
            2 => Ok(0),
            _ => Err(Error::new(ErrorKind::Other, "no room")),
        }
    }

    fn flush(&mut self) -> std::io::Result<()> {
        Ok(())
    }
}

#[test]
fn a_reader_is_a_source(rt: HostRuntime) {
    let mut source = StdSource::new(b"abc".as_slice());
    assert_eq!(rt; read_two(&mut source), Some((2, *b"ab")));
    assert_eq!(rt; read_two(&mut source), Some((1, *b"c-")));
    assert_eq!(rt; read_two(&mut source), Some((0, *b"--")));
    assert_eq!(rt; source.faults(), 0);
    let mut faulty = StdSource::new(Faulty { calls: 0 });
    assert_eq!(rt; read_two(&mut faulty), Some((1, *b"x-")));
    assert_eq!(rt; read_two(&mut faulty), None);
    assert_eq!(rt; read_two(&mut faulty), Some((1, *b"x-")));
    assert_eq!(rt; faulty.faults(), 1);
}

#[test]
fn a_writer_is_a_sink(rt: HostRuntime) {
    let mut bytes = Vec::new(rt.alloc());
    {
        let mut sink = StdSink::new(&mut bytes);
        assert_eq!(rt; sink.write(b"abc"), Ok(3));
        assert_eq!(rt; sink.write(b""), Ok(0));
        assert_eq!(rt; sink.faults(), 0);
    }
    assert_eq!(rt; bytes.as_slice(), b"abc".as_slice());
    let mut faulty = StdSink::new(Faulty { calls: 0 });
    assert_eq!(rt; faulty.write(b"abc"), Ok(1));
    assert_eq!(rt; faulty.write(b"bc"), Err(Failed));
    assert_eq!(rt; faulty.write(b"bc"), Err(Failed));
    assert_eq!(rt; faulty.faults(), 2);
}
