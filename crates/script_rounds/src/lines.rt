ghost use Rattle.std.specs.Prelude.{ℕ, ◌≡◌, ◌==◌, ◌<◌, ◌≤◌, ◌+◌, ◌⊎◌, ◌^◌, true, false, None, Some, [], ◌∷◌, length, vec_len, take, drop, slice_get, max, MatchOption, IfOk, IfErr, OnOk, OnErr};
ghost use Rattle.std.specs.List.{list_any};
ghost use Rattle.uni_base.specs.Streams.{Rose};
ghost use Rattle.uni_base.specs.StandardLimits.{IsWithinStandard};
ghost use Rattle.uni_base.specs.Lines.{has_lf};
ghost use Rattle.script_rounds.specs.Reading.{at, Went, IsFront, IsSpent, IsPast, Stopped, StopsBy, FaultsFit, ReadsOnce};

use memchr::memchr;
use std::alloc::{AllocError, Global};
use std::marker::Model;
use uni_base::{Limits, Source};

/// Why the reading of a script ended before its end.
#[derive(Clone, Copy, Debug, PartialEq, Eq)]
pub enum ScriptRefusal {
    /// A read failed.
    ReadFault,
    /// The source gave more bytes than the limit: this many.
    TooLong(u64),
    /// Memory was wanting.
    Memory,
}

/// The greatest number of bytes that a read asks for.
const READ: usize = 65_536;

/// Takes the lines of a script from a source, and reads only where no whole line is at hand. Of a line
/// that is longer than the limit of a line it keeps so much that the line is still seen to be too long.
#[derive(Drop)]
pub(crate) struct LineReader {
    buffer: Vec<u8>,
    start: usize,
    // so many bytes from `start` on hold no LF
    searched: usize,
    chunk: Vec<u8>,
    lines: u64,
    taken: u64,
    limit: u64,
    ended: bool,
    kept: usize,
}

impl Model for LineReader {
    ghost use Rattle.std.specs.Prelude.{drop};
    ghost use Rattle.script_rounds.specs.Reading.{LineState, IsKept};

    ghost Value = { LineState };

    ghost view = { λ r. record { ahead = drop r.start r.buffer.items; lines = r.lines; taken = r.taken; limit = r.limit; ended = r.ended; kept = r.kept } };

    ghost invariant = { λ r. IsKept r.buffer.items r.start r.searched r.chunk.items r.lines r.taken r.limit r.kept };
}

impl LineReader {
    /// A reader that has taken nothing.
    pub(crate) fn new(alloc: Global, limits: &Limits) -> Result<LineReader, AllocError>
        requires { IsWithinStandard limits.now }
        ensures { IfOk result (λ reader. reader ≡
            record { ahead = []; lines = 0; taken = 0; limit = limits.now.script; ended = false; kept = max (limits.now.line + 1) 3 }) }
    {
        Ok(LineReader {
            buffer: Vec::new(alloc),
            start: 0,
            searched: 0,
            chunk: vec![in alloc; 0; READ]?,
            lines: 0,
            taken: 0,
            limit: limits.script,
            ended: false,
            kept: (limits.line as usize + 1).max(3),
        })
    }

    /// How many lines were given on.
    pub(crate) fn lines(&self) -> u64
        ensures lines { result ≡ self.now.lines }
        ensures bytes { self.now.lines + length self.now.ahead ≤ self.now.taken }
        ensures few { self.now.taken ≤ self.now.limit + 1 }
        ensures standard { self.now.limit ≤ 2 ^ 36 }
    {
        self.lines
    }

    /// Reads until a line is at hand, and says how long it is without its LF. None at the end of the
    /// input, with no line left.
    pub(crate) fn fill<S: Source>(&mut self, source: &mut S) -> Result<Option<usize>, ScriptRefusal>
        requires in_limit { self.old.taken ≤ self.old.limit }
        ensures went { OnOk result (Went
            (at self.old (S.left source.old)) (at self.new (S.left source.new)) []) }
        ensures front { IfOk result (λ front. MatchOption front (IsSpent self.new) (IsFront self.new)) }
        ensures in_limit { OnOk result (self.new.taken ≤ self.new.limit) }
        ensures stopped { IfErr result (Stopped
            (at self.old (S.left source.old)) (at self.new (S.left source.new)) []) }
        ensures faults { FaultsFit result (S.faults source.old) (S.faults source.new) }
    {
        loop {
            if let Some(len) = self.find_end() {
                return Ok(Some(len));
            }
            if self.ended {
                let len = self.buffer.len() - self.start;
                return Ok(if len == 0 { None } else { Some(len) });
            }
            self.shorten();
            self.compact();
            self.read(source)?;
        }
    }

    /// The line at the front, of so many bytes.
    pub(crate) fn front(&self, len: usize) -> &[u8]
        requires { len ≤ length self.now.ahead }
        ensures { result.now ≡ take len self.now.ahead }
    {
        &self.buffer[self.start..self.start + len]
    }

    /// Gives on the line at the front, of so many bytes, with its LF.
    pub(crate) fn pass(&mut self, len: usize)
        requires { IsFront self.old len }
        ensures { self.new ≡ record self.old { ahead = drop (len + 1) self.old.ahead; lines = self.old.lines + 1 } }
    {
        let passed = (self.start + len + 1).min(self.buffer.len());
        self.lines += 1;
        self.searched = 0;
        if passed > READ {
            give_back(&mut self.buffer, passed);
            self.start = 0;
        } else {
            self.start = passed;
        }
    }

    // The place of the first LF ahead.
    fn find_end(&mut self) -> Option<usize>
        ensures same { self.new ≡ self.old }
        ensures found { MatchOption result (has_lf self.old.ahead ≡ false)
            (λ len. (has_lf (take len self.old.ahead) ≡ false) × (slice_get self.old.ahead len ≡ Some 10)) }
    {
        let ahead = &self.buffer[self.start..];
        let end = find_lf(ahead, self.searched);
        self.searched = end.unwrap_or(ahead.len());
        end
    }

    // Moves what is ahead to the front of the buffer.
    fn compact(&mut self)
        ensures { self.new ≡ self.old }
    {
        if self.start > 0 {
            give_back(&mut self.buffer, self.start);
            self.start = 0;
        }
    }

    // Drops what a line that is far too long has past the bytes that are kept.
    fn shorten(&mut self)
        requires { has_lf self.old.ahead ≡ false }
        ensures { self.new ≡ record self.old { ahead = take self.old.kept self.old.ahead } }
    {
        self.buffer.truncate(self.start + self.kept);
        self.searched = 0;
    }

    // Reads once: what the limit leaves, at most, or one byte where it is used up.
    fn read<S: Source>(&mut self, source: &mut S) -> Result<(), ScriptRefusal>
        requires in_limit { self.old.taken ≤ self.old.limit }
        requires open { self.old.ended ≡ false }
        requires none { has_lf self.old.ahead ≡ false }
        ensures went { OnOk result (Went
            (at self.old (S.left source.old)) (at self.new (S.left source.new)) []) }
        ensures progress { OnOk result ((self.new.ended ≡ true) ⊎
            ((self.new.ended ≡ false) × (self.old.taken < self.new.taken))) }
        ensures in_limit { OnOk result (self.new.taken ≤ self.new.limit) }
        ensures stops { IfErr result (λ refusal. StopsBy refusal
            (at self.old (S.left source.old)) (at self.new (S.left source.new))) }
        ensures faults { FaultsFit result (S.faults source.old) (S.faults source.new) }
    {
        let room = self.limit - self.taken;
        let most = if room == 0 {
            1
        } else {
            room.min(READ as u64) as usize
        };
        let n = read_most(source, &mut self.buffer, &mut self.chunk, most)?;
        if n == 0 {
            self.ended = true;
            return Ok(());
        }
        self.taken += n as u64;
        if self.taken > self.limit {
            return Err(ScriptRefusal::TooLong(self.taken));
        }
        Ok(())
    }
}

// Gives back the first bytes of a buffer, so many.
fn give_back(buffer: &mut Vec<u8>, passed: usize)
    requires { passed ≤ vec_len buffer.old }
    ensures { buffer.new.items ≡ drop passed buffer.old.items }
{
    let rest = buffer.len() - passed;
    buffer.copy_within(passed.., 0);
    buffer.truncate(rest);
}

// Adds what one read of at most so many bytes gives to a buffer, by way of a chunk.
fn read_most<S: Source>(
    source: &mut S,
    buffer: &mut Vec<u8>,
    chunk: &mut Vec<u8>,
    most: usize,
) -> Result<usize, ScriptRefusal>
    requires some { 0 < most }
    requires within { most ≤ vec_len chunk.old }
    ensures ok { IfOk result (ReadsOnce buffer.old.items buffer.new.items
        (S.left source.old) (S.left source.new) most) }
    ensures chunk { vec_len chunk.new ≡ vec_len chunk.old }
    ensures err { OnErr result (buffer.new.items ≡ buffer.old.items) }
    ensures unread { OnErr result (S.left source.new ≡ S.left source.old) }
    ensures cause { IfErr result
        (λ refusal. (refusal ≡ ScriptRefusal.Memory) ⊎ (refusal ≡ ScriptRefusal.ReadFault)) }
    ensures faults { FaultsFit result (S.faults source.old) (S.faults source.new) }
{
    read_once(source, buffer, &mut chunk[..most])
}

// Adds what one read gives to a buffer, by way of a chunk, and says how many bytes that is.
fn read_once<S: Source>(
    source: &mut S,
    buffer: &mut Vec<u8>,
    chunk: &mut [u8],
) -> Result<usize, ScriptRefusal>
    requires { 0 < length chunk.old }
    ensures ok { IfOk result (ReadsOnce buffer.old.items buffer.new.items
        (S.left source.old) (S.left source.new) (length chunk.old)) }
    ensures err { OnErr result (buffer.new.items ≡ buffer.old.items) }
    ensures unread { OnErr result (S.left source.new ≡ S.left source.old) }
    ensures cause { IfErr result
        (λ refusal. (refusal ≡ ScriptRefusal.Memory) ⊎ (refusal ≡ ScriptRefusal.ReadFault)) }
    ensures faults { FaultsFit result (S.faults source.old) (S.faults source.new) }
{
    if buffer.reserve(chunk.len()).is_err() {
        return Err(ScriptRefusal::Memory);
    }
    let Ok(n) = source.read(chunk) else {
        return Err(ScriptRefusal::ReadFault);
    };
    if buffer.extend_from_slice(&chunk[..n]).is_err() {
        unreachable!();
    }
    Ok(n)
}

// The place of the first LF of bytes, of which so many hold none.
fn find_lf(bytes: &[u8], searched: usize) -> Option<usize>
    requires within { searched ≤ length bytes.now }
    requires none { has_lf (take searched bytes.now) ≡ false }
    ensures { MatchOption result (has_lf bytes.now ≡ false)
        (λ len. (has_lf (take len bytes.now) ≡ false) × (slice_get bytes.now len ≡ Some 10)) }
{
    match memchr(b'\n', &bytes[searched..]) {
        Some(place) => Some(searched + place),
        None => None,
    }
}
