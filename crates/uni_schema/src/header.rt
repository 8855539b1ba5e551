ghost use Rattle.std.specs.Prelude.{◌≡◌, ◌+◌, ◌⊎◌, false, true, IfOk, IfErr, IfSome, OnOk, OnErr};
ghost use Rattle.uni_schema.specs.Header.{opening, step, line_of, goes, refuses};
ghost use Rattle.uni_schema.specs.Rules.{is_written};

use crate::line::{HeaderLine, declaration_of};
use crate::{Schema, SchemaRefusal};
use std::alloc::Global;
use std::marker::Model;
use uni_base::{Limits, is_skipped};

/// Reads a header, line by line. Contracts see how many lines it has taken and what they declare.
#[derive(Drop)]
pub struct HeaderReader {
    taken: u64,
    begun: bool,
    ended: bool,
    schema: Schema,
    longest: u64,
}

impl Model for HeaderReader {
    ghost use Rattle.uni_schema.specs.Header.{HeaderState};

    ghost Value = { HeaderState };

    ghost view = { λ r. record { taken = r.taken; begun = r.begun; ended = r.ended; schema = r.schema; longest = r.longest } };
}

impl HeaderReader {
    /// A reader that has taken no line. The limit on a line is that of a header line, in bytes.
    pub fn new(alloc: Global, limits: Limits) -> HeaderReader
        ensures { result ≡ opening limits.line }
    {
        HeaderReader {
            taken: 0,
            begun: false,
            ended: false,
            schema: Schema::new(alloc),
            longest: limits.line,
        }
    }

    /// Takes the next line, whose number is one more than that of the lines taken, and says whether
    /// it was `begin`. A refusal leaves the reader as it was, and is never `NoBegin`: that the input
    /// ends too early only the caller can know.
    pub fn take(&mut self, line_no: u64, line: &[u8]) -> Result<bool, SchemaRefusal>
        requires next { line_no ≡ self.old.taken + 1 }
        requires open { self.old.ended ≡ false }
        ensures ok { IfOk result (λ last. (step self.old line.now ≡ goes self.new) × (last ≡ self.new.ended)) }
        ensures counted { OnOk result (self.new.taken ≡ self.old.taken + 1) }
        ensures refused { IfErr result (λ refusal. (refusal ≡ SchemaRefusal.Memory) ⊎ (step self.old line.now ≡ refuses refusal)) }
        ensures err { OnErr result (self.new ≡ self.old) }
    {
        if !is_skipped(line) {
            let Some(said) = self.line_of(line) else {
                return Err(SchemaRefusal::BadLine(line_no));
            };
            self.schema.declare(line_no, self.begun, &said)?;
            self.begun = true;
            self.ended = matches!(said, HeaderLine::Begin);
        }
        self.taken += 1;
        Ok(self.ended)
    }

    // What a line says, if it is not too long and of one of the forms.
    fn line_of(&self, line: &[u8]) -> Option<HeaderLine>
        ensures said { result ≡ line_of self.now line.now }
        ensures written { IfSome result (λ said. is_written said ≡ true) }
    {
        if line.len() as u64 <= self.longest {
            declaration_of(line)
        } else {
            None
        }
    }

    /// What the header declares.
    pub fn schema(self) -> Schema
        requires { self.ended ≡ true }
        ensures { result ≡ self.schema }
    {
        self.schema
    }
}
