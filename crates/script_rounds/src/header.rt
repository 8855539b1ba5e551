ghost use Rattle.std.specs.Prelude.{◌≡◌, ◌<◌, ◌≤◌, ◌+◌, ◌-◌, [], length, IfOk, IfErr, OnOk};
ghost use Rattle.script_rounds.specs.Headers.{HeaderFaults, OpenFits, TookHeader};
ghost use Rattle.script_rounds.specs.Reading.{at};
ghost use Rattle.script_rounds.specs.RoundReads.{Keeps};

use crate::lines::{LineReader, ScriptRefusal};
use std::alloc::Global;
use uni_base::{Limits, Source};
use uni_schema::{HeaderReader, Schema, SchemaRefusal};

/// Why a script was not opened: its header, or its source.
#[derive(Clone, Copy, Debug, PartialEq, Eq)]
pub enum OpenRefusal {
    Schema(SchemaRefusal),
    Script(ScriptRefusal),
}

/// Takes the lines of a header, the first of a script.
pub(crate) fn take_header<S: Source>(
    alloc: Global,
    limits: &Limits,
    reader: &mut LineReader,
    source: &mut S,
) -> Result<Schema, OpenRefusal>
    requires first { reader.old.lines ≡ 0 }
    requires in_limit { reader.old.taken ≤ reader.old.limit }
    requires keeps { Keeps limits.now reader.old }
    ensures took { IfOk result (λ schema. TookHeader limits.now schema
        (at reader.old (S.left source.old)) (at reader.new (S.left source.new))) }
    ensures faulty { IfErr result (λ refusal. HeaderFaults limits.now refusal
        (at reader.old (S.left source.old)) (at reader.new (S.left source.new))) }
    ensures few { OnOk result (reader.new.lines ≤ reader.new.limit) }
    ensures in_limit { OnOk result (reader.new.taken ≤ reader.new.limit) }
    ensures faults { OpenFits result (S.faults source.old) (S.faults source.new) }
{
    let mut header = HeaderReader::new(alloc, *limits);
    loop {
        let number = reader.lines() + 1;
        let len = match reader.fill(source) {
            Ok(Some(len)) => len,
            Ok(None) => return Err(OpenRefusal::Schema(SchemaRefusal::NoBegin(number))),
            Err(refusal) => return Err(OpenRefusal::Script(refusal)),
        };
        let last = match header.take(number, reader.front(len)) {
            Ok(last) => last,
            Err(refusal) => return Err(OpenRefusal::Schema(refusal)),
        };
        reader.pass(len);
        if last {
            return Ok(header.schema());
        }
    }
}
