ghost use Rattle.std.specs.Prelude.{◌≡◌, ◌++◌, ◌∷◌, [], IfSome, OnOk, codes, decimal};
ghost use Rattle.unicorn_round.specs.Outcome.{place_of, schema_text};
ghost use Rattle.unicorn_round.specs.Statuses.{WriteFaultsFit};
ghost use Rattle.unicorn_round.specs.Headers.{FaultWritten};

use crate::status::Status;
use crate::write::write_all;
use itoa::Buffer;
use std::alloc::{AllocError, Global};
use uni_base::{Sink, Text};
use uni_schema::SchemaRefusal;

/// Writes the line of a header's fault: `schema LINE CODE`.
pub(crate) fn write_header_fault<K: Sink>(
    alloc: Global,
    refusal: SchemaRefusal,
    sink: &mut K,
) -> Status
    ensures written { FaultWritten refusal (K.taken sink.old) (K.taken sink.new) result }
    ensures writes { WriteFaultsFit result (K.faults sink.old) (K.faults sink.new) }
{
    let Some((line, code)) = place(refusal) else {
        return Status::Memory;
    };
    let mut text = Text::new(alloc);
    if add_fault(&mut text, line, code).is_err() {
        return Status::Memory;
    }
    if write_all(sink, text.as_slice()).is_err() {
        return Status::WriteFault;
    }
    Status::Schema
}

// The line and the code of a fault. Want of memory has none.
fn place(refusal: SchemaRefusal) -> Option<(u64, u32)>
    ensures { IfSome result (λ place. (place ≡ place_of refusal) × (refusal ≡ SchemaRefusal.Memory → ⊥)) }
{
    match refusal {
        SchemaRefusal::BadLine(line) => Some((line, 1)),
        SchemaRefusal::NamedTwice(line) => Some((line, 2)),
        SchemaRefusal::UnknownVertical(line) => Some((line, 3)),
        SchemaRefusal::OutOfRange(line) => Some((line, 4)),
        SchemaRefusal::WordSource(line) => Some((line, 5)),
        SchemaRefusal::TooMany(line) => Some((line, 6)),
        SchemaRefusal::BadDeny(line) => Some((line, 7)),
        SchemaRefusal::NoBegin(line) => Some((line, 8)),
        SchemaRefusal::Memory => None,
    }
}

fn add_fault(text: &mut Text, line: u64, code: u32) -> Result<(), AllocError>
    ensures { OnOk result (text.new ≡ text.old ++ (codes "schema " ++ (decimal line ++ (codes " " ++ (decimal code ++ 10 ∷ []))))) }
{
    text.extend_from_slice(b"schema ")?;
    text.extend_from_slice(Buffer::new().format(line).as_bytes())?;
    text.extend_from_slice(b" ")?;
    text.extend_from_slice(Buffer::new().format(code).as_bytes())?;
    text.extend_from_slice(b"\n")
}
