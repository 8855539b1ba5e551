//! Scripts, and what they are read as.
ghost use Rattle.uni_base.specs.StandardLimits.{IsWithinStandard};

use script_rounds::{Item, OpenRefusal, Round, Rounds, ScriptRefusal};
use std::alloc::Global;
use std::test::Fail;
use uni_base::{Limits, MemorySource, Rows, Source, Text};
use uni_schema::SchemaRefusal;

mod forms;
mod limits;
mod sources;

// A text in which each bar stands for an LF.
fn text(alloc: Global, parts: &[&[u8]]) -> Result<Text, Fail> {
    let mut text = Rows::new(alloc);
    for part in parts {
        for byte in *part {
            text.push(if *byte == b'|' { b'\n' } else { *byte })?;
        }
    }
    Ok(text)
}

// A source of one piece, no read of which fails.
fn whole(alloc: Global, text: Text) -> Result<MemorySource, Fail> {
    let mut pieces = Vec::new(alloc);
    pieces.push(text)?;
    Ok(MemorySource::new(pieces, Vec::new(alloc)))
}

// What a script is read as: its rounds in brackets, each item with a space before it, and then how it
// ends.
fn read<S: Source>(alloc: Global, limits: Limits, source: &mut S) -> Result<String, Fail>
    requires { IsWithinStandard limits }
{
    match Rounds::open(alloc, limits, source) {
        Ok((mut rounds, _)) => read_rounds(alloc, &mut rounds, source),
        Err(OpenRefusal::Schema(refusal)) => shown_refusal(alloc, refusal),
        Err(OpenRefusal::Script(refusal)) => shown_end(alloc, refusal),
    }
}

fn read_rounds<S: Source>(
    alloc: Global,
    rounds: &mut Rounds,
    source: &mut S,
) -> Result<String, Fail> {
    let mut shown = String::new(alloc);
    for _ in 0..1_000_000u32 {
        match rounds.next(source) {
            Ok(Some(round)) => add_round(alloc, &mut shown, &round)?,
            Ok(None) => return Ok(shown),
            Err(refusal) => {
                let same = matches!(rounds.next(source), Err(again) if again == refusal);
                add_end(alloc, &mut shown, refusal, same)?;
                return Ok(shown);
            }
        }
    }
    Err("no end")?
}

fn add_round(alloc: Global, shown: &mut String, round: &Round) -> Result<(), Fail> {
    shown.push('[')?;
    for item in round.items.as_slice() {
        let item = shown_item(alloc, item)?;
        shown.push(' ')?;
        shown.push_str(item.as_str())?;
    }
    shown.push(']')?;
    Ok(())
}

// How a script ends, and whether it ends otherwise when it is read again.
fn add_end(
    alloc: Global,
    shown: &mut String,
    refusal: ScriptRefusal,
    same: bool,
) -> Result<(), Fail> {
    let end = shown_end(alloc, refusal)?;
    if !same {
        shown.push_str(" changed")?;
    }
    shown.push_str(end.as_str())?;
    Ok(())
}

fn shown_refusal(alloc: Global, refusal: SchemaRefusal) -> Result<String, Fail> {
    Ok(match refusal {
        SchemaRefusal::BadLine(line) => format!(in alloc; "bad {line}")?,
        SchemaRefusal::NoBegin(line) => format!(in alloc; "short {line}")?,
        _ => String::from_str(alloc, "refused")?,
    })
}

fn shown_end(alloc: Global, refusal: ScriptRefusal) -> Result<String, Fail> {
    Ok(match refusal {
        ScriptRefusal::ReadFault => String::from_str(alloc, "fault")?,
        ScriptRefusal::TooLong(bytes) => format!(in alloc; "long {bytes}")?,
        ScriptRefusal::Memory => String::from_str(alloc, "memory")?,
    })
}

fn shown_item(alloc: Global, item: &Item) -> Result<String, Fail> {
    Ok(match item {
        Item::Change(line, _) => format!(in alloc; "{line}:change")?,
        Item::Publish(line) => format!(in alloc; "{line}:publish")?,
        Item::Ask {
            line,
            session,
            viewer,
            limit,
            query,
        } => {
            let viewer = viewer.get();
            let vertical = query.vertical;
            format!(in alloc; "{line}:ask-{viewer}-{session}-{limit}-{vertical}")?
        }
        Item::Compact(line, vertical, shard, replica) => {
            format!(in alloc; "{line}:compact-{vertical}-{shard}-{replica}")?
        }
        Item::Stats(line) => format!(in alloc; "{line}:stats")?,
        Item::Refused(line, code) => format!(in alloc; "{line}:refused-{code}")?,
        Item::Fault(line, code) => format!(in alloc; "{line}:fault-{code}")?,
        Item::QueryFault(line, code, column) => format!(in alloc; "{line}:fault-{code}-{column}")?,
        Item::Memory(line) => format!(in alloc; "{line}:memory")?,
    })
}
