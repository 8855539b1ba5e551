ghost use Rattle.std.specs.Prelude.{◌≡◌, ◌<◌, ◌≤◌, ◌+◌, ◌-◌, [], length, IfOk, IfErr, OnOk};
ghost use Rattle.feed_reader.specs.Names.{AreOf};
ghost use Rattle.script_rounds.specs.Reading.{at, FaultsFit, Stopped};
ghost use Rattle.script_rounds.specs.RoundReads.{BrokeOff, Keeps, TookLine, TookNext};

use crate::item::{ItemList, RoundLine};
use crate::lines::{LineReader, ScriptRefusal};
use crate::read_line::read_line;
use crate::terms::Terms;
use feed_reader::LastNames;
use uni_base::Source;

/// Takes the lines of a round up to its `go`, or to the end of the input, and gives what each is that
/// counts. None where no line is left.
pub(crate) fn take_round<S: Source>(
    terms: &Terms,
    reader: &mut LineReader,
    source: &mut S,
) -> Result<Option<ItemList>, ScriptRefusal>
    requires in_limit { reader.old.taken ≤ reader.old.limit }
    requires keeps { Keeps terms.now.limits reader.old }
    ensures took { IfOk result (TookNext terms.now
        (at reader.old (S.left source.old)) (at reader.new (S.left source.new))) }
    ensures broke { IfErr result (BrokeOff
        (at reader.old (S.left source.old)) (at reader.new (S.left source.new))) }
    ensures in_limit { OnOk result (reader.new.taken ≤ reader.new.limit) }
    ensures few { reader.new.lines ≤ reader.new.limit }
    ensures faults { FaultsFit result (S.faults source.old) (S.faults source.new) }
{
    let first = reader.lines();
    let mut items = ItemList::new(terms.alloc());
    let mut names = LastNames::new();
    loop {
        let before = items.len() as u64;
        let Some(line) = take_line(terms, &mut names, reader, source, before)? else {
            return Ok(if reader.lines() == first {
                None
            } else {
                Some(items)
            });
        };
        match line {
            RoundLine::Go => return Ok(Some(items)),
            RoundLine::Skipped => {}
            RoundLine::Item(item) => {
                if items.push(item).is_err() {
                    return Err(ScriptRefusal::Memory);
                }
            }
        }
    }
}

// Takes the next line of a round, so many of whose lines counted. None at the end of the input.
fn take_line<S: Source>(
    terms: &Terms,
    names: &mut LastNames,
    reader: &mut LineReader,
    source: &mut S,
    before: u64,
) -> Result<Option<RoundLine>, ScriptRefusal>
    requires names { AreOf terms.now.schema names.old }
    requires in_limit { reader.old.taken ≤ reader.old.limit }
    requires keeps { Keeps terms.now.limits reader.old }
    ensures took { IfOk result (TookLine terms.now
        (at reader.old (S.left source.old)) (at reader.new (S.left source.new)) before) }
    ensures stopped { IfErr result (Stopped
        (at reader.old (S.left source.old)) (at reader.new (S.left source.new)) []) }
    ensures names { AreOf terms.now.schema names.new }
    ensures in_limit { OnOk result (reader.new.taken ≤ reader.new.limit) }
    ensures faults { FaultsFit result (S.faults source.old) (S.faults source.new) }
{
    let Some(len) = reader.fill(source)? else {
        return Ok(None);
    };
    let number = reader.lines() + 1;
    let Ok(line) = read_line(terms, names, number, before, reader.front(len)) else {
        return Err(ScriptRefusal::Memory);
    };
    reader.pass(len);
    Ok(Some(line))
}
