ghost use Rattle.std.specs.Prelude.{◌≡◌, ◌≤◌, IfOk, length};
ghost use Rattle.script_rounds.specs.Entries.{IsItemOf};
ghost use Rattle.feed_reader.specs.Names.{AreOf};
ghost use Rattle.feed_reader.specs.Reading.{feed_line_of};
ghost use Rattle.script_rounds.specs.Fits.{ItemFits, LineFits};
ghost use Rattle.script_rounds.specs.Roles.{IsLineOf, counted_entry, feed_entry, form_entry, role_of};

use crate::ask::{first_field, read_ask};
use crate::compact::read_compact;
use crate::fault::{LINE_TOO_LONG, TOO_MANY_LINES};
use crate::item::{Item, RoundLine};
use crate::terms::Terms;
use feed_reader::{FeedLine, LastNames, read_next_feed_line};
use packed_command::PackedCommand;
use std::alloc::AllocError;
use uni_base::is_skipped;

/// What a line is, by its number in the script and by how many lines of its round counted before it.
#[tactic(auto, unfolding(crate::specs::Roles::role_of))]
pub(crate) fn read_line(
    terms: &Terms,
    names: &mut LastNames,
    number: u64,
    before: u64,
    line: &[u8],
) -> Result<RoundLine, AllocError>
    requires { AreOf terms.now.schema names.old }
    ensures line { IfOk result (IsLineOf (role_of terms.now number before line.now)) }
    ensures fits { IfOk result (LineFits terms.now) }
    ensures names { AreOf terms.now.schema names.new }
{
    if line == b"go".as_slice() {
        Ok(RoundLine::Go)
    } else if is_skipped(line) {
        Ok(RoundLine::Skipped)
    } else if before > terms.limits().round {
        Ok(RoundLine::Skipped)
    } else {
        let item = read_counted(terms, names, number, before, line)?;
        Ok(RoundLine::Item(item))
    }
}

// A line that counts.
fn read_counted(
    terms: &Terms,
    names: &mut LastNames,
    number: u64,
    before: u64,
    line: &[u8],
) -> Result<Item, AllocError>
    requires { AreOf terms.now.schema names.old }
    ensures item { IfOk result (IsItemOf (counted_entry terms.now number before line.now)) }
    ensures fits { IfOk result (ItemFits terms.now) }
    ensures names { AreOf terms.now.schema names.new }
{
    if line.len() as u64 > terms.limits().line {
        Ok(Item::Fault(number, LINE_TOO_LONG))
    } else if before >= terms.limits().round {
        Ok(Item::Fault(number, TOO_MANY_LINES))
    } else {
        read_form(terms, names, number, line)
    }
}

// A line that counts, by its form.
fn read_form(
    terms: &Terms,
    names: &mut LastNames,
    number: u64,
    line: &[u8],
) -> Result<Item, AllocError>
    requires names { AreOf terms.now.schema names.old }
    requires short { length line.now ≤ 65536 }
    ensures item { IfOk result (IsItemOf (form_entry terms.now number line.now)) }
    ensures fits { IfOk result (ItemFits terms.now) }
    ensures names { AreOf terms.now.schema names.new }
{
    let (word, rest) = first_field(line);
    if word == b"ask".as_slice() {
        Ok(read_ask(terms, number, rest))
    } else if word == b"compact".as_slice() {
        Ok(read_compact(terms, number, rest))
    } else if line == b"stats".as_slice() {
        Ok(Item::Stats(number))
    } else {
        read_feed(terms, names, number, line)
    }
}

// A line of the feed.
fn read_feed(
    terms: &Terms,
    names: &mut LastNames,
    number: u64,
    line: &[u8],
) -> Result<Item, AllocError>
    requires { AreOf terms.now.schema names.old }
    ensures item { IfOk result (IsItemOf (feed_entry number (feed_line_of terms.now.schema line.now))) }
    ensures fits { IfOk result (ItemFits terms.now) }
    ensures names { AreOf terms.now.schema names.new }
{
    Ok(match read_next_feed_line(terms.schema(), names, line) {
        Ok(FeedLine::Change(command)) => {
            let command = PackedCommand::of(terms.alloc(), &command)?;
            Item::Change(number, command)
        }
        Ok(FeedLine::Publish) => Item::Publish(number),
        Err(fault) => Item::Refused(number, fault.code()),
    })
}
