ghost use Rattle.std.specs.Prelude.{◌≡◌, ◌<◌, IfSome, Some};
ghost use Rattle.uni_base.specs.Fields.{fields_of};
ghost use Rattle.uni_schema.specs.Lines.{name_of};
ghost use Rattle.script_rounds.specs.Compacts.{compact_entry, named_stack, stack_of};
ghost use Rattle.script_rounds.specs.Entries.{IsItemOf};
ghost use Rattle.script_rounds.specs.Fits.{ItemFits};

use crate::item::Item;
use crate::terms::Terms;
use feed_reader::LineFault;
use uni_base::{Fields, Word, read_number};

/// A stack as it is written: by its vertical's name, and with numbers of any size.
#[derive(Clone, Copy, Debug)]
pub(crate) struct WrittenStack {
    pub(crate) vertical: Word,
    pub(crate) shard: u128,
    pub(crate) replica: u128,
}

/// `compact VERTICAL SHARD REPLICA`, after its first word.
pub(crate) fn read_compact(terms: &Terms, number: u64, text: &[u8]) -> Item
    ensures item { IsItemOf (compact_entry terms.now.schema number (fields_of text.now)) result }
    ensures fits { ItemFits terms.now result }
{
    match read_stack(Fields::of(text)) {
        Some(stack) => find_stack(terms, number, &stack),
        None => Item::Refused(number, LineFault::BadLine.code()),
    }
}

// The stack that fields write, if they write one.
fn read_stack(mut fields: Fields<'_>) -> Option<WrittenStack>
    ensures { result ≡ stack_of fields.entry }
{
    let vertical = fields.next()?;
    let shard = fields.next()?;
    let replica = fields.next()?;
    if fields.next().is_some() {
        return None;
    }
    Some(WrittenStack {
        vertical: read_name(vertical)?,
        shard: read_number(shard)?,
        replica: read_number(replica)?,
    })
}

// The stack that is written, if there is one.
fn find_stack(terms: &Terms, number: u64, stack: &WrittenStack) -> Item
    ensures item { IsItemOf (named_stack terms.now.schema number stack.now) result }
    ensures fits { ItemFits terms.now result }
{
    let schema = terms.schema();
    let Some(vertical) = schema.vertical_no(&stack.vertical) else {
        return Item::Refused(number, LineFault::UnknownName.code());
    };
    let def = schema.vertical(vertical);
    if stack.shard < def.shards as u128 && stack.replica < def.replicas as u128 {
        Item::Compact(number, vertical, stack.shard as u32, stack.replica as u32)
    } else {
        Item::Refused(number, LineFault::UnknownName.code())
    }
}

// The name that a text is, if it is one.
fn read_name(text: &[u8]) -> Option<Word>
    ensures { result ≡ name_of text.now }
{
    let word = Word::read(text)?;
    if word.is_name() { Some(word) } else { None }
}
