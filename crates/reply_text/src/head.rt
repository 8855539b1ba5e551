ghost use Rattle.std.specs.Prelude.{◌≡◌, ◌++◌, OnOk};
ghost use Rattle.uni_base.specs.Fields.{spaced};
ghost use Rattle.reply_text.specs.Heads.{counted_fields, head_line, head_of};

use crate::Answer;
use crate::field::{add_field, add_number, add_numbers, add_stack};
use std::alloc::AllocError;
use uni_base::Text;
use uni_schema::Schema;

/// Adds the first line of an answer, without its LF.
pub(crate) fn add_head(text: &mut Text, schema: &Schema, answer: &Answer) -> Result<(), AllocError>
    ensures { OnOk result (text.new ≡ text.old ++ head_line schema.now (head_of answer.now)) }
{
    match answer {
        Answer::Published(line, number) => add_numbers(text, b"published", &[*line, *number]),
        Answer::Reply(line, reply) => {
            let count = reply.hits.len() as u64;
            add_counted(text, b"reply", *line, reply.publishes, b"hits", count)
        }
        Answer::Compacted(line, number) => add_numbers(text, b"compacted", &[*line, *number]),
        Answer::Stats(line, publishes, stacks) => {
            let count = stacks.len() as u64;
            add_counted(text, b"stats", *line, *publishes, b"stacks", count)
        }
        Answer::Refused(line, code) => add_numbers(text, b"refused", &[*line, *code as u64]),
        Answer::Fault(line, code) => add_numbers(text, b"error", &[*line, *code as u64]),
        Answer::QueryFault(line, code, column) => {
            add_numbers(text, b"error", &[*line, *code as u64, *column as u64])
        }
        Answer::Memory(line) => add_numbers(text, b"memory", &[*line]),
        Answer::Tidied(vertical, shard, replica, number) => {
            add_stack(text, b"tidied", schema, *vertical, *shard, *replica)?;
            add_number(text, *number)
        }
        Answer::Untidied(vertical, shard, replica) => {
            add_stack(text, b"untidied", schema, *vertical, *shard, *replica)
        }
    }
}

// Adds a word and a line's number, `at` and how many publishes there were, and how many of what follow.
fn add_counted(
    text: &mut Text,
    word: &[u8],
    line: u64,
    publishes: u64,
    noun: &[u8],
    count: u64,
) -> Result<(), AllocError>
    ensures { OnOk result (text.new ≡ text.old ++ spaced (counted_fields word.now line publishes noun.now count)) }
{
    text.extend_from_slice(word)?;
    add_number(text, line)?;
    add_field(text, b"at")?;
    add_number(text, publishes)?;
    add_field(text, noun)?;
    add_number(text, count)
}
