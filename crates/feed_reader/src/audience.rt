ghost use Rattle.std.specs.Prelude.{◌≡◌, Some, None, MatchResult, IfOk, IfSome, unwrap_or};
ghost use Rattle.std.specs.Option.{option_map};
ghost use Rattle.feed_reader.specs.Fields.{TakesAs};
ghost use Rattle.feed_reader.specs.Names.{AreOf};
ghost use Rattle.feed_reader.specs.Parts.{audience_by, circle_by, told};
ghost use Rattle.feed_reader.specs.Reading.{until_in};
ghost use Rattle.uni_table.specs.Commands.{IsDeclaredAudience};
ghost use Rattle.feed_reader.specs.declared.fault.LineFault.TheVariants.{BadLine};

use crate::fields::LineFields;
use crate::{LastNames, LineFault};
use uni_schema::Schema;
use uni_table::AudienceText;

/// The last publish that may end an edge, by its number.
const LAST_UNTIL: u64 = 1 << 20;

// The audience that the next field is. None where it is a circle of a type that is not declared.
pub(crate) fn read_audience(
    schema: &Schema,
    names: &mut LastNames,
    fields: &mut LineFields<'_>,
) -> Result<Option<AudienceText>, LineFault>
    requires { AreOf schema.now names.old }
    ensures audience { TakesAs (audience_by schema.now) fields.old fields.new result }
    ensures declared { IfOk result (λ audience. IfSome audience (IsDeclaredAudience schema.now)) }
    ensures names { AreOf schema.now names.new }
{
    if fields.take_word(b"public") {
        return Ok(Some(AudienceText::Public));
    }
    if fields.take_word(b"only") {
        return Ok(Some(AudienceText::Only));
    }
    if fields.take_front(b"in") {
        read_circle(schema, names, fields)
    } else {
        Err(LineFault::BadLine)
    }
}

// The circle that the next field is, after `in:`. None where its type is not declared.
fn read_circle(
    schema: &Schema,
    names: &mut LastNames,
    fields: &mut LineFields<'_>,
) -> Result<Option<AudienceText>, LineFault>
    requires { AreOf schema.now names.old }
    ensures circle { TakesAs (circle_by schema.now) fields.old fields.new result }
    ensures declared { IfOk result (λ audience. IfSome audience (IsDeclaredAudience schema.now)) }
    ensures names { AreOf schema.now names.new }
{
    let number = names.circle_no(schema, fields)?;
    let key = fields.word()?;
    match number {
        Some(number) => Ok(Some(AudienceText::Circle(number, key))),
        None => Ok(None),
    }
}

// `until PUBLISH` or nothing, at the end of an edge. None is 0.
pub(crate) fn read_until(schema: &Schema, fields: &mut LineFields<'_>) -> Result<u64, LineFault>
    ensures { result ≡ told (option_map (λ until. unwrap_or until 0)
        (until_in schema.now.format fields.old)) }
{
    if fields.is_end() {
        return Ok(0);
    }
    if schema.format() != 2 || !fields.take_word(b"until") {
        return Err(LineFault::BadLine);
    }
    let until = fields.number(1, LAST_UNTIL)?;
    fields.end()?;
    Ok(until)
}
