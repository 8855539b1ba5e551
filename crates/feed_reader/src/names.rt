ghost use Rattle.std.specs.Prelude.{◌≡◌, ◌<◌, true, Some, None, Ok, Err, length, IfOk, IfSome, MatchOption};
ghost use Rattle.feed_reader.specs.Fields.{TakesAs, TakesFrontAs, number_by};
ghost use Rattle.feed_reader.specs.Names.{AreOf, IsFoundBy, IsLast, IsLastBefore};
ghost use Rattle.uni_base.specs.Words.{is_name};
ghost use Rattle.uni_schema.specs.Schema.{Declarations, vertical_no, type_no};

use crate::LineFault;
use crate::fields::LineFields;
use uni_base::Word;
use uni_schema::Schema;

/// A name that is declared, with its number.
#[derive(Clone, Copy, Debug)]
struct Found {
    name: Word,
    number: u16,
}

/// The names that were found last under a schema. A name that equals the last one of its place in a line
/// is not looked up again.
#[derive(Clone, Copy, Debug)]
pub struct LastNames {
    vertical: Option<Found>,
    edge_type: Option<Found>,
    circle: Option<Found>,
}

impl LastNames {
    /// No name was found yet, whatever the schema.
    pub fn new() -> LastNames
        ensures { (schema : Declarations) → AreOf schema result }
    {
        LastNames {
            vertical: None,
            edge_type: None,
            circle: None,
        }
    }

    /// The number of a vertical by its name, which is the next field. None where it is not declared; a fault
    /// where the field is no name.
    #[inline(always)]
    pub(crate) fn vertical_no(
        &mut self,
        schema: &Schema,
        fields: &mut LineFields<'_>,
    ) -> Result<Option<u16>, LineFault>
        requires { AreOf schema.now self.old }
        ensures number { TakesAs (number_by (vertical_no schema.now)) fields.old fields.new result }
        ensures within { IfOk result (λ number.
            IfSome number (λ n. n < length schema.now.verticals)) }
        ensures kept { AreOf schema.now self.new }
    {
        if let Some(number) = take_last(&self.vertical, fields) {
            return Ok(Some(number));
        }
        vertical_by(&mut self.vertical, schema, fields)
    }

    /// The number of the type of an edge by its name, likewise.
    #[inline(always)]
    pub(crate) fn type_no(
        &mut self,
        schema: &Schema,
        fields: &mut LineFields<'_>,
    ) -> Result<Option<u16>, LineFault>
        requires { AreOf schema.now self.old }
        ensures number { TakesAs (number_by (type_no schema.now)) fields.old fields.new result }
        ensures within { IfOk result (λ number.
            IfSome number (λ n. n < length schema.now.types)) }
        ensures kept { AreOf schema.now self.new }
    {
        if let Some(number) = take_last(&self.edge_type, fields) {
            return Ok(Some(number));
        }
        let name = fields.name()?;
        Ok(type_by(&mut self.edge_type, schema, name))
    }

    /// The number of the type of a circle by its name, which stands before a colon at the front of the next
    /// field, likewise. Both are taken off it.
    pub(crate) fn circle_no(
        &mut self,
        schema: &Schema,
        fields: &mut LineFields<'_>,
    ) -> Result<Option<u16>, LineFault>
        requires { AreOf schema.now self.old }
        ensures number { TakesFrontAs (number_by (type_no schema.now)) fields.old fields.new result }
        ensures within { IfOk result (λ number.
            IfSome number (λ n. n < length schema.now.types)) }
        ensures kept { AreOf schema.now self.new }
    {
        if let Some(number) = take_last_front(&self.circle, fields) {
            return Ok(Some(number));
        }
        let name = fields.front_name()?;
        Ok(type_by(&mut self.circle, schema, name))
    }
}

// The number of a vertical by its name, which is the next field and becomes the last one. Not inlined, so
// that the readers of names stay small.
#[inline(never)]
fn vertical_by(
    last: &mut Option<Found>,
    schema: &Schema,
    fields: &mut LineFields<'_>,
) -> Result<Option<u16>, LineFault>
    requires { IsFoundBy (vertical_no schema.now) last.old }
    ensures number { TakesAs (number_by (vertical_no schema.now)) fields.old fields.new result }
    ensures within { IfOk result (λ number.
        IfSome number (λ n. n < length schema.now.verticals)) }
    ensures kept { IsFoundBy (vertical_no schema.now) last.new }
{
    let name = fields.name()?;
    let Some(number) = schema.vertical_no(&name) else {
        return Ok(None);
    };
    *last = Some(Found { name, number });
    Ok(Some(number))
}

// The number of a type by its name, which becomes the last one.
#[inline(never)]
fn type_by(last: &mut Option<Found>, schema: &Schema, name: Word) -> Option<u16>
    requires found { IsFoundBy (type_no schema.now) last.old }
    requires named { is_name name ≡ true }
    ensures number { result ≡ type_no schema.now name }
    ensures within { IfSome result (λ n. n < length schema.now.types) }
    ensures kept { IsFoundBy (type_no schema.now) last.new }
{
    let number = schema.type_no(&name)?;
    *last = Some(Found { name, number });
    Some(number)
}

// The number of the last name, if that is the next field, which is then taken.
#[inline(always)]
fn take_last(last: &Option<Found>, fields: &mut LineFields<'_>) -> Option<u16>
    ensures { MatchOption result (fields.new ≡ fields.old)
        (λ number. IsLast last.now fields.old fields.new number) }
{
    match last {
        Some(found) if fields.take_word(found.name.bytes()) => Some(found.number),
        _ => None,
    }
}

// The number of the last name, if that stands before a colon at the front of the next field. Both are then
// taken off it.
fn take_last_front(last: &Option<Found>, fields: &mut LineFields<'_>) -> Option<u16>
    ensures { MatchOption result (fields.new ≡ fields.old)
        (λ number. IsLastBefore last.now fields.old fields.new number) }
{
    match last {
        Some(found) if fields.take_front(found.name.bytes()) => Some(found.number),
        _ => None,
    }
}
