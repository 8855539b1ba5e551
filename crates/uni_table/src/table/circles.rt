ghost use Rattle.std.specs.Prelude.{◌≡◌, ◌<◌, length};
ghost use Rattle.uni_table.specs.Commands.{audience_of, IsDeclaredAudience};
ghost use Rattle.uni_table.specs.declared.command.AudienceText.TheVariants.{Circle};

use crate::AudienceText;
use uni_base::{Audience, Word};
use uni_schema::{Schema, Store};

/// The audience that a command writes. None where its circle is of a forward type, or of a type from
/// entities and its key spells no id.
pub(crate) fn audience_of(schema: &Schema, text: AudienceText) -> Option<Audience>
    requires { IsDeclaredAudience schema.now text }
    ensures { result ≡ audience_of schema.now text }
{
    match text {
        AudienceText::Public => Some(Audience::Public),
        AudienceText::Only => Some(Audience::Only),
        AudienceText::Circle(type_no, key) => circle(schema, type_no, &key),
    }
}

fn circle(schema: &Schema, type_no: u16, key: &Word) -> Option<Audience>
    requires { type_no < length schema.now.types }
    ensures { result ≡ audience_of schema.now (Circle type_no key.now) }
{
    if schema.type_def(type_no).store == Store::Forward {
        return None;
    }
    Some(Audience::Circle(type_no, schema.key_of(type_no, key)?))
}
