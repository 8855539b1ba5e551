ghost use Rattle.std.specs.Prelude.{◌≡◌, ◌++◌, ◌∷◌, map, OnOk};
ghost use Rattle.std.specs.Fmt.{decimal};
ghost use Rattle.uni_base.specs.Fields.{spaced};
ghost use Rattle.reply_text.specs.Heads.{stack_fields};
ghost use Rattle.uni_schema.specs.Print.{vertical_name};

use itoa::Buffer;
use std::alloc::AllocError;
use uni_base::Text;
use uni_schema::Schema;

/// Adds the decimal digits of a number.
pub(crate) fn add_digits(text: &mut Text, number: u64) -> Result<(), AllocError>
    ensures { OnOk result (text.new ≡ text.old ++ decimal number) }
{
    let mut buffer = Buffer::new();
    text.extend_from_slice(buffer.format(number).as_bytes())
}

/// Adds a space and a field.
pub(crate) fn add_field(text: &mut Text, field: &[u8]) -> Result<(), AllocError>
    ensures { OnOk result (text.new ≡ text.old ++ 32 ∷ field.now) }
{
    text.push(b' ')?;
    text.extend_from_slice(field)
}

/// Adds a space and a number.
pub(crate) fn add_number(text: &mut Text, number: u64) -> Result<(), AllocError>
    ensures { OnOk result (text.new ≡ text.old ++ 32 ∷ decimal number) }
{
    text.push(b' ')?;
    add_digits(text, number)
}

/// Adds a word and numbers, with one space between any two.
pub(crate) fn add_numbers(text: &mut Text, word: &[u8], numbers: &[u64]) -> Result<(), AllocError>
    ensures { OnOk result (text.new ≡ text.old ++ spaced (word.now ∷ map decimal numbers.now)) }
{
    text.extend_from_slice(word)?;
    for number in numbers {
        add_number(text, *number)?;
    }
    Ok(())
}

/// Adds a word and a stack: the name of its vertical, its shard and its replica.
pub(crate) fn add_stack(
    text: &mut Text,
    word: &[u8],
    schema: &Schema,
    vertical: u16,
    shard: u32,
    replica: u32,
) -> Result<(), AllocError>
    ensures { OnOk result (text.new ≡ text.old ++ spaced (stack_fields word.now schema.now vertical shard replica)) }
{
    text.extend_from_slice(word)?;
    add_vertical(text, schema, vertical)?;
    add_number(text, shard as u64)?;
    add_number(text, replica as u64)
}

// A space and the name of a vertical.
fn add_vertical(text: &mut Text, schema: &Schema, vertical: u16) -> Result<(), AllocError>
    ensures { OnOk result (text.new ≡ text.old ++ 32 ∷ vertical_name schema.now vertical) }
{
    if vertical < schema.verticals() {
        add_field(text, schema.vertical(vertical).name.bytes())
    } else {
        text.push(b' ')
    }
}
