//! Lines of the script, each with its LF.
ghost use Rattle.std.specs.Prelude.{◌≡◌, ◌<◌, ◌^◌, ◌++◌, OnOk};
ghost use Rattle.std.specs.Fmt.{decimal};
ghost use Rattle.bench_script.specs.BenchScript.{ask_line, drawn, entity_line, friend_line, lives_audience, lives_line, query_text, spaced};

use crate::draws::Draws;
use itoa::Buffer;
use std::alloc::AllocError;
use uni_base::Text;

/// Adds the line of a person, at a rank by a number that was drawn.
pub(crate) fn add_entity(text: &mut Text, id: u32, drawn: u32) -> Result<(), AllocError>
    ensures { OnOk result (text.new ≡ text.old ++ entity_line id drawn) }
{
    text.extend_from_slice(b"entity user")?;
    add_spaced(text, id)?;
    add_spaced(text, drawn % 1000)?;
    text.push(b'\n')?;
    Ok(())
}

/// Adds the line of a friend of a person among so many people, which it draws.
pub(crate) fn add_friend(
    text: &mut Text,
    draws: &mut Draws,
    people: u32,
    id: u32,
) -> Result<(), AllocError>
    requires some { 0 < people }
    requires few { people < 2 ^ 31 }
    ensures text { OnOk result (text.new ≡ text.old ++ friend_line people id (drawn draws.old.last)) }
    ensures draws { OnOk result (draws.new.last ≡ drawn draws.old.last) }
{
    let drawn = draws.draw();
    text.extend_from_slice(b"edge friend")?;
    add_spaced(text, id)?;
    add_spaced(text, 1 + drawn % people)?;
    text.extend_from_slice(b" public\n")
}

/// Adds the line of where a person lives, and who may see that: both are drawn.
pub(crate) fn add_lives(text: &mut Text, draws: &mut Draws, id: u32) -> Result<(), AllocError>
    ensures text { OnOk result (text.new ≡ text.old ++ lives_line id (drawn draws.old.last) (drawn (drawn draws.old.last))) }
    ensures draws { OnOk result (draws.new.last ≡ drawn (drawn draws.old.last)) }
{
    let place = draws.draw();
    text.extend_from_slice(b"edge lives c")?;
    add_number(text, place % 10)?;
    add_spaced(text, id)?;
    text.extend_from_slice(lives_audience(draws.draw()))
}

// Who may see where a person lives, and the line's end.
fn lives_audience(drawn: u32) -> &'static [u8]
    ensures { result.now ≡ lives_audience drawn }
{
    if drawn % 4 == 0 {
        b" only\n"
    } else {
        b" public\n"
    }
}

/// Adds the k-th ask of a block.
pub(crate) fn add_ask(text: &mut Text, people: u32, k: u32) -> Result<(), AllocError>
    requires some { 0 < people }
    requires few { people < 2 ^ 31 }
    ensures { OnOk result (text.new ≡ text.old ++ ask_line people k) }
{
    let person = 1 + k % people;
    text.extend_from_slice(b"ask")?;
    add_spaced(text, person)?;
    add_spaced(text, 1 + k % 4)?;
    text.extend_from_slice(b" 100")?;
    add_query(text, k, person)
}

// Adds the query of the k-th ask of a block, and the line's end.
fn add_query(text: &mut Text, k: u32, person: u32) -> Result<(), AllocError>
    ensures { OnOk result (text.new ≡ text.old ++ query_text k person) }
{
    match k % 3 {
        0 => add_about(text, b" friend:", person, b"\n"),
        1 => add_about(text, b" (apply friend: friend:", person, b")\n"),
        _ => add_about(
            text,
            b" (weak-and (term friend:",
            person,
            b" :optional-hits 2) lives:c1)\n",
        ),
    }
}

// Adds a number between two texts.
fn add_about(text: &mut Text, before: &[u8], person: u32, after: &[u8]) -> Result<(), AllocError>
    ensures { OnOk result (text.new ≡ text.old ++ (before.now ++ (decimal person ++ after.now))) }
{
    text.extend_from_slice(before)?;
    add_number(text, person)?;
    text.extend_from_slice(after)
}

// Adds a space and a number.
fn add_spaced(text: &mut Text, number: u32) -> Result<(), AllocError>
    ensures { OnOk result (text.new ≡ text.old ++ spaced number) }
{
    text.push(b' ')?;
    add_number(text, number)
}

// Adds a number.
fn add_number(text: &mut Text, number: u32) -> Result<(), AllocError>
    ensures { OnOk result (text.new ≡ text.old ++ decimal number) }
{
    let mut buffer = Buffer::new();
    text.extend_from_slice(buffer.format(number).as_bytes())
}
