ghost use Rattle.std.specs.Prelude.{◌≡◌, ◌≤◌, ◌*◌, ◌+◌, ◌-◌, ◌++◌, ◌∷◌, [], length, IfOk, OnOk};
ghost use Rattle.bench_script.specs.BenchScript.{after_draws, after_rounds, asks, bench_text, edges, edges_of, entities, ids_ending, ids_here, later_rounds, updates};

use crate::draws::Draws;
use crate::lines::{add_ask, add_entity, add_friend, add_lives};
use std::alloc::{AllocError, Global};
use uni_base::Text;

const HEADER: &[u8] =
    b"unicorn 1\nvertical user 4 2\ntype friend user user both index\ntype lives word user target index\nbegin\n";

/// The script of a seed and so many people, in format 1. In the first round each person comes with a rank, four
/// friends and one of ten places, a quarter of which are shown to their owners only; in each of ten later rounds a
/// tenth of the people get another rank. After each publish comes a round of nine asks. For 100,000 people the first
/// round has 600,001 lines.
pub fn bench_script(alloc: Global, seed: u32, people: u32) -> Result<Text, AllocError>
    requires seed { (1 ≤ seed) × (seed ≤ 2147483646) }
    requires people { (2 ≤ people) × (people ≤ 100000) }
    ensures { IfOk result (λ text. text ≡ bench_text seed people) }
{
    let mut text = Text::new(alloc);
    let mut draws = Draws { last: seed };
    text.extend_from_slice(HEADER)?;
    add_entities(&mut text, &mut draws, people)?;
    add_edges(&mut text, &mut draws, people)?;
    text.extend_from_slice(b"publish\ngo\n")?;
    add_asks(&mut text, people)?;
    add_later_rounds(&mut text, &mut draws, people)?;
    Ok(text)
}

// Adds the people.
fn add_entities(text: &mut Text, draws: &mut Draws, people: u32) -> Result<(), AllocError>
    requires { people ≤ 100000 }
    ensures text { OnOk result (text.new ≡ text.old ++ entities draws.old.last people) }
    ensures draws { OnOk result (draws.new.last ≡ after_draws people draws.old.last) }
{
    for i in 0..people {
        add_entity(text, i + 1, draws.draw())?;
    }
    Ok(())
}

// Adds the edges of all people.
fn add_edges(text: &mut Text, draws: &mut Draws, people: u32) -> Result<(), AllocError>
    requires { (1 ≤ people) × (people ≤ 100000) }
    ensures text { OnOk result (text.new ≡ text.old ++ edges people draws.old.last people) }
    ensures draws { OnOk result (draws.new.last ≡ after_draws (6 * people) draws.old.last) }
{
    for i in 0..people {
        add_edges_of(text, draws, people, i + 1)?;
    }
    Ok(())
}

// Adds the edges of a person.
fn add_edges_of(text: &mut Text, draws: &mut Draws, people: u32, id: u32) -> Result<(), AllocError>
    requires { (1 ≤ people) × (people ≤ 100000) }
    ensures text { OnOk result (text.new ≡ text.old ++ edges_of people id draws.old.last) }
    ensures draws { OnOk result (draws.new.last ≡ after_draws 6 draws.old.last) }
{
    add_friend(text, draws, people, id)?;
    add_friend(text, draws, people, id)?;
    add_friend(text, draws, people, id)?;
    add_friend(text, draws, people, id)?;
    add_lives(text, draws, id)?;
    Ok(())
}

// Adds a round of asks.
fn add_asks(text: &mut Text, people: u32) -> Result<(), AllocError>
    requires { (1 ≤ people) × (people ≤ 100000) }
    ensures { OnOk result (text.new ≡ text.old ++ asks people) }
{
    for k in 0..9 {
        add_ask(text, people, k)?;
    }
    text.extend_from_slice(b"go\n")?;
    Ok(())
}

// Adds the later rounds, each with the asks after it.
fn add_later_rounds(text: &mut Text, draws: &mut Draws, people: u32) -> Result<(), AllocError>
    requires { (1 ≤ people) × (people ≤ 100000) }
    ensures { OnOk result (text.new ≡ text.old ++ later_rounds people draws.old.last 10) }
{
    for i in 0..10 {
        add_updates(text, draws, people, i + 1)?;
        text.extend_from_slice(b"publish\ngo\n")?;
        add_asks(text, people)?;
    }
    Ok(())
}

// Adds the changes of a later round.
fn add_updates(
    text: &mut Text,
    draws: &mut Draws,
    people: u32,
    round: u32,
) -> Result<(), AllocError>
    requires { people ≤ 100000 }
    ensures text { OnOk result (text.new ≡ text.old ++ updates draws.old.last (ids_ending round people)) }
    ensures draws { OnOk result (draws.new.last ≡ after_draws (length (ids_ending round people)) draws.old.last) }
{
    for i in 0..people {
        add_update(text, draws, i + 1, round)?;
    }
    Ok(())
}

// Adds the change of a person, where its number ends as that of the round does.
fn add_update(text: &mut Text, draws: &mut Draws, id: u32, round: u32) -> Result<(), AllocError>
    ensures text { OnOk result (text.new ≡ text.old ++ updates draws.old.last (ids_here round id)) }
    ensures draws { OnOk result (draws.new.last ≡ after_draws (length (ids_here round id)) draws.old.last) }
{
    if id % 10 == round % 10 {
        add_entity(text, id, draws.draw())?;
    }
    Ok(())
}
