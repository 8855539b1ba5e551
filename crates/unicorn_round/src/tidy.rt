//! The end of a round: stacks that are due are compacted, and the answers are put together.
ghost use Rattle.std.specs.Prelude.{◌≡◌, ◌+◌, ◌*◌, ◌^◌, ◌<◌, ◌≤◌, ◌++◌, IfOk, OnOk, filter, length, map};
ghost use Rattle.std.specs.List.{AllByRecursion};
ghost use Rattle.round_feed.specs.Seats.{HasCompacted, MayCompact};
ghost use Rattle.unicorn_round.specs.Ending.{IsEnded};
ghost use Rattle.unicorn_round.specs.Parted.{slots_in};
ghost use Rattle.unicorn_round.specs.Queues.{answers_at, shown_by};
ghost use Rattle.unicorn_round.specs.SchemaStacks.{AreStacks, IsStackOf, is_layered};
ghost use Rattle.unicorn_round.specs.Seats.{HasSpoken};
ghost use Rattle.unicorn_round.specs.Stacks.{due_untidied, name_of, tidy_answers};
ghost use Rattle.unicorn_round.specs.Told.{AreWithin, HasTidied, id_of, stacks_told};
ghost use Rattle.unicorn_round.specs.Weaving.{merged};
ghost use Rattle.version_catalog.specs.Installs.{IsLayered, Raises};
ghost use Rattle.version_catalog.specs.Seats.{IsFeederOf, IsVersionOf, compactor_installs, compactor_journal, feeder_journal, settings_of};

use crate::merge::{Queues, add_slots};
use crate::notes::{hear_compactor, tell_compactor};
use crate::parts::Parts;
use crate::round::RoundAnswers;
use crate::stacks::{StackCover, Stacks};
use rack_aggregate::{Gate, Point};
use reply_text::{Answer, AnswerList};
use shard_index::Version;
use std::alloc::{AllocError, Global};
use std::sync::Wait;
use std::thread::Threads;
use version_catalog::{Catalogue, Compactor, Feeder, Pinned, StackId};

/// How many shards are merged at once at most.
const MOST_MERGES: u32 = 2;

/// Ends a round whose lines were worked on: all its answers, of which the last are those of the stacks that were
/// due.
pub(crate) fn end_round<R: Threads + Wait + Sync, G: Gate>(
    rt: &R,
    alloc: Global,
    catalogue: &Catalogue,
    feeder: &mut Feeder,
    compactor: &mut Compactor,
    parts: Parts,
    answers: RoundAnswers,
    workers: u32,
    gate: &G,
) -> Result<AnswerList, AllocError>
    requires workers { 1 ≤ workers }
    requires feeder { IsFeederOf catalogue.now feeder.old }
    requires few { length (feeder_journal feeder.old) < 2 ^ 63 }
    requires compactor { MayCompact catalogue.now 8194 compactor.old }
    requires within { AreWithin (length (feeder_journal feeder.old)) (compactor_installs compactor.old) }
    ensures feeder { HasSpoken catalogue.now feeder.old feeder.new }
    ensures compactor { HasCompacted catalogue.now 8194 compactor.old compactor.new }
    ensures within { OnOk result (AreWithin (length (feeder_journal feeder.new)) (compactor_installs compactor.new)) }
    ensures ended { IfOk result (IsEnded (length (feeder_journal feeder.new))
        (stacks_told (settings_of catalogue.now).schema (compactor_installs compactor.old))
        (stacks_told (settings_of catalogue.now).schema (compactor_installs compactor.new)) parts answers) }
{
    tell_compactor(catalogue, feeder, compactor);
    let made = feeder.publishes();
    let (tidied, stacks) = tidy_due(rt, alloc, catalogue, compactor, made, workers, gate)?;
    hear_compactor(catalogue, feeder, compactor);
    put_together(alloc, parts, answers, &stacks, made, tidied)
}

// Compacts the stacks that are due after so many publishes: what they answer, and all stacks after that.
fn tidy_due<R: Threads + Wait + Sync, G: Gate>(
    rt: &R,
    alloc: Global,
    catalogue: &Catalogue,
    compactor: &mut Compactor,
    made: u64,
    workers: u32,
    gate: &G,
) -> Result<(Vec<Answer>, Stacks), AllocError>
    requires workers { 1 ≤ workers }
    requires few { made < 2 ^ 63 }
    requires compactor { MayCompact catalogue.now 8194 compactor.old }
    ensures compactor { HasCompacted catalogue.now 8194 compactor.old compactor.new }
    ensures tidied { IfOk result (λ t. length (compactor_journal compactor.old) ≡ made → length (compactor_journal compactor.new) ≡ made
        → HasTidied (settings_of catalogue.now).schema made (compactor_installs compactor.old) (compactor_installs compactor.new) t.1 t.0.items) }
{
    let before = stacks_now(rt, alloc, catalogue, compactor)?;
    let due = before.due(made)?;
    if due.is_empty() {
        return Ok((Vec::new(alloc), before));
    }
    let pinned = tidy_stacks(rt, alloc, catalogue, compactor, due.as_slice(), workers)?;
    let version = pinned.version();
    let answers = tidied_in(rt, alloc, version, &before, due.as_slice(), made, gate)?;
    let after = Stacks::of_version(alloc, version)?;
    Ok((answers, after))
}

// The stacks as they stand in the newest version.
fn stacks_now<R: Wait>(
    rt: &R,
    alloc: Global,
    catalogue: &Catalogue,
    compactor: &mut Compactor,
) -> Result<Stacks, AllocError>
    requires compactor { MayCompact catalogue.now 1 compactor.old }
    ensures compactor { HasCompacted catalogue.now 1 compactor.old compactor.new }
    ensures kept { compactor_installs compactor.new ≡ compactor_installs compactor.old }
    ensures told { IfOk result (λ stacks. stacks ≡ stacks_told (settings_of catalogue.now).schema (compactor_installs compactor.new)) }
    ensures are { IfOk result (AreStacks (settings_of catalogue.now).schema) }
{
    let pinned = catalogue.pin_told(rt, compactor)?;
    Stacks::of_version(alloc, pinned.version())
}

// What the stacks that were due answer, where those that still have more than one layer were left as they were.
fn tidied_in<R: Wait, G: Gate>(
    rt: &R,
    alloc: Global,
    version: &Version,
    stacks: &Stacks,
    due: &[StackCover],
    made: u64,
    gate: &G,
) -> Result<Vec<Answer>, AllocError>
    requires few { made < 2 ^ 63 }
    requires due { AllByRecursion (IsStackOf version.now.schema) due.now }
    ensures { IfOk result (λ answers. answers.items ≡ tidy_answers made (due_untidied made (map name_of (filter (is_layered version.now) due.now)) stacks.now) stacks.now) }
{
    let layered = layered_in(rt, alloc, version, due, gate)?;
    let untidied = stacks.due_among(made, layered.as_slice())?;
    let mut answers = Vec::new(alloc);
    stacks.answer_due(made, untidied.as_slice(), &mut answers)?;
    Ok(answers)
}

// A round's answers, and those of its stacks.
fn put_together(
    alloc: Global,
    parts: Parts,
    answers: RoundAnswers,
    stacks: &Stacks,
    made: u64,
    tidied: Vec<Answer>,
) -> Result<AnswerList, AllocError>
    requires { made < 2 ^ 63 }
    ensures { IfOk result (λ said. said ≡ merged (shown_by made stacks.now) (slots_in parts) answers.fed (answers_at answers.asked.items) answers.compacted ++ tidied.items) }
{
    let mut tidied = tidied;
    let mut said = Vec::new(alloc);
    let mut queues = Queues::of(alloc, answers)?;
    let slots = parts.into_slots(alloc)?;
    add_slots(slots, &mut queues, stacks, made, &mut said)?;
    said.append(&mut tidied)?;
    Ok(AnswerList::from_vec(said))
}

// Compacts stacks, those of a few shards at once, so that what is merged stands beside few of those that it replaces. It
// gives the newest version after that.
fn tidy_stacks<R: Threads + Wait + Sync>(
    rt: &R,
    alloc: Global,
    catalogue: &Catalogue,
    compactor: &mut Compactor,
    due: &[StackCover],
    workers: u32,
) -> Result<Pinned, AllocError>
    requires workers { 1 ≤ workers }
    requires compactor { MayCompact catalogue.now (2 * length due.now + 1) compactor.old }
    requires stacks { AllByRecursion (IsStackOf (settings_of catalogue.now).schema) due.now }
    ensures compactor { HasCompacted catalogue.now (2 * length due.now + 1) compactor.old compactor.new }
    ensures raises { OnOk result (Raises (map id_of due.now) (length (compactor_journal compactor.old)) (compactor_installs compactor.old) (compactor_installs compactor.new)) }
    ensures is { IfOk result (IsVersionOf (settings_of catalogue.now) (compactor_journal compactor.new)) }
    ensures layers { IfOk result (IsLayered (settings_of catalogue.now).schema (compactor_installs compactor.new) (length (compactor_journal compactor.new))) }
{
    let ids = ids_of(alloc, due)?;
    catalogue.compact_stacks(rt, compactor, &ids, workers.min(MOST_MERGES))
}

// The stacks by their numbers.
fn ids_of(alloc: Global, stacks: &[StackCover]) -> Result<Vec<StackId>, AllocError>
    ensures { IfOk result (λ ids. ids.items ≡ map id_of stacks.now) }
{
    let mut ids = Vec::with_capacity(alloc, stacks.len())?;
    for stack in stacks {
        ids.push(StackId {
            vertical: stack.vertical,
            shard: stack.shard,
            replica: stack.replica,
        })?;
    }
    Ok(ids)
}

// Those of some stacks that have more than one layer in a version. The gate is told of the others.
fn layered_in<R: Wait, G: Gate>(
    rt: &R,
    alloc: Global,
    version: &Version,
    stacks: &[StackCover],
    gate: &G,
) -> Result<Vec<StackCover>, AllocError>
    requires { AllByRecursion (IsStackOf version.now.schema) stacks.now }
    ensures { IfOk result (λ layered. layered.items ≡ filter (is_layered version.now) stacks.now) }
{
    let mut layered = Vec::new(alloc);
    for stack in stacks {
        if is_layered(version, stack) {
            layered.push(*stack)?;
        } else {
            gate.at(
                rt,
                Point::Installed(stack.vertical, stack.shard, stack.replica),
            );
        }
    }
    Ok(layered)
}

// Whether a stack has more than one layer in a version.
fn is_layered(version: &Version, stack: &StackCover) -> bool
    requires { IsStackOf version.now.schema stack.now }
    ensures { result ≡ is_layered version.now stack.now }
{
    let index = version.shard(stack.vertical, stack.shard, stack.replica);
    index.layers() > 1
}
