ghost use Rattle.std.specs.Prelude.{◌≡◌, ◌++◌, ◌*◌, IfOk, length, option_to_list};
ghost use Rattle.std.specs.List.{AllByRecursion};
ghost use Rattle.round_feed.specs.Fits.{CompactFits};
ghost use Rattle.version_catalog.specs.Seats.{compactor_installs, compactor_journal};
ghost use Rattle.round_feed.specs.Compacted.{AreCompacted, compact_entries, compact_entry, installs_by};
ghost use Rattle.round_feed.specs.Seats.{HasCompacted, MayCompact, terms_of};

use crate::answers::add_answer;
use rack_aggregate::{Gate, Point};
use reply_text::{Answer, AnswerList};
use script_rounds::{Item, ItemList};
use std::alloc::{AllocError, Global};
use std::sync::Wait;
use version_catalog::{Catalogue, Compactor};

/// Compacts the stacks that a round's lines name, in order, and passes over its other lines. Each answers how
/// many publishes its stack then covers in one layer, or that it found no memory and left the stack as it was.
pub fn compact_round<R: Wait, G: Gate>(
    rt: &R,
    alloc: Global,
    catalogue: &Catalogue,
    compactor: &mut Compactor,
    items: &ItemList,
    gate: &G,
) -> Result<AnswerList, AllocError>
    requires may { MayCompact catalogue.now (2 * length items.now) compactor.old }
    requires fit { AllByRecursion (CompactFits (terms_of catalogue.now)) items.now }
    ensures taken { HasCompacted catalogue.now (2 * length items.now) compactor.old compactor.new }
    ensures compacted { IfOk result (AreCompacted (length (compactor_journal compactor.old)) (length (compactor_journal compactor.new)) (compact_entries items.now)) }
    ensures installed { IfOk result (λ answers. compactor_installs compactor.new ≡ compactor_installs compactor.old ++ installs_by (compact_entries items.now) answers) }
{
    let mut answers = AnswerList::new(alloc);
    for item in items.as_slice() {
        let answer = compact_line(rt, catalogue, compactor, item, gate);
        add_answer(&mut answers, answer)?;
    }
    Ok(answers)
}

// Compacts the stack of a line, if it names one.
fn compact_line<R: Wait, G: Gate>(
    rt: &R,
    catalogue: &Catalogue,
    compactor: &mut Compactor,
    item: &Item,
    gate: &G,
) -> Option<Answer>
    requires may { MayCompact catalogue.now 2 compactor.old }
    requires fits { CompactFits (terms_of catalogue.now) item.now }
    ensures taken { HasCompacted catalogue.now 2 compactor.old compactor.new }
    ensures compacted { AreCompacted (length (compactor_journal compactor.old)) (length (compactor_journal compactor.new)) (option_to_list (compact_entry item.now)) (option_to_list result) }
    ensures installed { compactor_installs compactor.new ≡ compactor_installs compactor.old ++ installs_by (option_to_list (compact_entry item.now)) (option_to_list result) }
{
    let Item::Compact(line, vertical, shard, replica) = item else {
        return None;
    };
    Some(
        match catalogue.compact(rt, compactor, *vertical, *shard, *replica) {
            Ok(number) => {
                gate.at(rt, Point::Installed(*vertical, *shard, *replica));
                Answer::Compacted(*line, number)
            }
            Err(_) => Answer::Memory(*line),
        },
    )
}
