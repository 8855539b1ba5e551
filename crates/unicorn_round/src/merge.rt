//! The answers of a round in the order of its lines.
ghost use Rattle.std.specs.Prelude.{ℕ, ◌≡◌, ◌<◌, ◌^◌, ◌++◌, ◌∷◌, [], IfOk, List, OnOk, drop, map, option_to_list, take};
ghost use Rattle.reply_text.specs.Printed.{answers_text};
ghost use Rattle.unicorn_round.specs.Queues.{answers_at, shown_by};
ghost use Rattle.unicorn_round.specs.Weaving.{is_of, merged, others, own, popped};
ghost use Rattle.unicorn_round.specs.declared.slot.Slot.{Slot};

use crate::round::RoundAnswers;
use crate::slot::Slot;
use crate::stacks::Stacks;
use reply_text::{Answer, AnswerList, write_answer};
use std::alloc::{AllocError, Global};
use std::collections::VecDeque;
use std::marker::Model;
use uni_base::Text;
use uni_schema::Schema;

/// The answers that are left of a round, by who made them.
#[derive(Drop)]
pub(crate) struct Queues {
    fed: VecDeque<Answer>,
    compacted: VecDeque<Answer>,
    asked: Vec<VecDeque<Answer>>,
}

impl Model for Queues {
    ghost use Rattle.std.specs.Prelude.{map};
    ghost use Rattle.unicorn_round.specs.Queues.{QueuesState};

    ghost Value = { QueuesState };

    ghost view = { λ q. record { fed = q.fed.items; compacted = q.compacted.items; asked = map (λ queue. queue.items) q.asked.items } };
}

impl Queues {
    /// All answers of a round.
    pub(crate) fn of(alloc: Global, answers: RoundAnswers) -> Result<Queues, AllocError>
        ensures { IfOk result (λ queues. queues ≡ record { fed = answers.fed; compacted = answers.compacted; asked = answers.asked.items }) }
    {
        let mut asked = Vec::new(alloc);
        for list in answers.asked {
            asked.push(queue(list))?;
        }
        Ok(Queues {
            fed: queue(answers.fed),
            compacted: queue(answers.compacted),
            asked,
        })
    }

    // The answer of a slot, if it has one, where `stats` shows the stacks as they stand after so many publishes.
    fn next(&mut self, slot: Slot, stacks: &Stacks, made: u64) -> Result<Option<Answer>, AllocError>
        requires { made < 2 ^ 63 }
        ensures { IfOk result (λ answer. (slots : List Slot)
            → option_to_list answer ++ merged (shown_by made stacks.now) slots self.new.fed (answers_at self.new.asked) self.new.compacted
            ≡ merged (shown_by made stacks.now) (slot ∷ slots) self.old.fed (answers_at self.old.asked) self.old.compacted) }
    {
        Ok(match slot {
            Slot::Feed(line) => self.next_fed(line),
            Slot::Ask(place) => self.next_asked(place),
            Slot::Compact => self.compacted.pop_front(),
            Slot::Stats(line) => Some(Answer::Stats(line, made, stacks.rows(made)?)),
            Slot::Refused(line, code) => Some(Answer::Refused(line, code)),
            Slot::Fault(line, code) => Some(Answer::Fault(line, code)),
            Slot::QueryFault(line, code, column) => Some(Answer::QueryFault(line, code, column)),
            Slot::Memory(line) => Some(Answer::Memory(line)),
        })
    }

    // The feeder's next answer, where it is that of a line.
    fn next_fed(&mut self, line: u64) -> Option<Answer>
        ensures answer { option_to_list result ≡ own line self.old.fed }
        ensures rest { self.new ≡ record self.old { fed = others line self.old.fed } }
    {
        if self.fed.front().is_some_and(|answer| is_of(line, answer)) {
            self.fed.pop_front()
        } else {
            None
        }
    }

    // The next answer of the session at a place.
    fn next_asked(&mut self, place: usize) -> Option<Answer>
        ensures answer { option_to_list result ≡ take 1 (answers_at self.old.asked place) }
        ensures rest { (other : ℕ) → answers_at self.new.asked other ≡ popped place (answers_at self.old.asked) other }
        ensures kept { (self.new.fed ≡ self.old.fed) × (self.new.compacted ≡ self.old.compacted) }
    {
        if place >= self.asked.len() {
            return None;
        }
        self.asked[place].pop_front()
    }
}

/// Adds the answers of slots to those that are there, in order.
pub(crate) fn add_slots(
    slots: Vec<Slot>,
    queues: &mut Queues,
    stacks: &Stacks,
    made: u64,
    told: &mut Vec<Answer>,
) -> Result<(), AllocError>
    requires { made < 2 ^ 63 }
    ensures { OnOk result (told.new.items ≡ told.old.items ++ merged (shown_by made stacks.now) slots.items queues.old.fed (answers_at queues.old.asked) queues.old.compacted) }
{
    for slot in slots {
        let answer = queues.next(slot, stacks, made)?;
        add(answer, told)?;
    }
    Ok(())
}

// Adds an answer, if there is one.
fn add(answer: Option<Answer>, told: &mut Vec<Answer>) -> Result<(), AllocError>
    ensures { OnOk result (told.new.items ≡ told.old.items ++ option_to_list answer) }
{
    if let Some(answer) = answer {
        told.push(answer)?;
    }
    Ok(())
}

/// The text of answers.
pub(crate) fn text_of_answers(
    alloc: Global,
    schema: &Schema,
    answers: &[Answer],
) -> Result<Text, AllocError>
    ensures { IfOk result (λ text. text ≡ answers_text schema.now answers.now) }
{
    let mut text = Text::new(alloc);
    for answer in answers {
        write_answer(alloc, schema, answer, &mut text)?;
    }
    Ok(text)
}

// A list from its front on.
fn queue(answers: AnswerList) -> VecDeque<Answer>
    ensures { result.items ≡ answers }
{
    VecDeque::from(answers.into_vec())
}

// Whether an answer of the feeder is that of a line.
fn is_of(line: u64, answer: &Answer) -> bool
    ensures { result ≡ is_of line answer.now }
{
    match answer {
        Answer::Published(of, _) | Answer::Refused(of, _) | Answer::Memory(of) => *of == line,
        _ => false,
    }
}
