ghost use Rattle.std.specs.Prelude.{◌≡◌, ◌++◌, [], IfOk, OnOk, List, map, option_to_list};
ghost use Rattle.reply_text.specs.Printed.{answers_text};
ghost use Rattle.script_rounds.specs.Entries.{AreItemsOf, Entry};
ghost use Rattle.script_rounds.specs.Fits.{ItemsFit};
ghost use Rattle.unicorn_round.specs.Answerer.{Always, HasAnswered, MayAnswer};
ghost use Rattle.unicorn_round.specs.Answers.{Standing};
ghost use Rattle.unicorn_round.specs.SerialState.{AllAnswered, SerialStands, StandsFor, filled_at, serial_terms};
ghost use Rattle.unicorn_round.specs.Stacks.{tidy, tidy_answers};

use super::Serial;
use reply_text::{Answer, write_answer};
use script_rounds::{Item, ItemList};
use std::alloc::AllocError;
use uni_base::Text;

impl Serial {
    /// Answers a round: the state after it, and the text of its answers.
    pub(crate) fn answer_round(mut self, items: ItemList) -> Result<(Serial, Text), AllocError>
        requires { MayAnswer serial_terms Always SerialStands self items }
        ensures { IfOk result (λ t. HasAnswered serial_terms Always SerialStands self items t.0 t.1) }
    {
        let mut answers = self.answer_items(items.as_slice())?;
        self.tidy(&mut answers)?;
        let text = self.write(answers)?;
        Ok((self, text))
    }

    /// Answers the items of a round, one after the other.
    pub(crate) fn answer_items(&mut self, items: &[Item]) -> Result<Vec<Answer>, AllocError>
        requires { ItemsFit self.old.terms items.now }
        ensures terms { self.new.terms ≡ self.old.terms }
        ensures answered { IfOk result (λ answers. (entries : List Entry) → (s : Standing) → AreItemsOf entries items.now → StandsFor self.old s
            → AllAnswered self.old.terms s entries self.new answers.items) }
    {
        let mut answers = Vec::new(self.alloc);
        for item in items {
            let answer = self.answer(item)?;
            add(&mut answers, answer)?;
        }
        Ok(answers)
    }

    /// Answers for each stack that is due that it is tidied, and tidies it.
    pub(crate) fn tidy(&mut self, answers: &mut Vec<Answer>) -> Result<(), AllocError>
        ensures terms { self.new.terms ≡ self.old.terms }
        ensures tidied { OnOk result (self.new ≡ record self.old { covers = map (tidy self.old.publishes []) self.old.covers }) }
        ensures told { OnOk result (answers.new.items ≡ answers.old.items ++ tidy_answers self.old.publishes [] self.old.covers) }
    {
        self.stacks.answer_due(self.publishes, &[], answers)?;
        self.stacks.tidy(self.publishes, &[]);
        Ok(())
    }

    /// The text of answers, where the stacks stand as at their round's end.
    pub(crate) fn write(&self, answers: Vec<Answer>) -> Result<Text, AllocError>
        ensures { IfOk result (λ text. text ≡ answers_text self.now.terms.schema (map (filled_at self.now.publishes self.now.covers) answers.items)) }
    {
        let mut text = Text::new(self.alloc);
        for answer in answers {
            let answer = self.filled(answer)?;
            write_answer(self.alloc, self.published.schema(), &answer, &mut text)?;
        }
        Ok(text)
    }

    // An answer in which `stats` shows the stacks as they stand.
    fn filled(&self, answer: Answer) -> Result<Answer, AllocError>
        ensures { IfOk result (λ whole. whole ≡ filled_at self.now.publishes self.now.covers answer) }
    {
        match answer {
            Answer::Stats(line, _, _) => {
                let rows = self.stacks.rows(self.publishes)?;
                Ok(Answer::Stats(line, self.publishes, rows))
            }
            other => Ok(other),
        }
    }
}

// An answer at the end of others, if there is one.
fn add(answers: &mut Vec<Answer>, answer: Option<Answer>) -> Result<(), AllocError>
    ensures { OnOk result (answers.new.items ≡ answers.old.items ++ option_to_list answer) }
{
    if let Some(answer) = answer {
        answers.push(answer)?;
    }
    Ok(())
}
