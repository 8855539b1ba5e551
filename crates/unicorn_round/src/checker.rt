ghost use Rattle.std.specs.Prelude.{◌≡◌, ◌⊎◌, ◌++◌, None, Some, IfErr, IfOk, List, OnErr, OnOk, option_to_list};
ghost use Rattle.std.specs.Arc.{arc_value};
ghost use Rattle.script_rounds.specs.Terms.{under};
ghost use Rattle.reply_text.specs.Printed.{answers_text};
ghost use Rattle.script_rounds.specs.Entries.{AreItemsOf, Entry, IsItemOf, change, publish};
ghost use Rattle.script_rounds.specs.Fits.{ItemFits, ItemsFit};
ghost use Rattle.uni_table.specs.Commands.{IsDeclared, next, refuses};
ghost use Rattle.unicorn_round.specs.Answers.{Standing};
ghost use Rattle.unicorn_round.specs.Answerer.{Always, HasAnswered, MayAnswer};
ghost use Rattle.unicorn_round.specs.CheckState.{CheckStands, ChecksFor, EntriesChecked, EntryChecked, check_terms, opening_check};

use crate::answering::Answering;
use crate::refusal::TOO_MANY_PUBLISHES;
use itoa::Buffer;
use reply_text::{Answer, write_answer};
use script_rounds::{Item, ItemList};
use std::alloc::{AllocError, Global};
use std::marker::Model;
use std::sync::Arc;
use uni_base::{Limits, Text};
use uni_schema::Schema;
use uni_table::{Command, FeedRefusal, Table};

/// Takes the lines of a script and says which ones are wrong. No query is answered, and only the table
/// with what is pending is kept.
#[derive(Drop)]
pub(crate) struct Checker {
    alloc: Global,
    limits: Limits,
    table: Table,
    publishes: u64,
}

impl Model for Checker {
    ghost use Rattle.std.specs.Prelude.{◌≡◌, ◌≤◌};
    ghost use Rattle.script_rounds.specs.Terms.{under};
    ghost use Rattle.unicorn_round.specs.CheckState.{CheckState};

    ghost Value = { CheckState };

    ghost view = { λ c. record { terms = under c.limits c.table.schema; table = c.table.contents; publishes = c.publishes } };

    ghost invariant = { λ c. (c.table.limits ≡ c.limits) × (c.publishes ≤ c.limits.publishes) };
}

impl Checker {
    /// Nothing pending.
    pub(crate) fn new(alloc: Global, limits: Limits, schema: Arc<Schema>) -> Checker
        ensures { result ≡ opening_check (under limits (arc_value schema)) }
    {
        Checker {
            alloc,
            limits,
            table: Table::new(alloc, schema, limits),
            publishes: 0,
        }
    }

    /// Checks a round: the state after it, and the lines of what is wrong.
    pub(crate) fn answer_round(mut self, items: ItemList) -> Result<(Checker, Text), AllocError>
        requires { MayAnswer check_terms Always CheckStands self items }
        ensures { IfOk result (λ t. HasAnswered check_terms Always CheckStands self items t.0 t.1) }
    {
        let text = self.check_items(items.as_slice())?;
        Ok((self, text))
    }

    // What is wrong with a line that counts, if anything is, or that it is out of memory.
    fn answer(&mut self, item: &Item) -> Option<Answer>
        requires { ItemFits self.old.terms item.now }
        ensures terms { self.new.terms ≡ self.old.terms }
        ensures checked { (entry : Entry) → (s : Standing) → IsItemOf entry item.now → ChecksFor self.old s
            → EntryChecked self.old.terms s entry self.new (option_to_list result) }
    {
        match item {
            Item::Change(line, command) => self.change(*line, &command.command()),
            Item::Publish(line) => self.publish(*line),
            Item::Ask { .. } | Item::Compact(..) | Item::Stats(_) => None,
            Item::Refused(line, code) => Some(Answer::Refused(*line, *code)),
            Item::Fault(line, code) => Some(Answer::Fault(*line, *code)),
            Item::QueryFault(line, code, column) => Some(Answer::QueryFault(*line, *code, *column)),
            Item::Memory(line) => Some(Answer::Memory(*line)),
        }
    }

    fn change(&mut self, line: u64, command: &Command) -> Option<Answer>
        requires { IsDeclared self.old.terms.schema command.now }
        ensures terms { self.new.terms ≡ self.old.terms }
        ensures checked { (s : Standing) → ChecksFor self.old s → EntryChecked self.old.terms s (change line command.now) self.new (option_to_list result) }
    {
        match self.put(command) {
            Ok(()) => None,
            Err(refusal) => Some(match refusal.code() {
                Some(code) => Answer::Refused(line, code),
                None => Answer::Memory(line),
            }),
        }
    }

    fn put(&mut self, command: &Command) -> Result<(), FeedRefusal>
        requires { IsDeclared self.old.terms.schema command.now }
        ensures taken { OnOk result (refuses self.old.terms.schema self.old.terms.limits self.old.table command.now ≡ None) }
        ensures ok { OnOk result (self.new ≡ record self.old { table = next self.old.terms.schema self.old.table command.now }) }
        ensures refused { IfErr result (λ refusal. (refusal ≡ FeedRefusal.Memory)
            ⊎ (refuses self.old.terms.schema self.old.terms.limits self.old.table command.now ≡ Some refusal)) }
        ensures err { OnErr result (self.new ≡ self.old) }
    {
        self.table.put(command)
    }

    fn publish(&mut self, line: u64) -> Option<Answer>
        ensures terms { self.new.terms ≡ self.old.terms }
        ensures checked { (s : Standing) → ChecksFor self.old s → EntryChecked self.old.terms s (publish line) self.new (option_to_list result) }
    {
        if self.publishes >= self.limits.publishes {
            return Some(Answer::Refused(line, TOO_MANY_PUBLISHES));
        }
        self.publishes += 1;
        self.table.end(self.publishes);
        None
    }

    // The lines of what is wrong with the items of a round.
    fn check_items(&mut self, items: &[Item]) -> Result<Text, AllocError>
        requires { ItemsFit self.old.terms items.now }
        ensures terms { self.new.terms ≡ self.old.terms }
        ensures checked { IfOk result (λ text. (entries : List Entry) → (s : Standing) → AreItemsOf entries items.now → ChecksFor self.old s
            → EntriesChecked self.old.terms s entries self.new text) }
    {
        let mut text = Text::new(self.alloc);
        for item in items {
            let answer = self.answer(item);
            self.add(answer, &mut text)?;
        }
        Ok(text)
    }

    // The lines of an answer, if there is one.
    fn add(&self, answer: Option<Answer>, text: &mut Text) -> Result<(), AllocError>
        ensures { OnOk result (text.new ≡ text.old ++ answers_text self.now.terms.schema (option_to_list answer)) }
    {
        match answer {
            Some(answer) => write_answer(self.alloc, self.table.schema(), &answer, text),
            None => Ok(()),
        }
    }
}

impl Answering for Checker {
    ghost use Rattle.unicorn_round.specs.Answerer.{Always};
    ghost use Rattle.unicorn_round.specs.CheckLaws.{check_claimed, check_nothing};
    ghost use Rattle.unicorn_round.specs.CheckState.{CheckStands, check_terms};
    ghost use Rattle.unicorn_round.specs.Checking.{checked_line};
    ghost use Rattle.unicorn_round.specs.Modes.{Checks};

    ghost terms = { check_terms };

    ghost ready = { Always };

    ghost stands = { CheckStands };

    ghost claims = { Checks };

    ghost closing = { checked_line };

    fn close(&self, lines: u64) -> Result<Text, AllocError> {
        let mut text = Text::new(self.alloc);
        text.extend_from_slice(b"checked ")?;
        text.extend_from_slice(Buffer::new().format(lines).as_bytes())?;
        text.extend_from_slice(b" lines\n")?;
        Ok(text)
    }

    ghost claimed = { check_claimed };

    ghost nothing = { check_nothing };
}
