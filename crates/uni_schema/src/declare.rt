ghost use Rattle.std.specs.Prelude.{◌≡◌, ◌⊎◌, ◌≤◌, ◌<◌, Some, None, OnOk, OnErr, IfErr, false, true, length, map, ◌==◌, ◌||◌};
ghost use Rattle.std.specs.Option.{option_map_or, option_and_then};
ghost use Rattle.uni_schema.specs.Rules.{rules, declares, origin_of, type_told, type_rules, may_deny, is_written};
ghost use Rattle.uni_base.specs.Words.{is_name};
ghost use Rattle.uni_schema.specs.Schema.{with_vertical, with_type, denying, is_vertical, is_type, is_vertical_name, vertical_no, type_no, type_at, denials};

use crate::line::HeaderLine;
use crate::rules::is_word_name;
use crate::{Origin, Owner, Schema, SchemaRefusal, Store, TypeDef, VerticalDef};
use std::alloc::AllocError;
use uni_base::Word;

impl Schema {
    /// Declares what a line says, unless a rule refuses it, which leaves the schema as it was. Of the
    /// format line it is asked whether it has stood before.
    pub(crate) fn declare(
        &mut self,
        line_no: u64,
        begun: bool,
        line: &HeaderLine,
    ) -> Result<(), SchemaRefusal>
        requires { is_written line.now ≡ true }
        ensures allowed { OnOk result (rules line_no begun self.old line.now ≡ None) }
        ensures ok { OnOk result (self.new ≡ declares self.old line.now) }
        ensures refused { IfErr result (λ refusal. (refusal ≡ SchemaRefusal.Memory) ⊎ (rules line_no begun self.old line.now ≡ Some refusal)) }
        ensures err { OnErr result (self.new ≡ self.old) }
    {
        if let Some(refusal) = self.refusal(line_no, begun, line) {
            return Err(refusal);
        }
        self.add(line_no, begun, line)?;
        Ok(())
    }

    // Why a line is refused, by the first rule that it breaks.
    fn refusal(&self, line_no: u64, begun: bool, line: &HeaderLine) -> Option<SchemaRefusal>
        ensures { result ≡ rules line_no begun self.now line.now }
    {
        let misplaced = SchemaRefusal::BadLine(line_no);
        match line {
            HeaderLine::Format(format) => {
                if begun || !(*format == 1 || *format == 2) {
                    Some(misplaced)
                } else {
                    None
                }
            }
            HeaderLine::Vertical(name, shards, replicas) => {
                if begun {
                    self.vertical_refusal(line_no, name, *shards, *replicas)
                } else {
                    Some(misplaced)
                }
            }
            HeaderLine::EdgeType(name, source, target, owner, store) => {
                if begun {
                    self.type_refusal(line_no, name, source, target, *owner, *store)
                } else {
                    Some(misplaced)
                }
            }
            HeaderLine::Deny(name) => {
                if begun {
                    self.deny_refusal(line_no, name)
                } else {
                    Some(misplaced)
                }
            }
            HeaderLine::Begin => { if begun { None } else { Some(misplaced) } }
        }
    }

    // Declares what a line says that no rule refuses.
    fn add(&mut self, line_no: u64, begun: bool, line: &HeaderLine) -> Result<(), AllocError>
        requires allowed { rules line_no begun self.old line.now ≡ None }
        requires written { is_written line.now ≡ true }
        ensures ok { OnOk result (self.new ≡ declares self.old line.now) }
        ensures err { OnErr result (self.new ≡ self.old) }
    {
        match line {
            HeaderLine::Format(format) => {
                self.format = *format as u32;
                Ok(())
            }
            HeaderLine::Vertical(name, shards, replicas) => self.add_vertical(VerticalDef {
                name: *name,
                shards: *shards as u32,
                replicas: *replicas as u32,
            }),
            HeaderLine::EdgeType(name, source, target, owner, store) => {
                let type_def = self.type_told(line_no, name, source, target, *owner, *store);
                self.add_type(type_def)
            }
            HeaderLine::Deny(name) => self.deny(name),
            HeaderLine::Begin => Ok(()),
        }
    }

    // The type that a line declares which no rule refuses.
    fn type_told(
        &self,
        line_no: u64,
        name: &Word,
        source: &Word,
        target: &Word,
        owner: Owner,
        store: Store,
    ) -> TypeDef
        requires { type_rules line_no self.now name.now source.now target.now owner store ≡ None }
        ensures told { result ≡ type_told self.now name.now source.now target.now owner store }
        ensures fits { is_type (length self.now.verticals) result ≡ true }
    {
        let _ = line_no;
        TypeDef {
            name: *name,
            origin: self.origin_of(source),
            target: self.vertical_no(target).unwrap_or(0),
            owner,
            store,
            deny: false,
        }
    }

    // Where edges start by the name of their source, which is `word` or declared.
    fn origin_of(&self, source: &Word) -> Origin
        ensures { result ≡ origin_of self.now source.now }
    {
        if is_word_name(source) {
            Origin::Words
        } else {
            Origin::Vertical(self.vertical_no(source).unwrap_or(0))
        }
    }

    // Declares a vertical, whose name is new.
    fn add_vertical(&mut self, vertical: VerticalDef) -> Result<(), AllocError>
        requires room { length self.old.verticals < 16 }
        requires fresh { vertical_no self.old vertical.name ≡ None }
        requires named { is_vertical_name vertical.name ≡ true }
        requires fits { is_vertical vertical ≡ true }
        ensures ok { OnOk result (self.new ≡ with_vertical self.old vertical) }
        ensures err { OnErr result (self.new ≡ self.old) }
    {
        self.verticals.insert(vertical.name, vertical)?;
        Ok(())
    }

    // Declares a type, whose name is new.
    fn add_type(&mut self, type_def: TypeDef) -> Result<(), AllocError>
        requires room { length self.old.types < 256 }
        requires fresh { type_no self.old type_def.name ≡ None }
        requires named { is_name type_def.name ≡ true }
        requires fits { is_type (length self.old.verticals) type_def ≡ true }
        requires allows { type_def.deny ≡ false }
        ensures ok { OnOk result (self.new ≡ with_type self.old type_def) }
        ensures err { OnErr result (self.new ≡ self.old) }
    {
        self.types.insert(type_def.name, type_def)?;
        Ok(())
    }

    // Lets a type deny.
    fn deny(&mut self, name: &Word) -> Result<(), AllocError>
        requires room { denials self.old.types < 8 }
        requires fits { option_map_or may_deny (option_and_then (type_at self.old) (type_no self.old name.now)) false ≡ true }
        ensures ok { OnOk result (self.new ≡ record self.old { types = denying name.now self.old.types }) }
        ensures err { OnErr result (self.new ≡ self.old) }
    {
        let Some(no) = self.type_no(name) else {
            return Ok(());
        };
        let type_def = TypeDef {
            deny: true,
            ..*self.type_def(no)
        };
        self.types.insert(*name, type_def)?;
        Ok(())
    }
}
