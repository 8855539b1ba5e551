ghost use Rattle.std.specs.Prelude.{◌≡◌, ◌<◌, ◌^◌, ◌++◌, IfOk, OnOk, filter, map};
ghost use Rattle.std.specs.List.{AllByRecursion, range_with_len};
ghost use Rattle.unicorn_round.specs.SchemaStacks.{AreStacks, IsStackOf};
ghost use Rattle.unicorn_round.specs.Stacks.{bare, covered, covering, due_untidied, is_due, is_stack, is_untidied, layers_of, name_of, opening_stacks, rows_of, stacks_in, tidy, tidy_answer, tidy_answers};
ghost use Rattle.unicorn_round.specs.Told.{read_in, stacks_of};

use reply_text::{Answer, StackRow, StackRows};
use shard_index::Version;
use std::alloc::{AllocError, Global};
use std::marker::Model;
use uni_schema::{Schema, VerticalDef};

/// A stack, and how many publishes its base covers.
#[derive(Clone, Copy, Debug, PartialEq, Eq)]
pub struct StackCover {
    pub vertical: u16,
    pub shard: u32,
    pub replica: u32,
    pub covers: u64,
}

impl StackCover {
    // Whether it is the stack of these numbers.
    fn is(&self, vertical: u16, shard: u32, replica: u32) -> bool
        ensures { result ≡ is_stack vertical shard replica self.now }
    {
        self.vertical == vertical && self.shard == shard && self.replica == replica
    }

    // How many layers it has, where so many publishes were made.
    fn layers(&self, made: u64) -> u64
        requires { made < 2 ^ 63 }
        ensures { result ≡ layers_of made self.now }
    {
        (1 + made).saturating_sub(self.covers)
    }

    // Whether it has more layers than its replica may.
    fn is_due(&self, made: u64) -> bool
        requires { made < 2 ^ 63 }
        ensures { result ≡ is_due made self.now }
    {
        8 + (self.replica as u64) < self.layers(made)
    }

    // The stack is compacted where it is the one of these numbers.
    fn cover(&mut self, vertical: u16, shard: u32, replica: u32, number: u64)
        ensures { self.new ≡ covered vertical shard replica number self.old }
    {
        if self.is(vertical, shard, replica) {
            self.covers = number;
        }
    }

    // It covers what its oldest layer does in a version.
    fn read(&mut self, version: &Version)
        requires { IsStackOf version.now.schema self.old }
        ensures { self.new ≡ read_in version.now self.old }
    {
        let index = version.shard(self.vertical, self.shard, self.replica);
        let later = (index.layers() as u64).saturating_sub(1);
        self.covers = version.publishes().saturating_sub(later);
    }

    // Whether it is among those that were left as they were.
    fn is_among(&self, untidied: &[StackCover]) -> bool
        ensures { result ≡ is_untidied (map name_of untidied.now) self.now }
    {
        for stack in untidied {
            if self.is(stack.vertical, stack.shard, stack.replica) {
                return true;
            }
        }
        false
    }

    // What it answers at a round's end, where it is due.
    fn answer(&self, made: u64, untidied: &[StackCover]) -> Answer
        ensures { result ≡ tidy_answer made (map name_of untidied.now) self.now }
    {
        if self.is_among(untidied) {
            Answer::Untidied(self.vertical, self.shard, self.replica)
        } else {
            Answer::Tidied(self.vertical, self.shard, self.replica, made)
        }
    }

    // The stack is tidied where it is due and was not left as it was.
    fn tidy(&mut self, made: u64, untidied: &[StackCover])
        requires { made < 2 ^ 63 }
        ensures { self.new ≡ tidy made (map name_of untidied.now) self.old }
    {
        if self.is_due(made) && !self.is_among(untidied) {
            self.covers = made;
        }
    }
}

/// The stacks of all replicas of all shards, in the order of vertical, shard and replica.
#[derive(Drop)]
pub(crate) struct Stacks {
    alloc: Global,
    covers: Vec<StackCover>,
}

impl Model for Stacks {
    ghost use Rattle.std.specs.Prelude.{List};
    ghost use Rattle.unicorn_round.specs.declared.stacks.StackCover.{StackCover};

    ghost Value = { List StackCover };

    ghost view = { λ s. s.covers.items };
}

impl Stacks {
    /// The stacks of a schema, of which none covers a publish yet.
    pub(crate) fn open(alloc: Global, schema: &Schema) -> Result<Stacks, AllocError>
        ensures opening { IfOk result (λ stacks. stacks ≡ opening_stacks schema.now) }
        ensures are { IfOk result (AreStacks schema.now) }
    {
        let mut covers = Vec::new(alloc);
        for vertical in 0..schema.verticals() {
            add_vertical(&mut covers, vertical, schema.vertical(vertical))?;
        }
        Ok(Stacks { alloc, covers })
    }

    /// The stacks as their layers stand in a version.
    pub(crate) fn of_version(alloc: Global, version: &Version) -> Result<Stacks, AllocError>
        ensures is { IfOk result (λ stacks. stacks ≡ stacks_of version.now) }
        ensures are { IfOk result (AreStacks version.now.schema) }
    {
        let mut stacks = Stacks::open(alloc, version.schema())?;
        stacks.read(version);
        Ok(stacks)
    }

    // Each covers what its oldest layer does in a version.
    fn read(&mut self, version: &Version)
        requires { AllByRecursion (IsStackOf version.now.schema) self.old }
        ensures { self.new ≡ map (read_in version.now) self.old }
    {
        read_all(self.covers.as_mut_slice(), version);
    }

    /// A stack is compacted: it covers so many publishes.
    pub(crate) fn cover(&mut self, vertical: u16, shard: u32, replica: u32, number: u64)
        ensures { self.new ≡ covering vertical shard replica number self.old }
    {
        cover_one(self.covers.as_mut_slice(), vertical, shard, replica, number);
    }

    /// The stacks that are due.
    pub(crate) fn due(&self, made: u64) -> Result<Vec<StackCover>, AllocError>
        requires { made < 2 ^ 63 }
        ensures { IfOk result (λ due. due.items ≡ filter (is_due made) self.now) }
    {
        let mut due = Vec::new(self.alloc);
        for cover in self.covers.as_slice() {
            if cover.is_due(made) {
                due.push(*cover)?;
            }
        }
        Ok(due)
    }

    /// Those of them that are among some stacks.
    pub(crate) fn due_among(
        &self,
        made: u64,
        missed: &[StackCover],
    ) -> Result<Vec<StackCover>, AllocError>
        requires { made < 2 ^ 63 }
        ensures { IfOk result (λ among. map name_of among.items ≡ due_untidied made (map name_of missed.now) self.now) }
    {
        let mut among = Vec::new(self.alloc);
        for cover in self.covers.as_slice() {
            if cover.is_due(made) && cover.is_among(missed) {
                among.push(*cover)?;
            }
        }
        Ok(among)
    }

    /// Answers for each stack that is due that it is tidied, or was left as it was.
    pub(crate) fn answer_due(
        &self,
        made: u64,
        untidied: &[StackCover],
        answers: &mut Vec<Answer>,
    ) -> Result<(), AllocError>
        requires { made < 2 ^ 63 }
        ensures { OnOk result (answers.new.items ≡ answers.old.items ++ tidy_answers made (map name_of untidied.now) self.now) }
    {
        for cover in self.covers.as_slice() {
            if cover.is_due(made) {
                answers.push(cover.answer(made, untidied))?;
            }
        }
        Ok(())
    }

    /// Each stack that is due and was not left as it was covers all publishes.
    pub(crate) fn tidy(&mut self, made: u64, untidied: &[StackCover])
        requires { made < 2 ^ 63 }
        ensures { self.new ≡ map (tidy made (map name_of untidied.now)) self.old }
    {
        tidy_all(self.covers.as_mut_slice(), made, untidied);
    }

    /// Each stack with its layers.
    pub(crate) fn rows(&self, made: u64) -> Result<StackRows, AllocError>
        requires { made < 2 ^ 63 }
        ensures { IfOk result (λ rows. rows ≡ rows_of made self.now) }
    {
        let mut rows = StackRows::new(self.alloc);
        for cover in self.covers.as_slice() {
            rows.push(StackRow {
                vertical: cover.vertical,
                shard: cover.shard,
                replica: cover.replica,
                layers: cover.layers(made),
            })?;
        }
        Ok(rows)
    }
}

fn read_all(covers: &mut [StackCover], version: &Version)
    requires { AllByRecursion (IsStackOf version.now.schema) covers.old }
    ensures { covers.new ≡ map (read_in version.now) covers.old }
{
    for cover in covers.iter_mut() {
        cover.read(version);
    }
}

fn cover_one(covers: &mut [StackCover], vertical: u16, shard: u32, replica: u32, number: u64)
    ensures { covers.new ≡ covering vertical shard replica number covers.old }
{
    for cover in covers.iter_mut() {
        cover.cover(vertical, shard, replica, number);
    }
}

fn tidy_all(covers: &mut [StackCover], made: u64, untidied: &[StackCover])
    requires { made < 2 ^ 63 }
    ensures { covers.new ≡ map (tidy made (map name_of untidied.now)) covers.old }
{
    for cover in covers.iter_mut() {
        cover.tidy(made, untidied);
    }
}

// The stacks of a vertical at the end of a list.
fn add_vertical(
    covers: &mut Vec<StackCover>,
    vertical: u16,
    def: &VerticalDef,
) -> Result<(), AllocError>
    ensures { OnOk result (covers.new.items ≡ covers.old.items ++ stacks_in vertical def.now) }
{
    for shard in 0..def.shards {
        add_shard(covers, vertical, shard, def.replicas)?;
    }
    Ok(())
}

// Those of a shard.
fn add_shard(
    covers: &mut Vec<StackCover>,
    vertical: u16,
    shard: u32,
    replicas: u32,
) -> Result<(), AllocError>
    ensures { OnOk result (covers.new.items ≡ covers.old.items ++ map (bare vertical shard) (range_with_len 0 replicas)) }
{
    for replica in 0..replicas {
        covers.push(StackCover {
            vertical,
            shard,
            replica,
            covers: 0,
        })?;
    }
    Ok(())
}
