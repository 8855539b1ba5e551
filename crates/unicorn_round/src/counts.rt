//! What answers come to.
ghost use Rattle.std.specs.Prelude.{◌≡◌, ◌+◌, ◌++◌, ◌∷◌, [], IfOk, OnOk, length, sum_by};
ghost use Rattle.std.specs.Fmt.{decimal};
ghost use Rattle.std.specs.List.{list_any};
ghost use Rattle.unicorn_round.specs.Bench.{is_lacking};
ghost use Rattle.unicorn_round.specs.Counts.{counts_of, ids_of, no_counts, plus, summary_line};

use itoa::Buffer;
use reply_text::Answer;
use std::alloc::{AllocError, Global};
use uni_base::Text;
use uni_meaning::Hit;

/// The publishes that were made, the queries that were answered, the hits that were shown, and the sum of their ids.
#[derive(Clone, Copy)]
pub(crate) struct Counts {
    pub publishes: u64,
    pub asks: u64,
    pub hits: u64,
    pub ids: u128,
}

impl Counts {
    /// Nothing.
    pub(crate) fn none() -> Counts
        ensures { result ≡ no_counts }
    {
        Counts {
            publishes: 0,
            asks: 0,
            hits: 0,
            ids: 0,
        }
    }

    /// With what answers add. A count that would pass its type's end finds no memory.
    pub(crate) fn with(self, answers: &[Answer]) -> Result<Counts, AllocError>
        ensures { IfOk result (λ counts. counts ≡ plus self (counts_of answers.now)) }
    {
        let mut counts = self;
        for answer in answers {
            counts = counts.with_one(answer)?;
        }
        Ok(counts)
    }

    // With what an answer adds.
    fn with_one(self, answer: &Answer) -> Result<Counts, AllocError>
        ensures { IfOk result (λ counts. counts ≡ plus self (counts_of (answer.now ∷ []))) }
    {
        match answer {
            Answer::Published(_, _) => Ok(Counts {
                publishes: sum(self.publishes, 1)?,
                asks: self.asks,
                hits: self.hits,
                ids: self.ids,
            }),
            Answer::Reply(_, reply) => Ok(Counts {
                publishes: self.publishes,
                asks: sum(self.asks, 1)?,
                hits: sum(self.hits, reply.hits.len() as u64)?,
                ids: with_ids(self.ids, reply.hits.as_slice())?,
            }),
            _ => Ok(self),
        }
    }

    /// The line that tells them, of a script with so many people.
    pub(crate) fn summary(&self, alloc: Global, people: u32) -> Result<Text, AllocError>
        ensures { IfOk result (λ text. text ≡ summary_line people self.now) }
    {
        let mut text = Text::new(alloc);
        add_count(&mut text, b"bench people ", people as u128)?;
        add_count(&mut text, b" publishes ", self.publishes as u128)?;
        add_count(&mut text, b" asks ", self.asks as u128)?;
        add_count(&mut text, b" hits ", self.hits as u128)?;
        add_count(&mut text, b" sum ", self.ids)?;
        text.push(b'\n')?;
        Ok(text)
    }
}

// Adds a count after a label.
fn add_count(text: &mut Text, label: &[u8], count: u128) -> Result<(), AllocError>
    ensures { OnOk result (text.new ≡ text.old ++ (label.now ++ decimal count)) }
{
    let mut buffer = Buffer::new();
    text.extend_from_slice(label)?;
    text.extend_from_slice(buffer.format(count).as_bytes())
}

// A sum, unless it passes 64 bits.
fn sum(a: u64, b: u64) -> Result<u64, AllocError>
    ensures { IfOk result (λ sum. sum ≡ a + b) }
{
    match a.checked_add(b) {
        Some(sum) => Ok(sum),
        None => Err(AllocError),
    }
}

// A sum with the ids of hits, unless it passes 128 bits.
fn with_ids(before: u128, hits: &[Hit]) -> Result<u128, AllocError>
    ensures { IfOk result (λ sum. sum ≡ before + ids_of hits.now) }
{
    let mut ids = before;
    for hit in hits {
        ids = match ids.checked_add(hit.key.id.get() as u128) {
            Some(sum) => sum,
            None => return Err(AllocError),
        };
    }
    Ok(ids)
}

/// Whether an answer says that it is out of memory.
pub(crate) fn any_lacks(answers: &[Answer]) -> bool
    ensures { result ≡ list_any is_lacking answers.now }
{
    answers.iter().any(is_lacking)
}

fn is_lacking(answer: &Answer) -> bool
    ensures { result ≡ is_lacking answer.now }
{
    matches!(answer, Answer::Memory(_))
}
