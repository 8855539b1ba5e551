//! Numbers at random, and texts with such numbers in them.
use std::alloc::Global;
use std::test::Fail;
use uni_base::{Rows, Text};

// Numbers at random, all of which follow from a seed.
#[derive(Clone, Copy, Debug)]
pub(super) struct Draws {
    state: u64,
}

impl Draws {
    pub(super) fn of(seed: u64) -> Draws {
        Draws {
            state: seed.wrapping_mul(0x9e37_79b9_7f4a_7c15).wrapping_add(1),
        }
    }

    // A number below a bound.
    pub(super) fn below(&mut self, bound: u64) -> u64 {
        self.state = self
            .state
            .wrapping_mul(6_364_136_223_846_793_005)
            .wrapping_add(1_442_695_040_888_963_407);
        (self.state >> 33).checked_rem(bound).unwrap_or(0)
    }

    // A number from 1 to a greatest one.
    pub(super) fn up_to(&mut self, most: u64) -> u64 {
        self.below(most).saturating_add(1)
    }

    // Whether one of so many comes.
    pub(super) fn one_in(&mut self, many: u64) -> bool {
        self.below(many) == 0
    }

    pub(super) fn place(&mut self, length: usize) -> usize {
        usize::try_from(self.below(length as u64)).unwrap_or(0)
    }

    pub(super) fn part_of(&mut self, parts: &[&'static [u8]]) -> &'static [u8] {
        match parts.get(self.place(parts.len())) {
            Some(part) => part,
            None => b"",
        }
    }
}

// Adds a form, in which each `%` stands for the next of some numbers and a bar for an LF.
pub(super) fn fill(
    alloc: Global,
    text: &mut Text,
    form: &[u8],
    numbers: &[u64],
) -> Result<(), Fail> {
    let mut left = numbers.iter();
    for byte in form {
        match *byte {
            b'%' => add_number(alloc, text, left.next().copied().unwrap_or(0))?,
            b'|' => text.push(b'\n')?,
            other => text.push(other)?,
        }
    }
    Ok(())
}

fn add_number(alloc: Global, text: &mut Text, number: u64) -> Result<(), Fail> {
    let digits = format!(in alloc; "{number}")?;
    text.extend_from_slice(digits.as_bytes())?;
    Ok(())
}

pub(super) fn filled(alloc: Global, form: &[u8], numbers: &[u64]) -> Result<Text, Fail> {
    let mut text = Rows::new(alloc);
    fill(alloc, &mut text, form, numbers)?;
    Ok(text)
}
