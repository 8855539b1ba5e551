//! Tests of the whole service: scripts through the public calls of `unicorn_round`, with their answers.
#![tactic(auto)]

#[cfg(test)]
mod tests;
