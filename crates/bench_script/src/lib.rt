//! The script that the service measures itself by, made from a seed and a number of people.
#![tactic(auto)]

mod draws;
mod lines;
mod script;
mod source;
#[cfg(test)]
mod tests;

pub use script::bench_script;
pub use source::ScriptSource;
