//! Queries are read from their texts: tokens, then the query that they spell, or the first fault.
#![tactic(auto)]

mod atom;
pub mod examples;
mod fault;
pub mod laws;
mod lexer;
mod nodes;
mod open_list;
mod operator;
mod options;
mod parts;
mod query;
mod reader;
mod step;
#[cfg(test)]
mod tests;
mod token;
mod value;

pub use fault::{
    BAD_OPTION, BAD_TOKEN, EXTRA, OPERAND_COUNT, TOO_DEEP, TOO_MANY_NODES, UNCLOSED,
    UNKNOWN_OPERATOR,
};
pub use lexer::tokens;
pub use query::read_query;
pub use token::{Token, TokenKind, TokenList};
