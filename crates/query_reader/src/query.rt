ghost use Rattle.std.specs.Prelude.{◌≡◌, ◌-◌, ◌<◌, ◌≤◌, ◌^◌, length, IfOk, MatchResult};
ghost use Rattle.uni_base.specs.StandardLimits.{IsWithinStandard};
ghost use Rattle.query_tree.specs.Tree.{Tree, tree_of};
ghost use Rattle.query_tree.specs.Dialects.{IsFormat, dialect_of};
ghost use Rattle.query_tree.specs.Within.{IsWithin};
ghost use Rattle.query_reader.specs.Grammar.{IsQueryRefusal, QuerySpells};
ghost use Rattle.query_reader.specs.Reading.{ended, lexeme_of, text_read};
ghost use Rattle.query_reader.specs.Seen.{IsAnswer, token_of, whole_of};

use crate::fault::UNCLOSED;
use crate::lexer::tokens;
use crate::reader::{Lexeme, State};
use crate::step::step;
use crate::token::Token;
use query_tree::{Dialect, Query, QueryRefusal};
use std::alloc::Global;
use uni_base::Limits;

/// Reads a query from its text. The format is 1 or 2.
pub fn read_query(
    alloc: Global,
    limits: &Limits,
    format: u32,
    text: &[u8],
) -> Result<Query, QueryRefusal>
    requires limits { IsWithinStandard limits.now }
    requires format { IsFormat format }
    requires short { length text.now < 2 ^ 32 - 1 }
    // A query is read exactly where the text spells it, and the fault is exactly the text's first one.
    ensures exact { MatchResult result
        (λ query. QuerySpells (dialect_of limits.now format) text.now (tree_of query))
        (IsQueryRefusal (dialect_of limits.now format) text.now) }

    // A text that spells a query is read as that query: only want of memory refuses it.
    ensures spells { (tree : Tree) → QuerySpells (dialect_of limits.now format) text.now tree
        → MatchResult result (λ query. tree_of query ≡ tree) (λ refusal. refusal ≡ QueryRefusal.Memory) }

    // What is read is within the dialect: its names, its options, its size and its depth.
    ensures within { IfOk result (λ query. IsWithin (dialect_of limits.now format) (tree_of query)) }

    // The same from the left: the query that the tokens give, or their first fault.
    ensures reading { IsAnswer (text_read (dialect_of limits.now format) text.now) result }
{
    read(alloc, &Dialect::new(limits, format), text)
}

// Reads a query token by token.
fn read(alloc: Global, dialect: &Dialect, text: &[u8]) -> Result<Query, QueryRefusal>
    requires limit { dialect.now.join_limit < 2 ^ 32 }
    requires format { IsFormat dialect.now.format }
    requires short { length text.now < 2 ^ 32 - 1 }
    ensures { IsAnswer (text_read dialect.now text.now) result }
{
    let tokens = tokens(alloc, dialect.format, text)?;
    let mut state = State {
        lists: Vec::new(alloc),
        whole: None,
        nodes: 0,
    };
    for token in tokens.as_slice() {
        let lexeme = lexeme(text, *token);
        state = step(dialect, state, &lexeme)?;
    }
    whole(state, text.len() as u32 + 1)
}

// A token with its column and its bytes.
fn lexeme(text: &[u8], token: Token) -> Lexeme<'_>
    requires ordered { token.from ≤ token.to }
    requires inside { token.to ≤ length text.now }
    requires short { length text.now < 2 ^ 32 - 1 }
    ensures { token_of result ≡ lexeme_of text.now token }
{
    Lexeme {
        column: token.from + 1,
        kind: token.kind,
        bytes: &text[token.from as usize..token.to as usize],
    }
}

// The query that was read, or the fault at the text's end.
fn whole(state: State, end: u32) -> Result<Query, QueryRefusal>
    ensures { IsAnswer (ended end (whole_of state.whole)) result }
{
    let State {
        lists: _,
        whole,
        nodes: _,
    } = state;
    match whole {
        Some(query) => Ok(query),
        None => Err(QueryRefusal::Fault {
            code: UNCLOSED,
            column: end,
        }),
    }
}
