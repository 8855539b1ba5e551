ghost use Rattle.std.specs.Prelude.{◌≡◌, ◌<◌, ◌^◌};
ghost use Rattle.query_reader.specs.Reading.{part_token, step, tail_token};
ghost use Rattle.query_reader.specs.Seen.{IsStep, all_open, open_of, part_of, state_of, token_of};

use crate::fault::{BAD_TOKEN, EXTRA, OPERAND_COUNT};
use crate::nodes::node_token;
use crate::open_list::{OpenList, Part, Tail};
use crate::options::{after_option, end_token, value_token};
use crate::parts::{operands_token, operator_token, prefix_token, term_token};
use crate::reader::{Lexeme, State, refused, with_list};
use query_tree::{Dialect, QueryRefusal};

/// Reads one more token.
pub(crate) fn step(
    dialect: &Dialect,
    state: State,
    token: &Lexeme<'_>,
) -> Result<State, QueryRefusal>
    requires { dialect.now.join_limit < 2 ^ 32 }
    ensures { IsStep (step dialect.now (state_of state) (token_of token.now)) result }
{
    let State {
        mut lists,
        whole,
        nodes,
    } = state;
    match lists.pop() {
        Some(list) => tail_token(dialect, list, lists, nodes, token),
        None => {
            if whole.is_some() {
                refused(EXTRA, token)
            } else {
                node_token(dialect, lists, nodes, token, BAD_TOKEN)
            }
        }
    }
}

// Reads a token in the innermost list.
fn tail_token(
    dialect: &Dialect,
    list: OpenList,
    lists: Vec<OpenList>,
    nodes: u64,
    token: &Lexeme<'_>,
) -> Result<State, QueryRefusal>
    requires { dialect.now.join_limit < 2 ^ 32 }
    ensures { IsStep
        (tail_token dialect.now (open_of list) (all_open lists.items) nodes (token_of token.now) list.tail)
        result }
{
    match list.tail {
        Tail::NoOption => part_token(dialect, list, lists, nodes, token),
        Tail::ValueDue(name) => value_token(dialect, list, lists, nodes, token, name),
        Tail::OptionRead => after_option(dialect, list, lists, nodes, token),
    }
}

// Reads a token in a list without options.
#[tactic(auto, using(crate::proofs::Operands::operands_counted))]
fn part_token(
    dialect: &Dialect,
    list: OpenList,
    lists: Vec<OpenList>,
    nodes: u64,
    token: &Lexeme<'_>,
) -> Result<State, QueryRefusal>
    ensures { IsStep
        (part_token dialect.now (open_of list) (all_open lists.items) nodes (token_of token.now) (part_of list.part))
        result }
{
    match &list.part {
        Part::OperatorDue => operator_token(list, lists, nodes, token),
        Part::TermDue => term_token(list, lists, nodes, token),
        Part::TermRead(_, _) => end_token(dialect, list, lists, nodes, token),
        Part::Operands(kind, operands) => {
            let kind = *kind;
            let count = operands.len() as u64;
            operands_token(dialect, list, lists, nodes, token, kind, count)
        }
        Part::PrefixDue(join) => {
            let join = *join;
            prefix_token(list, lists, nodes, token, join)
        }
        Part::NodeDue(_, _) => {
            let lists = with_list(lists, list)?;
            node_token(dialect, lists, nodes, token, OPERAND_COUNT)
        }
        Part::NodeRead(_, _, _) => end_token(dialect, list, lists, nodes, token),
    }
}
