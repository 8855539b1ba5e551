ghost use Rattle.std.specs.Prelude.{◌≡◌};
ghost use Rattle.query_tree.specs.Tree.{operands_of};
ghost use Rattle.query_reader.specs.Reading.{first_part, least_operands, most_operands, operands_token, operator_token, pair_of, prefix_token, term_found, term_token, with_part};
ghost use Rattle.query_reader.specs.Seen.{IsStep, all_open, open_of, part_of, token_of};

use crate::fault::{BAD_TOKEN, OPERAND_COUNT, UNKNOWN_OPERATOR};
use crate::nodes::{begin_list, begin_term, read_pair, read_prefix};
use crate::open_list::{OpenList, Part, Prefix};
use crate::operator::{Operator, read_operator};
use crate::options::option_token;
use crate::reader::{Lexeme, State, close, refused, with_list, within};
use crate::token::TokenKind;
use query_tree::{Dialect, JoinKind, ListKind, QueryRefusal, TermKind, TermNode};
use std::alloc::Global;

fn with_part(
    mut list: OpenList,
    lists: Vec<OpenList>,
    nodes: u64,
    part: Part,
) -> Result<State, QueryRefusal>
    ensures { IsStep (with_part (open_of list) (all_open lists.items) nodes (part_of part)) result }
{
    list.part = part;
    within(lists, list, nodes)
}

fn first_part(alloc: Global, operator: Operator) -> Part
    ensures { part_of result ≡ first_part operator }
{
    match operator {
        Operator::Term => Part::TermDue,
        Operator::List(kind) => Part::Operands(kind, Vec::new(alloc)),
        Operator::Join(join) => Part::PrefixDue(join),
    }
}

/// Reads an operator's name.
pub(crate) fn operator_token(
    list: OpenList,
    lists: Vec<OpenList>,
    nodes: u64,
    token: &Lexeme<'_>,
) -> Result<State, QueryRefusal>
    ensures { IsStep
        (operator_token (open_of list) (all_open lists.items) nodes (token_of token.now) token.now.kind)
        result }
{
    if token.kind != TokenKind::Name {
        return refused(UNKNOWN_OPERATOR, token);
    }
    match read_operator(token.bytes) {
        Some(operator) => {
            let part = first_part(*lists.allocator(), operator);
            with_part(list, lists, nodes, part)
        }
        None => refused(UNKNOWN_OPERATOR, token),
    }
}

/// Reads the atom of a term in parentheses.
pub(crate) fn term_token(
    list: OpenList,
    lists: Vec<OpenList>,
    nodes: u64,
    token: &Lexeme<'_>,
) -> Result<State, QueryRefusal>
    ensures { IsStep
        (term_token (open_of list) (all_open lists.items) nodes (token_of token.now) token.now.kind)
        result }
{
    match token.kind {
        TokenKind::Term => read_term(list, lists, nodes, token, TermKind::Whole),
        TokenKind::Stem => read_term(list, lists, nodes, token, TermKind::Prefix),
        TokenKind::Right => refused(OPERAND_COUNT, token),
        _ => refused(BAD_TOKEN, token),
    }
}

// Reads the two words of a term.
fn read_term(
    list: OpenList,
    lists: Vec<OpenList>,
    nodes: u64,
    token: &Lexeme<'_>,
    kind: TermKind,
) -> Result<State, QueryRefusal>
    ensures { IsStep
        (term_found (open_of list) (all_open lists.items) nodes (token_of token.now) kind (pair_of kind token.now.bytes.now))
        result }
{
    match read_pair(kind, token.bytes) {
        Some((type_name, key)) => {
            let term = TermNode {
                column: token.column,
                type_name,
                key,
            };
            with_part(list, lists, nodes, Part::TermRead(kind, term))
        }
        None => refused(BAD_TOKEN, token),
    }
}

/// Reads a join's prefix.
pub(crate) fn prefix_token(
    list: OpenList,
    lists: Vec<OpenList>,
    nodes: u64,
    token: &Lexeme<'_>,
    join: JoinKind,
) -> Result<State, QueryRefusal>
    ensures { IsStep
        (prefix_token (open_of list) (all_open lists.items) nodes (token_of token.now) join token.now.kind)
        result }
{
    match token.kind {
        TokenKind::Prefix => match read_prefix(token.bytes) {
            Some(name) => {
                let prefix = Prefix {
                    column: token.column,
                    name,
                };
                with_part(list, lists, nodes, Part::NodeDue(join, prefix))
            }
            None => refused(BAD_TOKEN, token),
        },
        TokenKind::Right | TokenKind::Option => refused(OPERAND_COUNT, token),
        _ => refused(BAD_TOKEN, token),
    }
}

fn least_operands(kind: ListKind) -> u64
    ensures { result ≡ least_operands kind }
{
    if kind == ListKind::Difference { 2 } else { 1 }
}

fn most_operands(dialect: &Dialect, kind: ListKind) -> u64
    ensures { result ≡ most_operands dialect.now kind }
{
    match kind {
        ListKind::Difference => 2,
        _ => dialect.operands,
    }
}

/// Reads what stands after an operator or an operand; `count` operands were read.
pub(crate) fn operands_token(
    dialect: &Dialect,
    list: OpenList,
    lists: Vec<OpenList>,
    nodes: u64,
    token: &Lexeme<'_>,
    kind: ListKind,
    count: u64,
) -> Result<State, QueryRefusal>
    ensures { IsStep
        (operands_token dialect.now (open_of list) (all_open lists.items) nodes (token_of token.now) kind count token.now.kind)
        result }
{
    match token.kind {
        TokenKind::Left | TokenKind::Term | TokenKind::Stem
            if count >= most_operands(dialect, kind) => { refused(OPERAND_COUNT, token) }
        TokenKind::Right | TokenKind::Option if count < least_operands(kind) => {
            refused(OPERAND_COUNT, token)
        }
        TokenKind::Left => {
            let lists = with_list(lists, list)?;
            begin_list(dialect, lists, nodes, token)
        }
        TokenKind::Term => {
            let lists = with_list(lists, list)?;
            begin_term(dialect, lists, nodes, token, TermKind::Whole)
        }
        TokenKind::Stem => {
            let lists = with_list(lists, list)?;
            begin_term(dialect, lists, nodes, token, TermKind::Prefix)
        }
        TokenKind::Right => close(dialect, list, lists, nodes, token),
        TokenKind::Option => option_token(dialect, list, lists, nodes, token),
        _ => refused(BAD_TOKEN, token),
    }
}
