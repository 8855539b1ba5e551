ghost use Rattle.std.specs.Prelude.{◌≡◌, ◌<◌, ◌^◌, length};
ghost use Rattle.query_reader.specs.Reading.{after_option, end_token, is_join, limit_value, mark_value, may_take, option_token, parent_kind, value_token, with_limit, with_mark};
ghost use Rattle.query_reader.specs.Seen.{IsStep, all_open, open_of, part_of, token_of};

use crate::fault::{BAD_OPTION, BAD_TOKEN, OPERAND_COUNT};
use crate::open_list::{OpenList, Part, Tail};
use crate::reader::{Lexeme, State, close, refused, within};
use crate::token::TokenKind;
use crate::value::{OptionName, read_hits, read_option, read_weight};
use query_tree::{Dialect, ListKind, Mark, MarkKind, QueryRefusal};
use uni_base::read_between;

/// Reads an option's name.
pub(crate) fn option_token(
    dialect: &Dialect,
    list: OpenList,
    lists: Vec<OpenList>,
    nodes: u64,
    token: &Lexeme<'_>,
) -> Result<State, QueryRefusal>
    ensures { IsStep
        (option_token dialect.now (open_of list) (all_open lists.items) nodes (token_of token.now))
        result }
{
    match read_option(token.bytes) {
        Some(name) if may_take(dialect.format, name, &list, parent_kind(&lists)) => {
            let mut list = list;
            list.tail = Tail::ValueDue(name);
            within(lists, list, nodes)
        }
        _ => refused(BAD_OPTION, token),
    }
}

// A limit may stand once in a join, a mark once in an operand of a list that takes it.
fn may_take(format: u32, name: OptionName, list: &OpenList, parent: Option<ListKind>) -> bool
    ensures { result ≡ may_take format name (open_of list.now) parent }
{
    match (name, parent) {
        (OptionName::Limit, _) => is_join(&list.part) && list.limit.is_none(),
        (OptionName::Mark(kind), Some(operator)) => {
            operator.may_mark(format, kind) && list.mark == Mark::Plain
        }
        (OptionName::Mark(_), None) => false,
    }
}

fn is_join(part: &Part) -> bool
    ensures { result ≡ is_join (part_of part.now) }
{
    matches!(part, Part::NodeRead(_, _, _))
}

// The operator of the innermost list, if it is one over operands.
fn parent_kind(lists: &Vec<OpenList>) -> Option<ListKind>
    ensures { result ≡ parent_kind (all_open lists.now.items) }
{
    match lists.last() {
        Some(list) => match &list.part {
            Part::Operands(kind, _) => Some(*kind),
            _ => None,
        },
        None => None,
    }
}

/// Reads an option's value.
pub(crate) fn value_token(
    dialect: &Dialect,
    list: OpenList,
    lists: Vec<OpenList>,
    nodes: u64,
    token: &Lexeme<'_>,
    name: OptionName,
) -> Result<State, QueryRefusal>
    requires { dialect.now.join_limit < 2 ^ 32 }
    ensures { IsStep
        (value_token dialect.now (open_of list) (all_open lists.items) nodes (token_of token.now) name)
        result }
{
    match name {
        OptionName::Limit => with_limit(list, lists, nodes, token, limit_value(dialect, token)),
        OptionName::Mark(kind) => with_mark(list, lists, nodes, token, mark_value(kind, token)),
    }
}

// The greatest number of hits that a join follows, if the token says one.
fn limit_value(dialect: &Dialect, token: &Lexeme<'_>) -> Option<u32>
    requires { dialect.now.join_limit < 2 ^ 32 }
    ensures { result ≡ limit_value dialect.now (token_of token.now) token.now.kind }
{
    if token.kind != TokenKind::Number {
        return None;
    }
    let limit = read_between(token.bytes, 1, dialect.join_limit)?;
    Some(limit as u32)
}

// The mark that an option's value says.
fn mark_value(kind: MarkKind, token: &Lexeme<'_>) -> Option<Mark>
    ensures { result ≡ mark_value kind (token_of token.now) token.now.kind }
{
    match (kind, token.kind) {
        (MarkKind::Hits, TokenKind::Number) => read_hits(token.bytes),
        (MarkKind::Weight, TokenKind::Fraction) => read_weight(token.bytes),
        _ => None,
    }
}

fn with_limit(
    mut list: OpenList,
    lists: Vec<OpenList>,
    nodes: u64,
    token: &Lexeme<'_>,
    limit: Option<u32>,
) -> Result<State, QueryRefusal>
    ensures { IsStep
        (with_limit (open_of list) (all_open lists.items) nodes (token_of token.now) limit)
        result }
{
    match limit {
        Some(limit) => {
            list.limit = Some(limit);
            list.tail = Tail::OptionRead;
            within(lists, list, nodes)
        }
        None => refused(BAD_OPTION, token),
    }
}

fn with_mark(
    mut list: OpenList,
    lists: Vec<OpenList>,
    nodes: u64,
    token: &Lexeme<'_>,
    mark: Option<Mark>,
) -> Result<State, QueryRefusal>
    ensures { IsStep
        (with_mark (open_of list) (all_open lists.items) nodes (token_of token.now) mark)
        result }
{
    match mark {
        Some(mark) => {
            list.mark = mark;
            list.tail = Tail::OptionRead;
            within(lists, list, nodes)
        }
        None => refused(BAD_OPTION, token),
    }
}

/// Reads what stands where a list may end.
pub(crate) fn end_token(
    dialect: &Dialect,
    list: OpenList,
    lists: Vec<OpenList>,
    nodes: u64,
    token: &Lexeme<'_>,
) -> Result<State, QueryRefusal>
    ensures { IsStep
        (end_token dialect.now (open_of list) (all_open lists.items) nodes (token_of token.now) token.now.kind)
        result }
{
    match token.kind {
        TokenKind::Right => close(dialect, list, lists, nodes, token),
        TokenKind::Option => option_token(dialect, list, lists, nodes, token),
        TokenKind::Left | TokenKind::Term | TokenKind::Stem => { refused(OPERAND_COUNT, token) }
        _ => refused(BAD_TOKEN, token),
    }
}

/// Reads what stands after an option and its value.
pub(crate) fn after_option(
    dialect: &Dialect,
    list: OpenList,
    lists: Vec<OpenList>,
    nodes: u64,
    token: &Lexeme<'_>,
) -> Result<State, QueryRefusal>
    ensures { IsStep
        (after_option dialect.now (open_of list) (all_open lists.items) nodes (token_of token.now) token.now.kind)
        result }
{
    match token.kind {
        TokenKind::Right => close(dialect, list, lists, nodes, token),
        TokenKind::Option => option_token(dialect, list, lists, nodes, token),
        _ => refused(BAD_OPTION, token),
    }
}
