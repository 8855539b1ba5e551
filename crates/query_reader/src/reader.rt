ghost use Rattle.std.specs.Prelude.{◌≡◌, ◌∷◌, Ok, Err, IfOk, MatchResult};
ghost use Rattle.query_tree.specs.Tree.{operands_of, tree_of};
ghost use Rattle.query_tree.specs.Within.{limit_unless_given};
ghost use Rattle.query_reader.specs.Reading.{add_operand, close, closed, deliver, going_on, node_of, part_with, refuse};
ghost use Rattle.query_reader.specs.Seen.{IsStep, all_open, open_of, part_of, token_of, whole_of};

use crate::fault::BAD_OPTION;
use crate::open_list::{OpenList, Part};
use crate::token::TokenKind;
use query_tree::{DEFAULT_LIMIT, Dialect, JoinNode, ListNode, Mark, Operand, Query, QueryRefusal};
use std::alloc::Global;

/// A token with its column and its bytes.
#[derive(Clone, Copy)]
pub(crate) struct Lexeme<'a> {
    pub column: u32,
    pub kind: TokenKind,
    pub bytes: &'a [u8],
}

/// What was read so far: the open lists, the innermost last; the whole query, once it is read; how
/// many nodes began.
#[derive(Drop)]
pub(crate) struct State {
    pub lists: Vec<OpenList>,
    pub whole: Option<Query>,
    pub nodes: u64,
}

/// The fault of a code at a token.
pub(crate) fn refused(code: u32, token: &Lexeme<'_>) -> Result<State, QueryRefusal>
    ensures step { IsStep (refuse code (token_of token.now)) result }
    ensures fault { result ≡ Err (QueryRefusal.Fault code token.now.column) }
{
    Err(QueryRefusal::Fault {
        code,
        column: token.column,
    })
}

/// The state with an innermost list.
pub(crate) fn within(
    lists: Vec<OpenList>,
    list: OpenList,
    nodes: u64,
) -> Result<State, QueryRefusal>
    ensures { IsStep (going_on (open_of list ∷ all_open lists.items) nodes) result }
{
    let lists = with_list(lists, list)?;
    Ok(State {
        lists,
        whole: None,
        nodes,
    })
}

/// The open lists with one more inside them.
pub(crate) fn with_list(
    mut lists: Vec<OpenList>,
    list: OpenList,
) -> Result<Vec<OpenList>, QueryRefusal>
    ensures { MatchResult result
        (λ all. all_open all.items ≡ open_of list ∷ all_open lists.items)
        (λ e. e ≡ QueryRefusal.Memory) }
{
    match lists.push(list) {
        Ok(()) => Ok(lists),
        Err(_) => Err(QueryRefusal::Memory),
    }
}

/// Gives a node that was read to the innermost list; outside of all lists it is the whole query.
pub(crate) fn deliver(
    mut lists: Vec<OpenList>,
    nodes: u64,
    node: Query,
    mark: Mark,
) -> Result<State, QueryRefusal>
    ensures { IsStep (deliver (all_open lists.items) nodes (tree_of node) mark) result }
{
    match lists.pop() {
        None => Ok(State {
            lists,
            whole: Some(node),
            nodes,
        }),
        Some(list) => {
            let list = with_node(list, node, mark)?;
            within(lists, list, nodes)
        }
    }
}

fn with_node(list: OpenList, node: Query, mark: Mark) -> Result<OpenList, QueryRefusal>
    ensures { MatchResult result
        (λ new. open_of new ≡ record (open_of list) { part = part_with (part_of list.part) (tree_of node) mark })
        (λ e. e ≡ QueryRefusal.Memory) }
{
    let OpenList {
        column,
        part,
        mark: own_mark,
        limit,
        tail,
    } = list;
    let part = part_with_node(part, node, mark)?;
    Ok(OpenList {
        column,
        part,
        mark: own_mark,
        limit,
        tail,
    })
}

fn part_with_node(part: Part, node: Query, mark: Mark) -> Result<Part, QueryRefusal>
    ensures { MatchResult result
        (λ new. part_of new ≡ part_with (part_of part) (tree_of node) mark)
        (λ e. e ≡ QueryRefusal.Memory) }
{
    match part {
        Part::Operands(kind, operands) => {
            let operands = with_operand(operands, node, mark)?;
            Ok(Part::Operands(kind, operands))
        }
        Part::NodeDue(join, prefix) => Ok(Part::NodeRead(join, prefix, node)),
        Part::OperatorDue => Ok(Part::OperatorDue),
        Part::TermDue => Ok(Part::TermDue),
        Part::TermRead(kind, term) => Ok(Part::TermRead(kind, term)),
        Part::PrefixDue(join) => Ok(Part::PrefixDue(join)),
        Part::NodeRead(join, prefix, old) => Ok(Part::NodeRead(join, prefix, old)),
    }
}

#[tactic(auto, using(crate::proofs::Operands::operands_more))]
fn with_operand(
    mut operands: Vec<Operand>,
    node: Query,
    mark: Mark,
) -> Result<Vec<Operand>, QueryRefusal>
    ensures { MatchResult result
        (λ new. operands_of new.items ≡ add_operand (operands_of operands.items) (tree_of node) mark)
        (λ e. e ≡ QueryRefusal.Memory) }
{
    match operands.push(Operand { node, mark }) {
        Ok(()) => Ok(operands),
        Err(_) => Err(QueryRefusal::Memory),
    }
}

/// Ends a list.
pub(crate) fn close(
    dialect: &Dialect,
    list: OpenList,
    lists: Vec<OpenList>,
    nodes: u64,
    token: &Lexeme<'_>,
) -> Result<State, QueryRefusal>
    ensures { IsStep
        (close dialect.now (open_of list) (all_open lists.items) nodes (token_of token.now))
        result }
{
    let mark = list.mark;
    match finished(*lists.allocator(), dialect, list)? {
        Some(node) => deliver(lists, nodes, node, mark),
        None => refused(BAD_OPTION, token),
    }
}

fn finished(alloc: Global, dialect: &Dialect, list: OpenList) -> Result<Option<Query>, QueryRefusal>
    ensures { MatchResult result
        (λ node. whole_of node ≡ node_of dialect.now (open_of list) (part_of list.part))
        (λ e. e ≡ QueryRefusal.Memory) }
{
    let OpenList {
        column,
        part,
        mark: _,
        limit,
        tail: _,
    } = list;
    match part {
        Part::TermRead(kind, term) => Ok(Some(Query::term(kind, term))),
        Part::Operands(kind, operands) => Ok(Some(Query::list(
            kind,
            ListNode { column, operands },
        ))),
        Part::NodeRead(join, prefix, node) => {
            let node = match Box::new(alloc, node) {
                Ok(node) => node,
                Err(_) => return Err(QueryRefusal::Memory),
            };
            Ok(Some(Query::join(
                join,
                JoinNode {
                    column,
                    type_column: prefix.column,
                    type_name: prefix.name,
                    limit: limit.unwrap_or(limit_unless_given(dialect)),
                    node,
                },
            )))
        }
        _ => Ok(None),
    }
}

// The limit of a join that is written without one: the default, or the greatest where that is less.
fn limit_unless_given(dialect: &Dialect) -> u32
    ensures { result ≡ limit_unless_given dialect.now }
{
    dialect.join_limit.min(DEFAULT_LIMIT as u64) as u32
}
