ghost use Rattle.std.specs.Prelude.{◌≡◌, ◌<◌, ◌^◌};
ghost use Rattle.query_reader.specs.Reading.{begin_list, begin_term, key_of, node_token, pair_of, prefix_of};
ghost use Rattle.query_reader.specs.Seen.{IsStep, all_open, token_of};

use crate::atom::read_starred;
use crate::fault::{BAD_TOKEN, TOO_DEEP, TOO_MANY_NODES};
use crate::open_list::{OpenList, Part, Tail};
use crate::reader::{Lexeme, State, deliver, refused, within};
use crate::token::TokenKind;
use query_tree::{Dialect, Mark, Query, QueryRefusal, TermKind, TermNode};
use uni_base::{Word, cut_at};

/// The two words of a term.
pub(crate) fn read_pair(kind: TermKind, atom: &[u8]) -> Option<(Word, Word)>
    ensures { result ≡ pair_of kind atom.now }
{
    let (type_name, key) = cut_at(atom, b':')?;
    let type_name = Word::read(type_name)?;
    let key = read_key(kind, key)?;
    Some((type_name, key))
}

// The word of a term's key, which a star follows in a prefix term.
fn read_key(kind: TermKind, text: &[u8]) -> Option<Word>
    ensures { result ≡ key_of kind text.now }
{
    match kind {
        TermKind::Whole => Word::read(text),
        TermKind::Prefix => read_starred(text),
    }
}

/// The word of a prefix.
pub(crate) fn read_prefix(atom: &[u8]) -> Option<Word>
    ensures { result ≡ prefix_of atom.now }
{
    let (type_name, _) = cut_at(atom, b':')?;
    Word::read(type_name)
}

/// Opens a list.
#[tactic(auto, using(crate::proofs::Operands::length_all_open))]
pub(crate) fn begin_list(
    dialect: &Dialect,
    lists: Vec<OpenList>,
    nodes: u64,
    token: &Lexeme<'_>,
) -> Result<State, QueryRefusal>
    ensures { IsStep
        (begin_list dialect.now (all_open lists.items) nodes (token_of token.now))
        result }
{
    if lists.len() as u64 >= dialect.depth {
        return refused(TOO_DEEP, token);
    }
    if nodes >= dialect.nodes {
        return refused(TOO_MANY_NODES, token);
    }
    let list = OpenList {
        column: token.column,
        part: Part::OperatorDue,
        mark: Mark::Plain,
        limit: None,
        tail: Tail::NoOption,
    };
    within(lists, list, nodes + 1)
}

/// Reads a bare term.
pub(crate) fn begin_term(
    dialect: &Dialect,
    lists: Vec<OpenList>,
    nodes: u64,
    token: &Lexeme<'_>,
    kind: TermKind,
) -> Result<State, QueryRefusal>
    ensures { IsStep
        (begin_term dialect.now (all_open lists.items) nodes (token_of token.now) kind)
        result }
{
    if nodes >= dialect.nodes {
        return refused(TOO_MANY_NODES, token);
    }
    match read_pair(kind, token.bytes) {
        None => refused(BAD_TOKEN, token),
        Some((type_name, key)) => {
            let term = TermNode {
                column: token.column,
                type_name,
                key,
            };
            deliver(lists, nodes + 1, Query::term(kind, term), Mark::Plain)
        }
    }
}

/// Reads the token with which a node begins; `missing` is the code of an end or an option there.
pub(crate) fn node_token(
    dialect: &Dialect,
    lists: Vec<OpenList>,
    nodes: u64,
    token: &Lexeme<'_>,
    missing: u32,
) -> Result<State, QueryRefusal>
    ensures { IsStep
        (node_token dialect.now (all_open lists.items) nodes (token_of token.now) missing token.now.kind)
        result }
{
    match token.kind {
        TokenKind::Left => begin_list(dialect, lists, nodes, token),
        TokenKind::Term => begin_term(dialect, lists, nodes, token, TermKind::Whole),
        TokenKind::Stem => begin_term(dialect, lists, nodes, token, TermKind::Prefix),
        TokenKind::Right | TokenKind::Option => refused(missing, token),
        _ => refused(BAD_TOKEN, token),
    }
}
