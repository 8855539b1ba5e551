ghost use Rattle.std.specs.Prelude.{◌≡◌, ◌≤◌, ◌<◌, ◌^◌, ◌-◌, length, Ok, Some, IfOk, MatchResult};
ghost use Rattle.query_check.specs.Plan.{stated_of};
ghost use Rattle.query_check.specs.Typing.{IsFault};
ghost use Rattle.script_rounds.specs.Asks.{first_field, parts_of, query_of, ask_entry, query_entry, most_hits};
ghost use Rattle.script_rounds.specs.Entries.{IsItemOf};
ghost use Rattle.script_rounds.specs.Fits.{IsQuery, ItemFits};

use crate::fault::{BAD_LIMIT, BAD_SESSION, BAD_VIEWER};
use crate::item::Item;
use crate::terms::Terms;
use query_check::{Checked, check};
use query_reader::read_query;
use query_tree::QueryRefusal;
use uni_base::{EntityId, cut_at, read_between, read_id};

/// What stands before the first space of a text, and what after it: all of it, and nothing, where it has
/// none.
pub(crate) fn first_field(text: &[u8]) -> (&[u8], &[u8])
    ensures parts { (result.0.now, result.1.now) ≡ first_field text.now }
    ensures short { length result.1.now ≤ length text.now }
{
    match cut_at(text, b' ') {
        Some(parts) => parts,
        None => (text, &[]),
    }
}

/// `ask VIEWER SESSION LIMIT QUERY`, after its first word.
#[tactic(auto, unfolding(crate::specs::Asks::ask_entry))]
pub(crate) fn read_ask(terms: &Terms, number: u64, text: &[u8]) -> Item
    requires { length text.now ≤ 65536 }
    ensures item { IsItemOf (ask_entry terms.now number (parts_of text.now)) result }
    ensures fits { ItemFits terms.now result }
{
    let (viewer, rest) = first_field(text);
    let (session, rest) = first_field(rest);
    let (limit, query) = first_field(rest);
    let Some(viewer) = read_id(viewer) else {
        return Item::Fault(number, BAD_VIEWER);
    };
    let Some(session) = read_between(session, 1, terms.limits().sessions) else {
        return Item::Fault(number, BAD_SESSION);
    };
    let Some(limit) = read_between(limit, 1, terms.most_hits()) else {
        return Item::Fault(number, BAD_LIMIT);
    };
    ask_query(terms, number, session as u32, viewer, limit as u32, query)
}

// An `ask` by its query, which may be at fault.
fn ask_query(
    terms: &Terms,
    line: u64,
    session: u32,
    viewer: EntityId,
    limit: u32,
    text: &[u8],
) -> Item
    requires short { length text.now ≤ 65536 }
    requires some_session { 1 ≤ session }
    requires session { session ≤ terms.now.limits.sessions }
    requires some_hits { 1 ≤ limit }
    requires limit { limit ≤ most_hits terms.now }
    ensures item { IsItemOf (query_entry line session viewer limit (query_of terms.now text.now)) result }
    ensures fits { ItemFits terms.now result }
{
    match typed_query(terms, text) {
        Ok(query) => match Box::new(terms.alloc(), query) {
            Ok(query) => Item::Ask {
                line,
                session,
                viewer,
                limit,
                query,
            },
            Err(_) => Item::Memory(line),
        },
        Err(QueryRefusal::Fault { code, column }) => Item::QueryFault(line, code, column),
        Err(QueryRefusal::Memory) => Item::Memory(line),
    }
}

// The query that a text is, or its first fault.
fn typed_query(terms: &Terms, text: &[u8]) -> Result<Checked, QueryRefusal>
    requires { length text.now ≤ 65536 }
    ensures typed { MatchResult result
        (λ query. query_of terms.now text.now ≡ Ok (stated_of query))
        (IsFault (query_of terms.now text.now)) }
    ensures is { IfOk result (IsQuery terms.now) }
{
    let query = read_query(terms.alloc(), terms.limits(), terms.schema().format(), text)?;
    check(terms.alloc(), terms.schema(), terms.limits(), &query)
}
