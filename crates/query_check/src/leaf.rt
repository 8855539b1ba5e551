ghost use Rattle.std.specs.Prelude.{◌≡◌, ◌<◌, [], IfOk, MatchOption, MatchResult, None, Ok, Some, length};
ghost use Rattle.uni_schema.specs.Schema.{type_at};
ghost use Rattle.query_check.specs.Plan.{inner_of, seen_node, stated_of};
ghost use Rattle.query_check.specs.Typing.{IsFault, leaf_plan, term_typed};

use crate::checked::{Checked, CheckedNode};
use crate::fault::KEY_KIND;
use crate::lookup::{Found, find_type};
use query_tree::{QueryRefusal, TermKind, TermNode};
use uni_base::Word;
use uni_schema::{Origin, Schema, Store};

/// Types a term, or a prefix term.
pub(crate) fn check_term(
    schema: &Schema,
    kind: TermKind,
    term: &TermNode,
) -> Result<Checked, QueryRefusal>
    ensures typed { MatchResult result
        (λ checked. term_typed schema.now term.now.column kind term.now.type_name term.now.key ≡ Ok (stated_of checked))
        (IsFault (term_typed schema.now term.now.column kind term.now.type_name term.now.key)) }
    ensures inner { IfOk result (λ checked. inner_of checked ≡ []) }
{
    let found = find_type(schema, Store::Index, term.column, &term.type_name)?;
    let vertical = found.def.target;
    match leaf(schema, kind, found, &term.key) {
        Some(node) => Ok(Checked { vertical, node }),
        None => Err(QueryRefusal::Fault {
            code: KEY_KIND,
            column: term.column,
        }),
    }
}

// The node of a term, if its key is one of its type's: only words begin with words.
fn leaf(schema: &Schema, kind: TermKind, found: Found, key: &Word) -> Option<CheckedNode>
    requires within { found.number < length schema.now.types }
    requires known { type_at schema.now found.number ≡ Some found.def }
    ensures { MatchOption result
        (leaf_plan kind (record { number = found.number; def = found.def }) key.now ≡ None)
        (λ node. (leaf_plan kind (record { number = found.number; def = found.def }) key.now ≡ Some (seen_node node).plan)
        × ((seen_node node).inner ≡ [])) }
{
    match (kind, found.def.origin) {
        (TermKind::Whole, _) => Some(CheckedNode::Term {
            type_no: found.number,
            key: schema.key_of(found.number, key)?,
        }),
        (TermKind::Prefix, Origin::Words) => Some(CheckedNode::Prefix {
            type_no: found.number,
            from: *key,
        }),
        (TermKind::Prefix, Origin::Vertical(_)) => None,
    }
}
