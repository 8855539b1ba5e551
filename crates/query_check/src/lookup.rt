ghost use Rattle.std.specs.Prelude.{◌≡◌, ◌<◌, Err, IfOk, MatchResult, Ok, Some, length};
ghost use Rattle.uni_schema.specs.Schema.{type_at};
ghost use Rattle.query_check.specs.Typing.{IsFault, store_code, type_kept};

use crate::fault::{NOT_FORWARD, NOT_INDEXED, UNKNOWN_TYPE};
use query_tree::QueryRefusal;
use uni_base::Word;
use uni_schema::{Schema, Store, TypeDef};

/// A type with its number.
#[derive(Clone, Copy)]
pub(crate) struct Found {
    pub(crate) number: u16,
    pub(crate) def: TypeDef,
}

/// The type of a name, which is kept so; its faults stand at the column.
pub(crate) fn find_type(
    schema: &Schema,
    store: Store,
    column: u32,
    name: &Word,
) -> Result<Found, QueryRefusal>
    ensures kept { MatchResult result
        (λ found. type_kept schema.now store column name.now ≡ Ok (record { number = found.number; def = found.def }))
        (IsFault (type_kept schema.now store column name.now)) }
    ensures within { IfOk result (λ found. found.number < length schema.now.types) }
    ensures known { IfOk result (λ found. type_at schema.now found.number ≡ Some found.def) }
{
    let Some(number) = schema.type_no(name) else {
        return Err(QueryRefusal::Fault {
            code: UNKNOWN_TYPE,
            column,
        });
    };
    let def = *schema.type_def(number);
    if def.store != store {
        return Err(QueryRefusal::Fault {
            code: store_code(store),
            column,
        });
    }
    Ok(Found { number, def })
}

// The fault of a type that is not kept so.
fn store_code(store: Store) -> u32
    ensures { result ≡ store_code store }
{
    match store {
        Store::Index => NOT_INDEXED,
        Store::Forward => NOT_FORWARD,
    }
}
