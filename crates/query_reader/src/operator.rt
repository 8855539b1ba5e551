ghost use Rattle.std.specs.Prelude.{◌≡◌};
ghost use Rattle.query_reader.specs.Operators.{operator_of};

use query_tree::{JoinKind, ListKind};

/// What a name after an open parenthesis may be.
#[derive(Clone, Copy, Debug, PartialEq, Eq)]
pub(crate) enum Operator {
    Term,
    List(ListKind),
    Join(JoinKind),
}

/// The operator of a name.
pub(crate) fn read_operator(name: &[u8]) -> Option<Operator>
    ensures { result ≡ operator_of name.now }
{
    if name == "term".as_bytes() {
        Some(Operator::Term)
    } else if name == "and".as_bytes() {
        Some(Operator::List(ListKind::And))
    } else if name == "or".as_bytes() {
        Some(Operator::List(ListKind::Or))
    } else if name == "difference".as_bytes() {
        Some(Operator::List(ListKind::Difference))
    } else if name == "weak-and".as_bytes() {
        Some(Operator::List(ListKind::WeakAnd))
    } else if name == "strong-or".as_bytes() {
        Some(Operator::List(ListKind::StrongOr))
    } else if name == "apply".as_bytes() {
        Some(Operator::Join(JoinKind::Apply))
    } else if name == "extract".as_bytes() {
        Some(Operator::Join(JoinKind::Extract))
    } else {
        None
    }
}
