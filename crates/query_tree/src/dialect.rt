ghost use Rattle.std.specs.Prelude.{◌≡◌};
ghost use Rattle.query_tree.specs.Dialects.{dialect_of};

use uni_base::Limits;

/// Which queries there are: the format that they are written in, and the limits on their size, which
/// are those of a run.
#[derive(Clone, Copy, Debug, PartialEq, Eq)]
pub struct Dialect {
    /// 1, or 2, which has prefix terms and lets an operand of weak-and have a weight
    pub format: u32,
    /// parentheses that are open at once
    pub depth: u64,
    /// terms, lists and joins
    pub nodes: u64,
    /// operands of a list
    pub operands: u64,
    /// hits of a join's inner query
    pub join_limit: u64,
}

impl Dialect {
    /// The dialect of a format under the limits of a run.
    pub fn new(limits: &Limits, format: u32) -> Dialect
        ensures { result ≡ dialect_of limits.now format }
    {
        Dialect {
            format,
            depth: limits.depth,
            nodes: limits.nodes,
            operands: limits.operands,
            join_limit: limits.join_limit,
        }
    }
}
