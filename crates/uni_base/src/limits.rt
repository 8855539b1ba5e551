ghost use Rattle.std.specs.Prelude.{◌≡◌};
ghost use Rattle.uni_base.specs.StandardLimits.{standard_limits};

/// The limits of a run. No call takes a limit above the standard one.
#[derive(Clone, Copy, Debug, PartialEq, Eq)]
pub struct Limits {
    /// entities of the table
    pub entities: u64,
    /// edges of the table
    pub edges: u64,
    /// forward edges of one type and key
    pub forward: u64,
    /// publishes of a run
    pub publishes: u64,
    /// bytes of a line, without its LF
    pub line: u64,
    /// counted lines of a round
    pub round: u64,
    /// bytes of a script
    pub script: u64,
    /// sessions that may ask
    pub sessions: u64,
    /// hits of a query in format 1
    pub ask_limit: u64,
    /// hits of a query in format 2
    pub ask_limit_2: u64,
    /// hits of a join's inner query
    pub join_limit: u64,
    /// parentheses that a query opens at once
    pub depth: u64,
    /// nodes of a query
    pub nodes: u64,
    /// operands of a list in a query
    pub operands: u64,
    /// joins around a node of a query
    pub joins: u64,
}

impl Limits {
    pub fn standard() -> Limits
        ensures { result ≡ standard_limits }
    {
        Limits {
            entities: 1 << 21,
            edges: 1 << 23,
            forward: 64,
            publishes: 1 << 20,
            line: 65_536,
            round: 1_000_000,
            script: 1 << 36,
            sessions: 64,
            ask_limit: 5000,
            ask_limit_2: 50_000,
            join_limit: 5000,
            depth: 32,
            nodes: 256,
            operands: 64,
            joins: 4,
        }
    }
}
