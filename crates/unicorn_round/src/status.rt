ghost use Rattle.std.specs.Prelude.{◌≡◌};
ghost use Rattle.unicorn_round.specs.Statuses.{number_of_status};

/// How a run ended.
#[derive(Clone, Copy, Debug, PartialEq, Eq)]
pub enum Status {
    /// The source was read to its end, and every round was answered.
    Done,
    /// The words of the command line are refused.
    Usage,
    /// The header of the script breaks a rule.
    Schema,
    /// A read failed.
    ReadFault,
    /// A write failed.
    WriteFault,
    /// The source gave more bytes than the limit of a script.
    TooLong,
    /// Out of memory.
    Memory,
}

impl Status {
    /// The number that the program ends with.
    pub fn number(self) -> u8
        ensures { result ≡ number_of_status self }
    {
        match self {
            Status::Done => 0,
            Status::Usage => 2,
            Status::Schema => 3,
            Status::ReadFault => 4,
            Status::WriteFault => 5,
            Status::TooLong => 6,
            Status::Memory => 7,
        }
    }
}
