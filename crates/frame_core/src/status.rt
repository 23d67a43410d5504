//! The exit status of the program.
ghost use Rattle.std.specs.Prelude.{◌≡◌};
ghost use Rattle.frame_core.specs.Statuses.{number_of};

/// The exit status of a run.
#[derive(Clone, Copy)]
pub enum Status {
    /// The answer was written to the output.
    Done,
    /// The arguments aren't a command line.
    Usage,
    /// The input is malformed.
    Malformed,
    /// The input exceeds a limit.
    Limit,
    /// A budget was reached before the question was decided.
    Undecided,
    /// Reading the input failed.
    ReadFault,
    /// Writing the answer failed.
    WriteFault,
    /// Out of memory.
    Memory,
    /// The input is well formed, but what it claims doesn't hold.
    Refused,
}

impl Status {
    /// The number of the status, 0 to 8 in the order above.
    pub fn number(self) -> u8
        ensures { result ≡ number_of self }
    {
        match self {
            Status::Done => 0,
            Status::Usage => 1,
            Status::Malformed => 2,
            Status::Limit => 3,
            Status::Undecided => 4,
            Status::ReadFault => 5,
            Status::WriteFault => 6,
            Status::Memory => 7,
            Status::Refused => 8,
        }
    }
}
