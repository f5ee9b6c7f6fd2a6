//! How a run of the program ended.

ghost use Rattle.std.specs.Prelude.{◌≡◌};
ghost use Rattle.pv_report.specs.Statuses.{number_of};

/// How a run of the program ended. Its number is the exit status.
#[derive(Clone, Copy, Debug, PartialEq, Eq)]
pub enum Status {
    /// Each line of the report says `equivalent`, and the sink took it.
    AllEquivalent,
    /// Some line of the report says something else, and the sink took it.
    Others,
    /// A fetched file is no class file, and the sink took the line that says so.
    BadClass,
    /// A certificate has no reading, or names another file, and the sink took the line that says so.
    BadCert,
    /// The words are no command, and the sink took the line that says so.
    BadWords,
    /// A file was not fetched.
    ReadFault,
    /// The sink failed.
    WriteFault,
    /// Memory ran out.
    Memory,
}

impl Status {
    /// The exit status of the program, 0 to 7.
    pub fn number(self) -> u8
        ensures { result ≡ number_of self }
    {
        match self {
            Status::AllEquivalent => 0,
            Status::Others => 1,
            Status::BadClass => 2,
            Status::BadCert => 3,
            Status::BadWords => 4,
            Status::ReadFault => 5,
            Status::WriteFault => 6,
            Status::Memory => 7,
        }
    }
}
