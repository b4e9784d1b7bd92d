ghost use Rattle.std.specs.Prelude.{◌≡◌};
ghost use Rattle.call_status.specs.Statuses.{exit_code_of, status_after};

use session::Ended;

/// How a call of the compiler ended.
#[derive(Clone, Copy, PartialEq, Eq)]
pub enum Status {
    /// Each object has its profile.
    Clean,
    /// Some object of the report has a fault.
    SomeFaults,
    /// The words are no command.
    Usage,
    /// The source failed.
    SourceFault,
    /// The shelf failed.
    ShelfFault,
    /// The keeper of the rows failed.
    KeeperFault,
    /// A line could not be read.
    LinesFault,
    /// The text could not be written.
    OutFault,
    /// Memory was wanting.
    Memory,
    /// The engine's numbers are spent.
    NumbersSpent,
    /// A watcher read as many lines as it may.
    TooManyLines,
    /// The source is past the limits of a scan.
    TooMuch,
    /// The file of the rows holds rows that no build has kept.
    BadRows,
    /// A build was to remove so many files of OUT, which is more than it may: nothing was changed.
    TooManyRemovals(usize),
}

impl Status {
    /// The exit status of the program.
    pub fn exit_code(self) -> u8
        ensures { result ≡ exit_code_of self }
    {
        match self {
            Status::Clean => 0,
            Status::SomeFaults => 1,
            Status::Usage => 2,
            Status::SourceFault => 3,
            Status::ShelfFault => 4,
            Status::KeeperFault => 5,
            Status::LinesFault => 6,
            Status::OutFault => 7,
            Status::Memory => 8,
            Status::NumbersSpent => 9,
            Status::TooManyLines => 10,
            Status::TooMuch => 11,
            Status::BadRows => 12,
            Status::TooManyRemovals(_) => 13,
        }
    }

    /// The status of a session that came to its end.
    pub fn after(ended: Ended) -> Status
        ensures { result ≡ status_after ended }
    {
        match ended {
            Ended::Clean => Status::Clean,
            Ended::SomeFaults => Status::SomeFaults,
            Ended::NumbersSpent => Status::NumbersSpent,
            Ended::TooMuch => Status::TooMuch,
            Ended::TooManyRemovals(removals) => Status::TooManyRemovals(removals),
        }
    }
}
