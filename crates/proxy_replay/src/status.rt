//! How a replay ended.

ghost use Rattle.std.specs.Prelude.{◌≡◌};
ghost use Rattle.proxy_replay.specs.Statuses.{exit_status};

/// The answers of a replay.
#[derive(Clone, Copy, Debug, PartialEq, Eq)]
pub enum Status {
    /// The schedule was read to its end, and the report was written whole.
    Done,
    /// The words ask for nothing that there is. Nothing was read.
    Usage,
    /// The first line, counted from 1, that is no event. Nothing was written.
    BadLine(u64),
    /// A read failed. Nothing was written.
    ReadFault,
    /// A write failed. What was written begins the report.
    WriteFault,
    /// Memory ran out. Nothing was written.
    NoMemory,
    /// More than 268,435,456 bytes were taken. Nothing was written.
    TooLong,
    /// So many reads were idle before the schedule's end. Nothing was written.
    Late(u64),
}

/// The exit status of the program whose replay ended so. 1 is none: a program that is stopped or can't
/// begin may end with it.
pub fn code_of(status: Status) -> u8
    ensures { result ≡ exit_status status }
{
    match status {
        Status::Done => 0,
        Status::Usage => 2,
        Status::BadLine(_) => 3,
        Status::ReadFault => 4,
        Status::WriteFault => 5,
        Status::NoMemory => 6,
        Status::TooLong => 7,
        Status::Late(_) => 8,
    }
}
