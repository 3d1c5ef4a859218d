//! How a check ended.

ghost use Rattle.std.specs.Prelude.{◌≡◌};
ghost use Rattle.settings_check.specs.Statuses.{exit_status};

use proxy_config::SettingsFault;

/// The answers of a check. Nothing was written but at `Done` and `WriteFault`.
#[derive(Debug, Drop)]
pub enum CheckStatus {
    /// The settings were read to their end, and the answer was written whole.
    Done,
    /// The words ask for nothing that there is. Nothing was read.
    Usage,
    /// The first fault of the settings, which were read to their end. It isn't want of memory.
    BadSettings(SettingsFault),
    /// A read failed.
    ReadFault,
    /// A write failed. What was written begins the answer.
    WriteFault,
    /// Memory ran out.
    NoMemory,
    /// More than 1,048,576 bytes were taken.
    TooLong,
    /// So many reads were idle before the settings' end.
    Late(u64),
}

/// The exit status of the program whose check ended so. 1 is none: a program that is stopped or can't
/// begin may end with it.
pub fn code_of(status: &CheckStatus) -> u8
    ensures { result ≡ exit_status status.now }
{
    match status {
        CheckStatus::Done => 0,
        CheckStatus::Usage => 2,
        CheckStatus::BadSettings(_) => 3,
        CheckStatus::ReadFault => 4,
        CheckStatus::WriteFault => 5,
        CheckStatus::NoMemory => 6,
        CheckStatus::TooLong => 7,
        CheckStatus::Late(_) => 8,
    }
}
