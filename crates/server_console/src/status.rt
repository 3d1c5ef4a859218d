//! How a server ended.

ghost use Rattle.std.specs.Prelude.{◌≡◌, IfOk, string_bytes};
ghost use Rattle.server_console.specs.Statuses.{exit_status, fault_line};

use pgw_frames::{NoMemory, Text};
use std::alloc::Global;
use std::net::SocketAddr;

/// Why a server ended, or didn't begin.
#[derive(Debug, Drop)]
pub enum ServeStatus {
    /// As many connections as were asked for have ended.
    Done,
    /// The first fault of the settings, as a text.
    BadSettings(Text),
    /// The file with the settings couldn't be read to its end.
    ReadFault,
    /// Standard output couldn't be written.
    WriteFault,
    NoMemory,
    /// The file with the settings has more than 1,048,576 bytes.
    TooLong,
    /// Too many reads of that file were idle.
    Late,
    /// It couldn't be opened, for this cause.
    NoFile(Text),
    /// There is no listening at this address, for this cause.
    NoListener(SocketAddr, Text),
    /// A thread that it needs couldn't be started.
    NoThread,
    /// The system gave no random bytes.
    NoRandom,
}

/// The exit status of the program whose server ended so. 1 is none, and 2 is that of words that ask nothing.
pub fn code_of(status: &ServeStatus) -> u8
    ensures { result ≡ exit_status status.now }
{
    match status {
        ServeStatus::Done => 0,
        ServeStatus::BadSettings(_) => 3,
        ServeStatus::ReadFault => 4,
        ServeStatus::WriteFault => 5,
        ServeStatus::NoMemory => 6,
        ServeStatus::TooLong => 7,
        ServeStatus::Late => 8,
        ServeStatus::NoFile(_) => 9,
        ServeStatus::NoListener(_, _) => 10,
        ServeStatus::NoThread => 11,
        ServeStatus::NoRandom => 12,
    }
}

/// The line on standard error that says what went wrong with a server whose settings are in this file, and the empty text
/// where nothing did.
pub fn fault_line(alloc: Global, file: &str, status: &ServeStatus) -> Result<String, NoMemory>
    ensures { IfOk result (λ s. string_bytes s ≡ fault_line file.now status.now) }
{
    match status {
        ServeStatus::Done => Ok(String::new(alloc)),
        ServeStatus::BadSettings(fault) => {
            let fault = fault.as_str();
            Ok(format!(in alloc; "bad settings: {file}: {fault}\n")?)
        }
        ServeStatus::ReadFault => Ok(format!(in alloc; "read fault: {file}\n")?),
        ServeStatus::WriteFault => Ok(String::from_str(alloc, "write fault\n")?),
        ServeStatus::NoMemory => Ok(String::from_str(alloc, "no memory\n")?),
        ServeStatus::TooLong => Ok(format!(in alloc; "too long: {file}\n")?),
        ServeStatus::Late => Ok(format!(in alloc; "late: {file}\n")?),
        ServeStatus::NoFile(cause) => {
            let cause = cause.as_str();
            Ok(format!(in alloc; "can't open {file}: {cause}\n")?)
        }
        ServeStatus::NoListener(addr, cause) => {
            let cause = cause.as_str();
            let addr = *addr;
            Ok(format!(in alloc; "can't listen on {addr}: {cause}\n")?)
        }
        ServeStatus::NoThread => Ok(String::from_str(alloc, "no thread\n")?),
        ServeStatus::NoRandom => Ok(String::from_str(alloc, "no random bytes\n")?),
    }
}
