//! Why a text isn't the proxy's settings.

ghost use Rattle.std.specs.Prelude.{◌≡◌, Some};
ghost use Rattle.proxy_config.specs.Faults.{fault_text};
ghost use Rattle.proxy_config.specs.declared.fault.SettingsFault.TheVariants as fault;

use pgw_frames::Text;
use std::alloc::{AllocError, AllocFailed};
use std::fmt;

/// The first fault of the settings. A table is walked before the next one: first the keys that aren't
/// known, in byte order, then the known ones, each with all that stands below it. A fault names its key
/// with the tables that lead to it, as `tenant[0].pod[1].place`.
#[derive(Debug, Drop)]
pub enum SettingsFault {
    /// The text isn't TOML.
    NotToml,
    /// The table has no such key.
    UnknownKey(Text),
    /// A key that is required isn't there. Of two keys of which one must be there and not both, the first.
    Missing(Text),
    /// The value isn't of the key's type.
    WrongKind(Text),
    /// The number is outside its range, the text none of the words, or the list too long.
    OutOfRange(Text),
    /// The text is no network.
    BadNet(Text),
    /// The text is no address with a port.
    BadPlace(Text),
    /// An earlier entry of the list has the same number.
    Twice(Text),
    /// Memory ran out before all was read.
    NoMemory,
}

impl fmt::Display for SettingsFault {
    ghost output = { λ e. Some (fault_text e) };

    fn fmt<W: fmt::Write>(&self, f: &mut fmt::Formatter<W>) -> fmt::Result {
        match self {
            SettingsFault::NotToml => write!(f, "not toml"),
            SettingsFault::UnknownKey(key) => write!(f, "unknown key {}", key.as_str()),
            SettingsFault::Missing(key) => write!(f, "missing {}", key.as_str()),
            SettingsFault::WrongKind(key) => write!(f, "wrong kind {}", key.as_str()),
            SettingsFault::OutOfRange(key) => write!(f, "out of range {}", key.as_str()),
            SettingsFault::BadNet(key) => write!(f, "bad network {}", key.as_str()),
            SettingsFault::BadPlace(key) => write!(f, "bad place {}", key.as_str()),
            SettingsFault::Twice(key) => write!(f, "twice {}", key.as_str()),
            SettingsFault::NoMemory => write!(f, "no memory"),
        }
    }
}

impl std::error::Error for SettingsFault {}

impl From<pgw_frames::NoMemory> for SettingsFault {
    ghost from_gives = { λ _ e. e ≡ fault.NoMemory };

    fn from(_e: pgw_frames::NoMemory) -> SettingsFault {
        SettingsFault::NoMemory
    }
}

impl From<AllocError> for SettingsFault {
    ghost from_gives = { λ _ e. e ≡ fault.NoMemory };

    fn from(_e: AllocError) -> SettingsFault {
        SettingsFault::NoMemory
    }
}

impl<T: Drop> From<AllocFailed<T>> for SettingsFault {
    ghost from_gives = { λ _ e. e ≡ fault.NoMemory };

    fn from(_e: AllocFailed<T>) -> SettingsFault {
        SettingsFault::NoMemory
    }
}
