//! The proxy's settings, read from TOML.
//!
//! A text gives the settings, or the first of its faults, in the order in which its tables are walked.
//! Nothing here opens a file or a socket. How a table is walked, and how its faults name their keys, is
//! public, for other programs' settings.
//!
//! Sources: TOML v1.1.0; RFC 4291, "IP Version 6 Addressing Architecture", 2.2.
#![tactic(auto)]

mod allow;
mod deny;
mod entry;
mod fault;
mod laws;
mod pod;
mod read;
mod section;
mod settings;
mod spot;
mod tenant;
mod value;

pub use entry::item_key;
pub use fault::SettingsFault;
pub use laws::{a_network_is_spelled, an_address_is_spelled};
pub use read::read_settings;
pub use section::{Section, path_below, table_at};
pub use settings::{Allow, Allows, Denies, Nets, Settings, Spot, TenantRows};
pub use value::spot_at;

#[cfg(test)]
mod tests;
