//! From a text to the settings.

ghost use Rattle.proxy_config.specs.Reading.{Gives};
ghost use Rattle.proxy_config.specs.Sections.{part_of};
ghost use Rattle.proxy_config.specs.Settings.{settings_in, settings_of, settings_of_text};
ghost use Rattle.toml.specs.View.{table_view};

use crate::entry::list;
use crate::fault::SettingsFault;
use crate::section::Section;
use crate::settings::{Allow, Settings};
use access_lists::Deny;
use std::alloc::Global;
use std::str;
use tenant_directory::TenantRow;
use toml::Table;

/// The greatest of `period`, `patience` and `login_waits`.
const MOST_WAITS: u64 = 1_000_000;

fn settings_in(section: &Section<'_>) -> Result<Settings, SettingsFault>
    ensures { Gives result (settings_in (part_of section.now)) }
{
    section.known(&[
        "listen",
        "period",
        "patience",
        "login_waits",
        "deny",
        "allow",
        "tenant",
    ])?;
    let listen = section.spot("listen")?;
    let period = section.number_or("period", 10, 1, MOST_WAITS)?;
    let patience = section.number_or("patience", 150, 1, MOST_WAITS)?;
    let login_waits = section.number_or("login_waits", 600, 1, MOST_WAITS)?;
    let deny = list::<Deny>(section, "deny")?;
    let allow = list::<Allow>(section, "allow")?;
    let tenants = list::<TenantRow>(section, "tenant")?;
    Ok(Settings {
        listen,
        period,
        patience,
        login_waits,
        deny,
        allow,
        tenants,
    })
}

/// The settings of a table.
#[tactic(auto, unfolding(crate::specs::Settings::settings_of))]
fn settings_of(alloc: Global, table: &Table) -> Result<Settings, SettingsFault>
    ensures { Gives result (settings_of (table_view table.now)) }
{
    settings_in(&Section::new(alloc, "", table))
}

/// Reads settings. An `Err` is the first fault. A text that isn't UTF-8 isn't TOML.
pub fn read_settings(alloc: Global, text: &[u8]) -> Result<Settings, SettingsFault>
    ensures { Gives result (settings_of_text text.now) }
{
    let Ok(text) = str::from_utf8(text) else {
        return Err(SettingsFault::NotToml);
    };
    match toml::table_from_str(alloc, text) {
        Ok(table) => settings_of(alloc, &table),
        Err(e) => Err(if e.is_memory() {
            SettingsFault::NoMemory
        } else {
            SettingsFault::NotToml
        }),
    }
}
