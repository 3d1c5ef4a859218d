//! From a text to the settings.

ghost use Rattle.std.specs.Prelude.{◌≡◌};
ghost use Rattle.proxy_config.specs.Reading.{Gives};
ghost use Rattle.proxy_config.specs.Sections.{part_of};
ghost use Rattle.pod_config.specs.Settings.{secret, identity, settings_in, settings_of, settings_of_text};
ghost use Rattle.toml.specs.View.{table_view};

use crate::place::places;
use crate::settings::PodFile;
use crate::user::users;
use pgw_frames::Bytes;
use pod_conn::PodSettings;
use proxy_config::{Section, SettingsFault};
use proxy_outside::TenantId;
use std::alloc::Global;
use std::str;
use toml::Table;

/// The greatest number of a tenant.
const MOST_NUMBER: u64 = 4_294_967_295;

/// The latest moment.
const MOST_MOMENT: u64 = 9_223_372_036_854_775_807;

/// The fewest and the most bytes of a secret.
const LEAST_SECRET: usize = 16;

const MOST_SECRET: usize = 1_024;

/// The tenant, and what its tokens need.
#[derive(Drop)]
struct Identity {
    tenant: TenantId,
    secret: Bytes,
    token_until: u64,
}

/// What tokens are signed with.
fn secret(section: &Section<'_>) -> Result<Bytes, SettingsFault>
    ensures { Gives result (secret (part_of section.now)) }
{
    let secret = section.text("secret")?;
    if secret.len() < LEAST_SECRET || secret.len() > MOST_SECRET {
        return Err(SettingsFault::OutOfRange(section.key("secret")?));
    }
    Ok(Bytes::of(section.allocator(), secret.as_bytes())?)
}

/// The tenant, and what its tokens need.
fn identity_in(section: &Section<'_>) -> Result<Identity, SettingsFault>
    ensures { Gives result (identity (part_of section.now)) }
{
    let tenant = section.number("tenant", 1, MOST_NUMBER)?;
    let secret = secret(section)?;
    let token_until = section.number("token_until", 0, MOST_MOMENT)?;
    Ok(Identity {
        tenant: TenantId(tenant as u32),
        secret,
        token_until,
    })
}

fn settings_in(section: &Section<'_>) -> Result<PodFile, SettingsFault>
    ensures { Gives result (settings_in (part_of section.now)) }
{
    section.known(&["tenant", "secret", "token_until", "listen", "user"])?;
    let Identity {
        tenant,
        secret,
        token_until,
    } = identity_in(section)?;
    let listen = places(section)?;
    let users = users(section)?;
    let pod = PodSettings {
        tenant,
        secret,
        token_until,
        users,
    };
    Ok(PodFile { pod, listen })
}

/// The settings of a table.
#[tactic(auto, unfolding(crate::specs::Settings::settings_of))]
fn settings_of(alloc: Global, table: &Table) -> Result<PodFile, SettingsFault>
    ensures { Gives result (settings_of (table_view table.now)) }
{
    settings_in(&Section::new(alloc, "", table))
}

/// Reads settings. An `Err` is the first fault. A text that isn't UTF-8 isn't TOML.
pub fn read_pod_settings(alloc: Global, text: &[u8]) -> Result<PodFile, SettingsFault>
    ensures { Gives result (settings_of_text text.now) }
{
    let Ok(text) = str::from_utf8(text) else {
        return Err(SettingsFault::NotToml);
    };
    match toml::table_from_str(alloc, text) {
        Ok(table) => settings_of(alloc, &table),
        Err(e) => Err(if e.is_memory() {
            SettingsFault::NoMemory
        } else {
            SettingsFault::NotToml
        }),
    }
}
