//! Deny entries.

ghost use Rattle.proxy_config.specs.Reading.{Gives};
ghost use Rattle.proxy_config.specs.Sections.{part_of};
ghost use Rattle.proxy_config.specs.Settings.{who, deny_of, deny_at};

use crate::entry::Entry;
use crate::fault::SettingsFault;
use crate::section::{Section, path_below, table_at};
use crate::value::{net_at, number_at};
use access_lists::{Deny, Who};
use pgw_frames::Text;
use proxy_outside::TenantId;
use std::alloc::Global;
use toml::Value;

/// The greatest number of a tenant or a pod.
pub(crate) const MOST_NUMBER: u64 = 4_294_967_295;

/// The greatest version and the last moment.
pub(crate) const MOST_MOMENT: u64 = 9_223_372_036_854_775_807;

/// Whom the entry names: exactly one of `network` and `tenant` is there.
fn who(section: &Section<'_>) -> Result<Who, SettingsFault>
    ensures { Gives result (who (part_of section.now)) }
{
    match (section.get("network"), section.get("tenant")) {
        (Some(value), None) => {
            let key = section.key("network")?;
            let net = net_at(section.allocator(), key.as_str(), value)?;
            Ok(Who::Network(net))
        }
        (None, Some(value)) => {
            let key = section.key("tenant")?;
            let number = number_at(section.allocator(), key.as_str(), value, 1, MOST_NUMBER)?;
            Ok(Who::Tenant(TenantId(number as u32)))
        }
        (Some(_), Some(_)) => Err(SettingsFault::Missing(section.key("network")?)),
        (None, None) => Err(SettingsFault::Missing(section.key("network")?)),
    }
}

fn deny_of(section: &Section<'_>) -> Result<Deny, SettingsFault>
    ensures { Gives result (deny_of (part_of section.now)) }
{
    section.known(&["network", "tenant", "until", "reason"])?;
    let who = who(section)?;
    let until = section.optional_number("until", 0, MOST_MOMENT)?;
    let reason = section.text("reason")?;
    Ok(Deny {
        who,
        until,
        reason: Text::of(section.allocator(), reason)?,
    })
}

impl Entry for Deny {
    ghost at = { deny_at };

    fn read(
        alloc: Global,
        _before: &[Deny],
        key: &str,
        value: &Value,
    ) -> Result<Deny, SettingsFault> {
        let table = table_at(alloc, key, value)?;
        let path = path_below(alloc, key)?;
        deny_of(&Section::new(alloc, path.as_str(), table))
    }
}
