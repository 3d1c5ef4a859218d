//! Allow entries, and numbers that stand once.

ghost use Rattle.std.specs.Prelude.{◌≡◌, ◌==◌, ◌<◌, ◌^◌};
ghost use Rattle.std.specs.List.{list_any};
ghost use Rattle.proxy_config.specs.Reading.{Gives};
ghost use Rattle.proxy_config.specs.Sections.{part_of, key_of};
ghost use Rattle.proxy_config.specs.Settings.{once, network_at, allow_of, allow_at};

use crate::deny::MOST_NUMBER;
use crate::entry::{Entry, list};
use crate::fault::SettingsFault;
use crate::section::{Section, path_below, table_at};
use crate::settings::Allow;
use crate::value::net_at;
use access_lists::Net;
use proxy_outside::TenantId;
use std::alloc::Global;
use toml::Value;

/// The number of a tenant or a pod, unless an earlier entry has it.
pub(crate) fn once(
    section: &Section<'_>,
    name: &str,
    is_there: bool,
    number: u64,
) -> Result<u32, SettingsFault>
    requires { number < 2 ^ 32 }
    ensures { Gives result (once (key_of (part_of section.now) name.now) is_there number) }
{
    if is_there {
        return Err(SettingsFault::Twice(section.key(name)?));
    }
    Ok(number as u32)
}

fn is_there(before: &[Allow], number: u64) -> bool
    ensures { result ≡ list_any (λ a. a.tenant.0 == number) before.now }
{
    before.iter().any(|a| a.tenant.0 as u64 == number)
}

fn allow_of(before: &[Allow], section: &Section<'_>) -> Result<Allow, SettingsFault>
    ensures { Gives result (allow_of before.now (part_of section.now)) }
{
    section.known(&["tenant", "networks"])?;
    let number = section.number("tenant", 1, MOST_NUMBER)?;
    let tenant = once(section, "tenant", is_there(before, number), number)?;
    let networks = list::<Net>(section, "networks")?;
    Ok(Allow {
        tenant: TenantId(tenant),
        networks,
    })
}

impl Entry for Net {
    ghost at = { network_at };

    fn read(
        alloc: Global,
        _before: &[Net],
        key: &str,
        value: &Value,
    ) -> Result<Net, SettingsFault> {
        net_at(alloc, key, value)
    }
}

impl Entry for Allow {
    ghost at = { allow_at };

    fn read(
        alloc: Global,
        before: &[Allow],
        key: &str,
        value: &Value,
    ) -> Result<Allow, SettingsFault> {
        let table = table_at(alloc, key, value)?;
        let path = path_below(alloc, key)?;
        allow_of(before, &Section::new(alloc, path.as_str(), table))
    }
}
