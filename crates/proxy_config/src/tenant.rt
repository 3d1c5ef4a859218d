//! Tenants with their pods.

ghost use Rattle.std.specs.Prelude.{◌≡◌, ◌==◌};
ghost use Rattle.std.specs.List.{list_any};
ghost use Rattle.proxy_config.specs.Reading.{Gives};
ghost use Rattle.proxy_config.specs.Sections.{part_of};
ghost use Rattle.proxy_config.specs.Settings.{pods, row_of, row_at};

use crate::allow::once;
use crate::deny::{MOST_MOMENT, MOST_NUMBER};
use crate::entry::{Entry, entries};
use crate::fault::SettingsFault;
use crate::section::{Section, path_below, table_at};
use pgw_messages::Items;
use proxy_outside::TenantId;
use std::alloc::Global;
use tenant_directory::{MOST_PODS, Pod, RowFault, TenantRow};
use toml::Value;

fn is_there(before: &[TenantRow], number: u64) -> bool
    ensures { result ≡ list_any (λ r. r.tenant.0 == number) before.now }
{
    before.iter().any(|r| r.tenant().0 as u64 == number)
}

/// The pods of a tenant, which are counted before one is read.
fn pods(section: &Section<'_>) -> Result<Items<Pod>, SettingsFault>
    ensures { Gives result (pods (part_of section.now)) }
{
    let Some(array) = section.items("pod")? else {
        return Ok(Items::new(section.allocator()));
    };
    if array.len() > MOST_PODS {
        return Err(SettingsFault::OutOfRange(section.key("pod")?));
    }
    let key = section.key("pod")?;
    entries::<Pod>(section.allocator(), key.as_str(), array)
}

fn row_of(before: &[TenantRow], section: &Section<'_>) -> Result<TenantRow, SettingsFault>
    ensures { Gives result (row_of before.now (part_of section.now)) }
{
    section.known(&["id", "version", "pod"])?;
    let number = section.number("id", 1, MOST_NUMBER)?;
    let tenant = once(section, "id", is_there(before, number), number)?;
    let version = section.number("version", 0, MOST_MOMENT)?;
    let pods = pods(section)?;
    match TenantRow::of(
        section.allocator(),
        TenantId(tenant),
        version,
        pods.as_slice(),
    ) {
        Ok(row) => Ok(row),
        // The pods were counted, and each number was looked up as it was read.
        Err(RowFault::NoMemory | RowFault::TwicePod(_) | RowFault::TooMany(_)) => {
            Err(SettingsFault::NoMemory)
        }
    }
}

impl Entry for TenantRow {
    ghost at = { row_at };

    fn read(
        alloc: Global,
        before: &[TenantRow],
        key: &str,
        value: &Value,
    ) -> Result<TenantRow, SettingsFault> {
        let table = table_at(alloc, key, value)?;
        let path = path_below(alloc, key)?;
        row_of(before, &Section::new(alloc, path.as_str(), table))
    }
}
