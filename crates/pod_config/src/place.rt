//! Where pods listen.

ghost use Rattle.std.specs.Prelude.{◌≡◌, []};
ghost use Rattle.toml.specs.View.{array_view};
ghost use Rattle.proxy_config.specs.Reading.{Gives, GivesAs, entries};
ghost use Rattle.proxy_config.specs.Sections.{part_of};
ghost use Rattle.pod_config.specs.Settings.{place_at, places, needed_items};

use crate::settings::Spots;
use proxy_config::{Section, SettingsFault, item_key, spot_at};
use std::alloc::Global;
use toml::value::Array;

/// A list that is required.
pub(crate) fn needed_items<'a>(
    section: &Section<'a>,
    name: &str,
) -> Result<&'a Array, SettingsFault>
    ensures { GivesAs (λ v. array_view v.now) result (needed_items name.now (part_of section.now)) }
{
    let value = section.needed(name)?;
    let Some(array) = value.as_array() else {
        return Err(SettingsFault::WrongKind(section.key(name)?));
    };
    Ok(array)
}

/// All places of a list.
fn spots(alloc: Global, key: &str, array: &Array) -> Result<Spots, SettingsFault>
    ensures { Gives result (entries place_at key.now [] (array_view array.now)) }
{
    let mut spots = Spots::new(alloc);
    for value in array {
        let item_key = item_key(alloc, key, spots.len())?;
        let spot = spot_at(alloc, item_key.as_str(), value)?;
        spots.push(spot)?;
    }
    Ok(spots)
}

/// The places of a table, of which there is one at least.
pub(crate) fn places(section: &Section<'_>) -> Result<Spots, SettingsFault>
    ensures { Gives result (places (part_of section.now)) }
{
    let array = needed_items(section, "listen")?;
    let key = section.key("listen")?;
    let spots = spots(section.allocator(), key.as_str(), array)?;
    if spots.is_empty() {
        return Err(SettingsFault::OutOfRange(key));
    }
    Ok(spots)
}
