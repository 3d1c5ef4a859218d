//! Entries of a list, each read beside those before it.

ghost use Rattle.std.specs.Prelude.{◌≡◌, [], IfOk, string_bytes};
ghost use Rattle.toml.specs.View.{view, array_view};
ghost use Rattle.proxy_config.specs.Reading.{Gives, item_key, entries};
ghost use Rattle.proxy_config.specs.Sections.{part_of, list};

use crate::fault::SettingsFault;
use crate::section::Section;
use pgw_frames::NoMemory;
use pgw_messages::Items;
use std::alloc::Global;
use toml::Value;
use toml::value::Array;

/// An entry of a list.
pub(crate) trait Entry: Drop {
    ghost use Rattle.std.specs.Prelude.{List, ℕ};
    ghost use Rattle.toml.specs.Data.{Data};
    ghost use Rattle.toml.specs.View.{view};
    ghost use Rattle.proxy_config.specs.Reading.{Reading, Gives};

    /// How the entry is read, behind these entries and at this key.
    ghost at: { List Self → List ℕ → Data → Reading Self };

    fn read(alloc: Global, before: &[Self], key: &str, value: &Value) -> Result<Self, SettingsFault>
        ensures { Gives result (at before.now key.now (view value.now)) };
}

/// The key of an entry as a fault names it.
pub fn item_key(alloc: Global, key: &str, place: usize) -> Result<String, NoMemory>
    ensures { IfOk result (λ s. string_bytes s ≡ item_key key.now place) }
{
    Ok(format!(in alloc; "{key}[{place}]")?)
}

/// All entries of a list.
pub(crate) fn entries<E: Entry>(
    alloc: Global,
    key: &str,
    array: &Array,
) -> Result<Items<E>, SettingsFault>
    ensures { Gives result (entries E.at key.now [] (array_view array.now)) }
{
    let mut items = Items::new(alloc);
    for value in array {
        let item_key = item_key(alloc, key, items.len())?;
        let item = E::read(alloc, items.as_slice(), item_key.as_str(), value)?;
        items.push(item)?;
    }
    Ok(items)
}

/// The entries of a list of a table, which are none where it is missing.
pub(crate) fn list<E: Entry>(section: &Section<'_>, name: &str) -> Result<Items<E>, SettingsFault>
    ensures { Gives result (list E.at name.now (part_of section.now)) }
{
    let Some(array) = section.items(name)? else {
        return Ok(Items::new(section.allocator()));
    };
    let key = section.key(name)?;
    entries::<E>(section.allocator(), key.as_str(), array)
}
