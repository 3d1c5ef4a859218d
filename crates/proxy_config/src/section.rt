//! A table of the settings, and what is read from it by name.

ghost use Rattle.std.specs.Prelude.{◌≡◌, ◌++◌, map, option_map, ok_or, codes, string_bytes, IfOk};
ghost use Rattle.std.specs.List.{list_any};
ghost use Rattle.std.specs.Str.{bytes_eq};
ghost use Rattle.std.specs.Option.{option_copied};
ghost use Rattle.toml.specs.Data.{get_member, as_table};
ghost use Rattle.proxy_config.specs.declared.fault.SettingsFault.TheVariants as fault;
ghost use Rattle.toml.specs.View.{view, table_view, array_view};
ghost use Rattle.proxy_config.specs.Reading.{Gives, GivesAs};
ghost use Rattle.proxy_config.specs.Sections.{part_of, key_of, first_other, known, needed, number, optional_number, number_or, text, spot, items};

use crate::fault::SettingsFault;
use crate::settings::Spot;
use crate::value::{number_at, spot_at, text_at};
use pgw_frames::{NoMemory, Text};
use std::alloc::Global;
use toml::value::Array;
use toml::{Table, Value};

/// A table, and what stands before its keys where a fault names them (`tenant[0].`).
#[derive(Clone, Copy)]
pub struct Section<'a> {
    alloc: Global,
    path: &'a str,
    table: &'a Table,
}

fn is_among(names: &[&str], name: &str) -> bool
    ensures { result ≡ list_any (λ n. bytes_eq name.now n.now) names.now }
{
    names.iter().any(|n| name == *n)
}

/// Whether the key is one of the names.
fn is_named(names: &[&str], name: &str) -> bool
    ensures { result ≡ list_any (bytes_eq name.now) (map (λ n. n.now) names.now) }
{
    is_among(names, name)
}

/// The first key that is none of the names.
fn first_other<'a>(names: &[&str], table: &'a Table) -> Option<&'a str>
    ensures { option_copied result ≡ first_other (map (λ n. n.now) names.now) (table_view table.now) }
{
    for (key, _value) in table.iter() {
        if !is_named(names, key.as_str()) {
            return Some(key.as_str());
        }
    }
    None
}

impl<'a> Section<'a> {
    pub fn new(alloc: Global, path: &'a str, table: &'a Table) -> Section<'a>
        ensures { part_of result ≡ record { path = path.now; members = table_view table.now } }
    {
        Section { alloc, path, table }
    }

    pub fn allocator(&self) -> Global {
        self.alloc
    }

    /// The key as a fault names it.
    pub fn key(&self, name: &str) -> Result<Text, NoMemory>
        ensures { IfOk result (λ t. t ≡ key_of (part_of self.now) name.now) }
    {
        let path = self.path;
        Ok(Text::from_string(format!(in self.alloc; "{path}{name}")?))
    }

    /// Refuses a table that has another key than these.
    pub fn known(&self, names: &[&str]) -> Result<(), SettingsFault>
        ensures { GivesAs (λ _. part_of self.now) result (known (map (λ n. n.now) names.now) (part_of self.now)) }
    {
        if let Some(name) = first_other(names, self.table) {
            return Err(SettingsFault::UnknownKey(self.key(name)?));
        }
        Ok(())
    }

    /// The value at a key.
    pub fn get(&self, name: &str) -> Option<&'a Value>
        ensures { option_map (λ v. view v.now) result ≡ get_member name.now (part_of self.now).members }
    {
        self.table.get(name)
    }

    /// The value at a key that is required.
    pub fn needed(&self, name: &str) -> Result<&'a Value, SettingsFault>
        ensures { GivesAs (λ v. view v.now) result (needed (part_of self.now) name.now) }
    {
        let Some(value) = self.get(name) else {
            return Err(SettingsFault::Missing(self.key(name)?));
        };
        Ok(value)
    }

    /// A whole number in this range.
    pub fn number(&self, name: &str, least: u64, most: u64) -> Result<u64, SettingsFault>
        ensures { Gives result (number least most name.now (part_of self.now)) }
    {
        let value = self.needed(name)?;
        let key = self.key(name)?;
        number_at(self.alloc, key.as_str(), value, least, most)
    }

    /// A whole number in this range, where one stands there.
    pub fn optional_number(
        &self,
        name: &str,
        least: u64,
        most: u64,
    ) -> Result<Option<u64>, SettingsFault>
        ensures { Gives result (optional_number least most name.now (part_of self.now)) }
    {
        let Some(value) = self.get(name) else {
            return Ok(None);
        };
        let key = self.key(name)?;
        let number = number_at(self.alloc, key.as_str(), value, least, most)?;
        Ok(Some(number))
    }

    /// A whole number in this range, or its default.
    pub fn number_or(
        &self,
        name: &str,
        default: u64,
        least: u64,
        most: u64,
    ) -> Result<u64, SettingsFault>
        ensures { Gives result (number_or default least most name.now (part_of self.now)) }
    {
        let Some(value) = self.get(name) else {
            return Ok(default);
        };
        let key = self.key(name)?;
        number_at(self.alloc, key.as_str(), value, least, most)
    }

    /// A text that is required.
    pub fn text(&self, name: &str) -> Result<&'a str, SettingsFault>
        ensures { GivesAs (λ t. t.now) result (text name.now (part_of self.now)) }
    {
        let value = self.needed(name)?;
        let key = self.key(name)?;
        text_at(self.alloc, key.as_str(), value)
    }

    /// An address with a port, which is required.
    pub fn spot(&self, name: &str) -> Result<Spot, SettingsFault>
        ensures { Gives result (spot name.now (part_of self.now)) }
    {
        let value = self.needed(name)?;
        let key = self.key(name)?;
        spot_at(self.alloc, key.as_str(), value)
    }

    /// A list, where one stands there.
    pub fn items(&self, name: &str) -> Result<Option<&'a Array>, SettingsFault>
        ensures { GivesAs (option_map (λ v. array_view v.now)) result (items name.now (part_of self.now)) }
    {
        let Some(value) = self.get(name) else {
            return Ok(None);
        };
        let Some(array) = value.as_array() else {
            return Err(SettingsFault::WrongKind(self.key(name)?));
        };
        Ok(Some(array))
    }
}

/// The table at a key.
pub fn table_at<'a>(alloc: Global, key: &str, value: &'a Value) -> Result<&'a Table, SettingsFault>
    ensures { GivesAs (λ m. table_view m.now) result (ok_or (as_table (view value.now)) (fault.WrongKind key.now)) }
{
    let Some(table) = value.as_table() else {
        return Err(SettingsFault::WrongKind(Text::of(alloc, key)?));
    };
    Ok(table)
}

/// What stands before the keys of the table at a key.
pub fn path_below(alloc: Global, key: &str) -> Result<String, NoMemory>
    ensures { IfOk result (λ s. string_bytes s ≡ key.now ++ codes ".") }
{
    Ok(format!(in alloc; "{key}.")?)
}
