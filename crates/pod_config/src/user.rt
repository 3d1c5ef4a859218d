//! Users with their passwords.

ghost use Rattle.std.specs.Prelude.{◌≡◌, [], codes};
ghost use Rattle.std.specs.List.{list_any};
ghost use Rattle.std.specs.Str.{bytes_eq};
ghost use Rattle.toml.specs.View.{view, array_view};
ghost use Rattle.proxy_config.specs.Reading.{Gives, GivesAs, entries};
ghost use Rattle.proxy_config.specs.Sections.{part_of, key_of};
ghost use Rattle.pod_config.specs.Settings.{first_named, user_of, user_at, users};

use crate::place::needed_items;
use pgw_frames::Text;
use pod_conn::{User, Users};
use proxy_config::{Section, SettingsFault, item_key, path_below, table_at};
use std::alloc::Global;
use toml::Value;
use toml::value::Array;

fn is_there(before: &[User], name: &str) -> bool
    ensures { result ≡ list_any (λ u. bytes_eq u.name name.now) before.now }
{
    before.iter().any(|u| u.name.as_str() == name)
}

/// The name, unless an earlier entry has it.
fn first_named<'a>(
    before: &[User],
    section: &Section<'_>,
    name: &'a str,
) -> Result<&'a str, SettingsFault>
    ensures { GivesAs (λ t. t.now) result (first_named (key_of (part_of section.now) (codes "name")) (list_any (λ u. bytes_eq u.name name.now) before.now) name.now) }
{
    if is_there(before, name) {
        return Err(SettingsFault::Twice(section.key("name")?));
    }
    Ok(name)
}

fn user_of(before: &[User], section: &Section<'_>) -> Result<User, SettingsFault>
    ensures { Gives result (user_of before.now (part_of section.now)) }
{
    section.known(&["name", "password"])?;
    let name = section.text("name")?;
    let name = first_named(before, section, name)?;
    let password = section.text("password")?;
    let alloc = section.allocator();
    Ok(User {
        name: Text::of(alloc, name)?,
        password: Text::of(alloc, password)?,
    })
}

fn user_at(alloc: Global, before: &[User], key: &str, value: &Value) -> Result<User, SettingsFault>
    ensures { Gives result (user_at before.now key.now (view value.now)) }
{
    let table = table_at(alloc, key, value)?;
    let path = path_below(alloc, key)?;
    user_of(before, &Section::new(alloc, path.as_str(), table))
}

/// All users of a list.
fn users_in(alloc: Global, key: &str, array: &Array) -> Result<Users, SettingsFault>
    ensures { Gives result (entries user_at key.now [] (array_view array.now)) }
{
    let mut users = Users::new(alloc);
    for value in array {
        let item_key = item_key(alloc, key, users.len())?;
        let user = user_at(alloc, users.as_slice(), item_key.as_str(), value)?;
        users.push(user)?;
    }
    Ok(users)
}

/// The users of a table.
pub(crate) fn users(section: &Section<'_>) -> Result<Users, SettingsFault>
    ensures { Gives result (users (part_of section.now)) }
{
    let array = needed_items(section, "user")?;
    let key = section.key("user")?;
    users_in(section.allocator(), key.as_str(), array)
}
