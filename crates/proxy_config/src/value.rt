//! Values at a key that faults name.

ghost use Rattle.std.specs.Prelude.{◌≡◌, option_and_then};
ghost use Rattle.toml.specs.View.{view};
ghost use Rattle.proxy_config.specs.Reading.{Gives, GivesAs, number_at, text_at, net_at, spot_at, natural, within};

use crate::fault::SettingsFault;
use crate::settings::Spot;
use crate::spot::{net_of, spot_of};
use access_lists::Net;
use pgw_frames::Text;
use std::alloc::Global;
use toml::Value;

/// The number, where it is in the range.
fn within(number: i64, least: u64, most: u64) -> Option<u64>
    ensures { result ≡ option_and_then (within least most) (natural number) }
{
    let Ok(number) = u64::try_from(number) else {
        return None;
    };
    if least <= number && number <= most {
        return Some(number);
    }
    None
}

/// A whole number in this range.
pub(crate) fn number_at(
    alloc: Global,
    key: &str,
    value: &Value,
    least: u64,
    most: u64,
) -> Result<u64, SettingsFault>
    ensures { Gives result (number_at least most key.now (view value.now)) }
{
    let Some(number) = value.as_integer() else {
        return Err(SettingsFault::WrongKind(Text::of(alloc, key)?));
    };
    let Some(number) = within(number, least, most) else {
        return Err(SettingsFault::OutOfRange(Text::of(alloc, key)?));
    };
    Ok(number)
}

pub(crate) fn text_at<'a>(
    alloc: Global,
    key: &str,
    value: &'a Value,
) -> Result<&'a str, SettingsFault>
    ensures { GivesAs (λ t. t.now) result (text_at key.now (view value.now)) }
{
    let Some(text) = value.as_str() else {
        return Err(SettingsFault::WrongKind(Text::of(alloc, key)?));
    };
    Ok(text)
}

pub(crate) fn net_at(alloc: Global, key: &str, value: &Value) -> Result<Net, SettingsFault>
    ensures { Gives result (net_at key.now (view value.now)) }
{
    let text = text_at(alloc, key, value)?;
    let Some(net) = net_of(text) else {
        return Err(SettingsFault::BadNet(Text::of(alloc, key)?));
    };
    Ok(net)
}

pub fn spot_at(alloc: Global, key: &str, value: &Value) -> Result<Spot, SettingsFault>
    ensures { Gives result (spot_at key.now (view value.now)) }
{
    let text = text_at(alloc, key, value)?;
    let Some(spot) = spot_of(text) else {
        return Err(SettingsFault::BadPlace(Text::of(alloc, key)?));
    };
    Ok(spot)
}
