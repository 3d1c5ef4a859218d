//! Addresses as text.

ghost use Rattle.std.specs.Prelude.{◌≡◌, ◌==◌};
ghost use Rattle.std.specs.List.{list_any};
ghost use Rattle.access_lists.specs.Addresses.{ReadsV4, ReadsV6, ReadsAddr, is_dot};

use crate::fault::NetFault;
use proxy_outside::Addr;
use std::net::{Ipv4Addr, Ipv6Addr};

/// Whether a dot stands in the text.
fn has_dot(text: &[u8]) -> bool
    ensures { result ≡ list_any is_dot text.now }
{
    text.contains(&b'.')
}

/// The bits of an IPv4 address.
fn read_v4(t: &str) -> Option<u32>
    ensures { ReadsV4 t.now result }
{
    match t.parse::<Ipv4Addr>() {
        Ok(ip) => Some(ip.to_bits()),
        Err(_) => None,
    }
}

/// The bits of an IPv6 address. The standard library also takes one that ends in an IPv4 address,
/// which has dots.
fn read_v6(t: &str) -> Option<u128>
    ensures { ReadsV6 t.now result }
{
    if has_dot(t.as_bytes()) {
        return None;
    }
    match t.parse::<Ipv6Addr>() {
        Ok(ip) => Some(ip.to_bits()),
        Err(_) => None,
    }
}

/// Reads an address: IPv4 as four decimal numbers without leading zeros, or IPv6 as eight groups of
/// one to four hexadecimal digits, of which one `::` may stand for one zero group or more. An
/// IPv4-mapped address stays an IPv6 address. The only error is `BadAddress`, also where a prefix stands
/// behind an address. It takes no memory.
pub fn read_addr(t: &str) -> Result<Addr, NetFault>
    ensures { ReadsAddr t.now result }
{
    if let Some(bits) = read_v4(t) {
        return Ok(Addr::V4(bits));
    }
    match read_v6(t) {
        Some(bits) => Ok(Addr::V6(bits)),
        None => Err(NetFault::BadAddress),
    }
}
