//! An address with a port, as text.

ghost use Rattle.std.specs.Prelude.{◌≡◌, option_map};
ghost use Rattle.std.specs.Option.{option_copied};
ghost use Rattle.std.specs.Result.{result_ok};
ghost use Rattle.proxy_config.specs.Texts.{addr_of, net_of, is_colon, is_opening, is_closing, split_at, behind_lead, begins_number, port_of, v4_spot, v6_spot, plain_spot, bracketed_spot, spot_by, spot_of};

use crate::settings::Spot;
use access_lists::{Net, read_addr, read_net};
use proxy_outside::Addr;

/// The address that the text spells.
fn addr_of(text: &str) -> Option<Addr>
    ensures { result ≡ addr_of text.now }
{
    match read_addr(text) {
        Ok(addr) => Some(addr),
        Err(_) => None,
    }
}

/// The network that the text spells.
pub(crate) fn net_of(text: &str) -> Option<Net>
    ensures { result ≡ net_of text.now }
{
    match read_net(text) {
        Ok(net) => Some(net),
        Err(_) => None,
    }
}

fn at_colon(text: &str) -> Option<(&str, &str)>
    ensures { option_map (λ p. (p.0.now, p.1.now)) result ≡ split_at is_colon text.now }
{
    text.split_once(':')
}

fn at_opening(text: &str) -> Option<(&str, &str)>
    ensures { option_map (λ p. (p.0.now, p.1.now)) result ≡ split_at is_opening text.now }
{
    text.split_once('[')
}

fn at_closing(text: &str) -> Option<(&str, &str)>
    ensures { option_map (λ p. (p.0.now, p.1.now)) result ≡ split_at is_closing text.now }
{
    text.split_once(']')
}

/// What stands behind a colon, where the text begins with one.
fn behind_colon(text: &str) -> Option<&str>
    ensures { option_copied result ≡ behind_lead is_colon text.now }
{
    match at_colon(text) {
        Some((before, behind)) => if before.is_empty() {
            Some(behind)
        } else {
            None
        },
        None => None,
    }
}

/// What stands behind an opening bracket, where the text begins with one.
fn behind_opening(text: &str) -> Option<&str>
    ensures { option_copied result ≡ behind_lead is_opening text.now }
{
    match at_opening(text) {
        Some((before, behind)) => if before.is_empty() {
            Some(behind)
        } else {
            None
        },
        None => None,
    }
}

/// Whether the text begins with a digit that is no zero.
fn begins_number(text: &[u8]) -> bool
    ensures { result ≡ begins_number text.now }
{
    match text {
        [first, ..] => *first > b'0' && *first <= b'9',
        [] => false,
    }
}

/// A decimal number without a sign or a leading zero: 1 to 65,535.
fn port_of(text: &str) -> Option<u16>
    ensures { result ≡ port_of text.now }
{
    if !begins_number(text.as_bytes()) {
        return None;
    }
    text.parse::<u16>().ok()
}

fn v4_spot(addr: Option<Addr>, port: Option<u16>) -> Option<Spot>
    ensures { result ≡ v4_spot addr port }
{
    match (addr, port) {
        (Some(Addr::V4(bits)), Some(port)) => Some(Spot {
            addr: Addr::V4(bits),
            port,
        }),
        _ => None,
    }
}

fn v6_spot(addr: Option<Addr>, port: Option<u16>) -> Option<Spot>
    ensures { result ≡ v6_spot addr port }
{
    match (addr, port) {
        (Some(Addr::V6(bits)), Some(port)) => Some(Spot {
            addr: Addr::V6(bits),
            port,
        }),
        _ => None,
    }
}

/// An IPv4 address, a colon and a port.
fn plain_spot(text: &str) -> Option<Spot>
    ensures { result ≡ plain_spot text.now }
{
    match at_colon(text) {
        Some((host, port)) => v4_spot(addr_of(host), port_of(port)),
        None => None,
    }
}

/// An IPv6 address behind `[`, and a port behind `:`, of the parts of a text at its first `]`.
fn bracketed_spot(before: &str, behind: &str) -> Option<Spot>
    ensures { result ≡ bracketed_spot before.now behind.now }
{
    let Some(host) = behind_opening(before) else {
        return None;
    };
    let Some(port) = behind_colon(behind) else {
        return None;
    };
    v6_spot(addr_of(host), port_of(port))
}

/// Reads an IPv4 address, or an IPv6 address in square brackets, a colon and a port of 1 to 65,535.
#[tactic(auto, unfolding(crate::specs::Texts::spot_of))]
pub(crate) fn spot_of(text: &str) -> Option<Spot>
    ensures { result ≡ spot_of text.now }
{
    match at_closing(text) {
        Some((before, behind)) => bracketed_spot(before, behind),
        None => plain_spot(text),
    }
}
