//! Networks as text.

ghost use Rattle.std.specs.Prelude.{◌≡◌};
ghost use Rattle.std.specs.Option.{option_copied};
ghost use Rattle.access_lists.specs.Networks.{width_of};
ghost use Rattle.access_lists.specs.NetTexts.{before_slash, behind_slash, ReadsNumber, ReadsPrefix, ReadsNet};

use crate::address_text::read_addr;
use crate::fault::NetFault;
use crate::net::Net;
use proxy_outside::Addr;

/// What stands before the first slash, and behind it, where there is one.
fn parts(t: &str) -> (&str, Option<&str>)
    ensures before { result.0.now ≡ before_slash t.now }
    ensures behind { option_copied result.1 ≡ behind_slash t.now }
{
    match t.split_once('/') {
        Some((address, prefix)) => (address, Some(prefix)),
        None => (t, None),
    }
}

/// The number of bits of an address.
fn width_of(addr: &Addr) -> u8
    ensures { result ≡ width_of addr.now }
{
    match addr {
        Addr::V4(_) => 32,
        Addr::V6(_) => 128,
    }
}

/// Reads a prefix in decimal without leading zeros, of this many bits at most.
fn read_number(t: &str, width: u8) -> Result<u8, NetFault>
    ensures { ReadsNumber width t.now result }
{
    let Ok(prefix) = t.parse::<u8>() else {
        return Err(NetFault::BadPrefix);
    };
    if prefix > width {
        return Err(NetFault::BadPrefix);
    }
    let mut buffer = itoa::Buffer::new();
    if buffer.format(prefix) != t {
        return Err(NetFault::BadPrefix);
    }
    Ok(prefix)
}

/// Reads a prefix, which is all bits where none is given.
fn read_prefix(t: Option<&str>, width: u8) -> Result<u8, NetFault>
    ensures { ReadsPrefix width (option_copied t.entry) result }
{
    match t {
        Some(number) => read_number(number, width),
        None => Ok(width),
    }
}

/// Reads a network: an address, and behind a slash the prefix in decimal without leading zeros, at
/// most 32 for IPv4 and 128 for IPv6, which it also is where there is no slash. `BadAddress` where no
/// address stands before the first slash, whatever stands behind it, and else `BadPrefix`. It takes no
/// memory.
pub fn read_net(t: &str) -> Result<Net, NetFault>
    ensures { ReadsNet t.now result }
{
    let (address, prefix) = parts(t);
    let addr = read_addr(address)?;
    let prefix = read_prefix(prefix, width_of(&addr))?;
    Ok(Net { addr, prefix })
}
