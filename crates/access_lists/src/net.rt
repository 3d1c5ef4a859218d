//! Networks of addresses.

ghost use Rattle.std.specs.Prelude.{◌≡◌, ◌/◌, ◌-◌, ◌^◌};
ghost use Rattle.access_lists.specs.Networks.{has};

use proxy_outside::Addr;

/// The addresses of one family that begin with the same bits.
#[derive(Clone, Copy, Debug, PartialEq, Eq)]
pub struct Net {
    pub addr: Addr,
    /// How many bits of the address count. One above 32 (IPv4) or 128 (IPv6) is that number.
    pub prefix: u8,
}

/// The bits of the prefix of an IPv4 address.
fn front_v4(bits: u32, prefix: u8) -> u32
    ensures { result ≡ bits / 2 ^ (32 - prefix) }
{
    let behind = 32u32.saturating_sub(prefix as u32);
    bits.checked_shr(behind).unwrap_or(0)
}

/// The bits of the prefix of an IPv6 address.
fn front_v6(bits: u128, prefix: u8) -> u128
    ensures { result ≡ bits / 2 ^ (128 - prefix) }
{
    let behind = 128u32.saturating_sub(prefix as u32);
    bits.checked_shr(behind).unwrap_or(0)
}

impl Net {
    /// Whether the address is in the network. An IPv4 network has no IPv6 address, and the other
    /// way round. It takes no memory.
    pub fn has(&self, a: &Addr) -> bool
        ensures { result ≡ has self.now a.now }
    {
        let prefix = self.prefix;
        match (self.addr, *a) {
            (Addr::V4(net), Addr::V4(bits)) => front_v4(net, prefix) == front_v4(bits, prefix),
            (Addr::V6(net), Addr::V6(bits)) => front_v6(net, prefix) == front_v6(bits, prefix),
            (Addr::V4(_), Addr::V6(_)) | (Addr::V6(_), Addr::V4(_)) => false,
        }
    }
}
