//! Addresses of clients and pods.

ghost use Rattle.proxy_outside.specs.Addr.{addr_of_v6};
ghost use Rattle.std.specs.Prelude.{◌≡◌};

/// An IP address, as the number that its bytes write, the highest byte first.
#[derive(Clone, Copy, Debug, PartialEq, Eq, PartialOrd, Ord)]
pub enum Addr {
    V4(u32),
    V6(u128),
}

impl Addr {
    /// The address of these 128 bits: the IPv4 address where they map one (`::ffff:0:0/96`), and
    /// else the IPv6 address.
    pub fn from_v6(bits: u128) -> Addr
        ensures { result ≡ addr_of_v6 bits }
    {
        if bits >> 32 == 0xffff {
            Addr::V4((bits & 0xffff_ffff) as u32)
        } else {
            Addr::V6(bits)
        }
    }
}
