//! Addresses of clients and pods as the system's sockets have them.

ghost use Rattle.std.specs.Prelude.{◌≡◌};
ghost use Rattle.std.specs.Net.Socket.{socket_ip, socket_port};
ghost use Rattle.tcp_links.specs.Address.{IsIpOf, addr_of_ip};

use proxy_outside::Addr;
use std::net::{IpAddr, Ipv4Addr, Ipv6Addr, SocketAddr};

fn ip_of(addr: Addr) -> IpAddr
    ensures { IsIpOf addr result }
{
    match addr {
        Addr::V4(bits) => IpAddr::V4(Ipv4Addr::from_bits(bits)),
        Addr::V6(bits) => IpAddr::V6(Ipv6Addr::from_bits(bits)),
    }
}

/// The socket's address of this address and port.
pub fn socket_addr_of(addr: Addr, port: u16) -> SocketAddr
    ensures ip { IsIpOf addr (socket_ip result) }
    ensures port { socket_port result ≡ port }
{
    SocketAddr::new(ip_of(addr), port)
}

/// The address of a peer. An IPv4 address that an IPv6 one maps is the IPv4 one.
pub fn addr_of(ip: IpAddr) -> Addr
    ensures { result ≡ addr_of_ip ip }
{
    match ip {
        IpAddr::V4(ip) => Addr::V4(ip.to_bits()),
        IpAddr::V6(ip) => Addr::from_v6(ip.to_bits()),
    }
}
