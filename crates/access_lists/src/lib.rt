//! Who may come in: deny entries and allow lists, by network and by tenant.
//!
//! Addresses and networks are read from text, and a list of entries gives its verdict on a client: its
//! address, its tenant and the moment. An IPv4-mapped address is an IPv6 address here; who takes an
//! address from a socket maps it first (`Addr::from_v6`). No host names, zones or ports are read.
//!
//! Sources: RFC 4291, "IP Version 6 Addressing Architecture", 2.2 and 2.3; RFC 4632, "Classless
//! Inter-domain Routing", 3.1.
#![tactic(auto)]

mod address_text;
mod allow_list;
mod by_tenant;
mod deny;
mod fault;
mod laws;
mod lists;
mod net;
mod network_text;
mod verdict;

pub use address_text::read_addr;
pub use deny::{Deny, Who};
pub use fault::NetFault;
pub use laws::{a_network_has_one_reading, an_address_has_one_reading};
pub use lists::Lists;
pub use net::Net;
pub use network_text::read_net;
pub use verdict::Verdict;

#[cfg(test)]
mod tests;
