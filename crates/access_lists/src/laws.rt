//! Each text has one reading.

ghost use Rattle.access_lists.specs.Readings.{AddressesReadOnce, NetworksReadOnce};

/// Says that a text spells one address at most. So what a text spells is what `read_addr` reads.
pub fn an_address_has_one_reading()
    ensures { AddressesReadOnce }
{}

/// Says that a text spells one network at most. So what a text spells is what `read_net` reads.
pub fn a_network_has_one_reading()
    ensures { NetworksReadOnce }
{}
