//! What is read as an address or a network is what the standard spells.

ghost use Rattle.proxy_config.specs.Texts.{AddressesAreSpelled, NetworksAreSpelled};

/// Says that a text is read as an address exactly where it spells that address.
pub fn an_address_is_spelled()
    ensures { AddressesAreSpelled }
{}

/// Says that a text is read as a network exactly where it spells that network.
pub fn a_network_is_spelled()
    ensures { NetworksAreSpelled }
{}
