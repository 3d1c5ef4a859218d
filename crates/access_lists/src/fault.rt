//! What isn't an address or a network.

/// Why a text was refused. Where both are so, it is a bad address (`10.0.0.01/33`).
#[derive(Clone, Copy, Debug, PartialEq, Eq)]
pub enum NetFault {
    /// The text of `read_addr` is no address (`10.0.0.01`, `10.0.0.1/8`), or the part before the first
    /// slash of the text of `read_net` is none.
    BadAddress,
    /// An address stands before the first slash, and behind it no prefix of the address's family
    /// (`10.0.0.0/33`). Only `read_net` answers so.
    BadPrefix,
}
