//! The length and the code that a packet begins with.

ghost use Rattle.std.specs.Prelude.{◌≡◌, ◌+◌, ◌≤◌, ◌-◌, length, if◌then◌else◌, nat_lt};
ghost use Rattle.startup_route.specs.Packets.{word_at, kind_of, missing};

/// What a packet asks for, by its code.
#[derive(Clone, Copy, Debug, PartialEq, Eq)]
pub(crate) enum Kind {
    /// SSLRequest or GSSENCRequest.
    Encryption,
    /// CancelRequest.
    Cancelling,
    /// StartupMessage.
    Starting,
    Unknown,
}

/// The big-endian number at this place.
pub(crate) fn word_at(bytes: &[u8], place: usize) -> u32
    requires { place + 4 ≤ length bytes.now }
    ensures { result ≡ word_at place bytes.now }
{
    u32::from_be_bytes([
        bytes[place],
        bytes[place + 1],
        bytes[place + 2],
        bytes[place + 3],
    ])
}

pub(crate) fn kind_of(code: u32) -> Kind
    ensures { result ≡ kind_of code }
{
    match code {
        80_877_103 | 80_877_104 => Kind::Encryption,
        80_877_102 => Kind::Cancelling,
        196_608 => Kind::Starting,
        _ => Kind::Unknown,
    }
}

/// How many bytes are missing of the length, of the code, or else of the whole packet.
#[tactic(auto, unfolding(crate::specs::Packets::missing))]
pub(crate) fn missing(packet: &[u8]) -> usize
    ensures { result ≡ missing packet.now }
{
    if packet.len() < 4 {
        return 4 - packet.len();
    }
    if packet.len() < 8 {
        return 8 - packet.len();
    }
    (word_at(packet, 0) as usize).saturating_sub(packet.len())
}
