//! Whether a startup packet is within its limit.

ghost use Rattle.std.specs.Prelude.{◌≡◌, ◌≤◌, ◌<◌, ◌+◌, ◌↔◌, length, not, nat_lt, IsTrue, MatchOption};
ghost use Rattle.pgw_messages.specs.Startup.{Fits, startup_packet};

use pgw_messages::Params;

/// The most bytes of a startup packet behind its length, its version and the zero byte at its end.
const MOST_PAIRS: usize = 11_899_991;

/// What is left of so much room behind a name and a value.
fn room_behind(room: usize, name: &[u8], value: &[u8]) -> Option<usize>
    ensures { MatchOption result (room < length name.now + length value.now + 2) (λ left. left + (length name.now + length value.now + 2) ≡ room) }
{
    room.checked_sub(name.len())?
        .checked_sub(value.len())?
        .checked_sub(2)
}

/// Whether names and values fit.
fn pairs_fit(params: &Params) -> bool
    ensures { result ≡ not (nat_lt 11900000 (length (startup_packet params.now))) }
{
    let pairs = params.as_slice();
    let mut room = MOST_PAIRS;
    for q in pairs {
        match room_behind(
            room,
            q.name.as_str().as_bytes(),
            q.value.as_str().as_bytes(),
        ) {
            Some(left) => room = left,
            None => return false,
        }
    }
    true
}

/// Whether the startup packet of these parameters is within its limit.
#[tactic(auto, using(crate::proofs::Packets::fits_by))]
pub fn packet_fits(params: &Params) -> bool
    ensures { IsTrue result ↔ Fits params.now }
{
    pairs_fit(params)
}
