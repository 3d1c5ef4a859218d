//! What is sent in a transfer.

ghost use Rattle.std.specs.Prelude.{◌≡◌, ◌<◌, ◌≤◌, ◌+◌, None, length, not, nat_lt, codes, IfOk, MatchOption};
ghost use Rattle.pgw_frames.specs.Frames.{frame_bytes};
ghost use Rattle.pgw_messages.specs.Params.{value_of};
ghost use Rattle.session_model.specs.Texts as text;
ghost use Rattle.transfer_stages.specs.Exchange.{packet};

use pgw_frames::{Bytes, NoMemory, Text, write_frame};
use pgw_messages::{FrontMsg, Params, startup_bytes_with};
use std::alloc::Global;

/// The parameter in which a startup packet carries a revival token.
const TOKEN_NAME: &str = "crdb:session_revival_token_base64";

/// The most bytes of a startup packet behind its length, its version and the zero byte at its end.
const MOST_PAIRS: usize = 11_899_991;

/// The bytes of a Query with this text.
pub(crate) fn query(alloc: Global, t: Text) -> Result<Bytes, NoMemory>
    requires { length t < 16777216 }
    ensures { IfOk result (λ b. b ≡ frame_bytes (text.query t)) }
{
    let frame = FrontMsg::Query(t).into_frame(alloc)?;
    let mut out = Bytes::new(alloc);
    write_frame(&frame, &mut out)?;
    Ok(out)
}

/// The startup packet of these parameters with a revival token, which they don't have yet.
#[tactic(auto, unfolding(transfer_stages::specs::Exchange::packet))]
pub(crate) fn packet(alloc: Global, params: &Params, token: &str) -> Result<Bytes, NoMemory>
    requires fits { length (packet params.now token.now) ≤ 11900000 }
    requires new { value_of (codes "crdb:session_revival_token_base64") params.now ≡ None }
    ensures { IfOk result (λ b. b ≡ packet params.now token.now) }
{
    startup_bytes_with(alloc, params, TOKEN_NAME, token)
}

/// What is left of so much room behind a name and a value.
fn room_behind(room: usize, name: &[u8], value: &[u8]) -> Option<usize>
    ensures { MatchOption result (room < length name.now + length value.now + 2) (λ left. left + (length name.now + length value.now + 2) ≡ room) }
{
    room.checked_sub(name.len())?
        .checked_sub(value.len())?
        .checked_sub(2)
}

/// Whether the startup packet with this token is within its limit.
pub(crate) fn packet_fits(params: &Params, token: &[u8]) -> bool
    ensures { result ≡ not (nat_lt 11900000 (length (packet params.now token.now))) }
{
    let pairs = params.as_slice();
    let mut room = MOST_PAIRS;
    for q in pairs {
        match room_behind(
            room,
            q.name.as_str().as_bytes(),
            q.value.as_str().as_bytes(),
        ) {
            Some(left) => room = left,
            None => return false,
        }
    }
    room_behind(room, TOKEN_NAME.as_bytes(), token).is_some()
}
