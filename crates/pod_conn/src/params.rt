//! The parameters with which a session begins.

ghost use Rattle.std.specs.Prelude.{◌≡◌, ◌≤◌, ◌<◌, ◌+◌, ◌^◌, length, not, nat_lt, string_bytes, Some, IfOk, IfSome, MatchOption};
ghost use Rattle.pgw_messages.specs.Params.{value_of};
ghost use Rattle.pgw_messages.specs.Startup.{Fits, startup_packet};
ghost use Rattle.pod_conn.specs.Logins.{session_params, with_token, token_text, within, user_name};

use crate::settings::PodSettings;
use base64::engine::general_purpose::STANDARD;
use pgw_frames::NoMemory;
use pgw_messages::Params;
use revival_token::issue;
use std::alloc::Global;

pub(crate) const USER: &str = "user";

/// The parameter that a pod adds.
const TOKEN: &str = "crdb:session_token_base64";

/// The parameter by which a session is revived.
pub(crate) const REVIVAL: &str = "crdb:session_revival_token_base64";

/// The most bytes of a startup packet behind its length, its version and the zero byte at its end.
const MOST_PAIRS: usize = 11_899_991;

/// What is left of so much room behind a name and a value.
fn room_behind(room: usize, name: &[u8], value: &[u8]) -> Option<usize>
    ensures { MatchOption result (room < length name.now + length value.now + 2) (λ left. left + (length name.now + length value.now + 2) ≡ room) }
{
    room.checked_sub(name.len())?
        .checked_sub(value.len())?
        .checked_sub(2)
}

/// Whether the startup packet of these parameters is within its limit.
fn packet_fits(params: &Params) -> bool
    ensures { result ≡ not (nat_lt 11900000 (length (startup_packet params.now))) }
{
    let pairs = params.as_slice();
    let mut room = MOST_PAIRS;
    for q in pairs {
        match room_behind(
            room,
            q.name.as_str().as_bytes(),
            q.value.as_str().as_bytes(),
        ) {
            Some(left) => room = left,
            None => return false,
        }
    }
    true
}

/// The text of a token.
fn token_text(alloc: Global, pod: &PodSettings, user: &str) -> Result<String, NoMemory>
    requires { length user.now < 2 ^ 32 }
    ensures { IfOk result (λ t. string_bytes t ≡ token_text pod.now user.now) }
{
    let token = issue(
        alloc,
        pod.secret.as_slice(),
        user,
        pod.tenant,
        pod.token_until,
    )?;
    Ok(STANDARD.encode(alloc, token.as_slice())?)
}

/// The parameters with the pod's token in place of the one that came.
fn with_token(
    alloc: Global,
    pod: &PodSettings,
    user: &str,
    params: &Params,
) -> Result<Params, NoMemory>
    requires { length user.now < 2 ^ 32 }
    ensures { IfOk result (λ p. p ≡ with_token pod.now user.now params.now) }
{
    let text = token_text(alloc, pod, user)?;
    let mut session = params.copy()?;
    session.remove(REVIVAL);
    session.put(TOKEN, text.as_str())?;
    Ok(session)
}

/// What a session of this user begins with, where that fits.
fn params_of_user(
    alloc: Global,
    pod: &PodSettings,
    user: &str,
    params: &Params,
) -> Result<Option<Params>, NoMemory>
    requires { value_of user_name params.now ≡ Some user.now }
    ensures value { IfOk result (λ p. p ≡ within (with_token pod.now user.now params.now)) }
    ensures fits { IfOk result (λ p. IfSome p Fits) }
{
    if user.len() > MOST_PAIRS {
        return Ok(None);
    }
    let session = with_token(alloc, pod, user, params)?;
    if packet_fits(&session) {
        Ok(Some(session))
    } else {
        Ok(None)
    }
}

/// What a session begins with where these are the parameters of the startup packet. There is none where no user is
/// named, the reserved name came, or they are too long.
#[tactic(auto, unfolding(crate::specs::Logins::session_params))]
pub(crate) fn session_params(
    alloc: Global,
    pod: &PodSettings,
    params: &Params,
) -> Result<Option<Params>, NoMemory>
    ensures value { IfOk result (λ p. p ≡ session_params pod.now params.now) }
    ensures fits { IfOk result (λ p. IfSome p Fits) }
{
    match (params.value(TOKEN), params.value(USER)) {
        (None, Some(user)) => params_of_user(alloc, pod, user, params),
        (None, None) => Ok(None),
        (Some(_), _) => Ok(None),
    }
}
