//! Where a session may be moved.

ghost use Rattle.std.specs.Prelude.{◌≡◌};
ghost use Rattle.session_rounds.specs.Turns.{is_parked, is_look, DueBy};

use safe_point::is_safe;
use session_legs::LegEnd;
use session_round::Live;

/// Whether a leg was told to stop for a move.
fn is_parked(end: LegEnd) -> bool
    ensures { result ≡ is_parked end }
{
    match end {
        LegEnd::Parked => true,
        LegEnd::Over => false,
        LegEnd::Terminated => false,
        LegEnd::Ended => false,
        LegEnd::Cut => false,
        LegEnd::Bad(_) => false,
        LegEnd::ReadFault => false,
        LegEnd::WriteFault => false,
        LegEnd::NoMemory => false,
    }
}

/// Whether a leg ended because the board said so.
pub fn is_look(end: LegEnd) -> bool
    ensures { result ≡ is_look end }
{
    match end {
        LegEnd::Parked => true,
        LegEnd::Over => true,
        LegEnd::Terminated => false,
        LegEnd::Ended => false,
        LegEnd::Cut => false,
        LegEnd::Bad(_) => false,
        LegEnd::ReadFault => false,
        LegEnd::WriteFault => false,
        LegEnd::NoMemory => false,
    }
}

/// Whether both legs parked at a safe point, and nothing is held of the pod's bytes.
pub(crate) fn is_due<S, K, T, R>(live: &Live<S, K, T, R>, request: LegEnd, response: LegEnd) -> bool
    ensures { DueBy live.now.request live.now.response request response result }
{
    if !is_parked(request) {
        return false;
    }
    if !is_parked(response) {
        return false;
    }
    let asked = live.request.tally();
    let replied = live.response.tally();
    is_safe(&asked, &replied)
}
