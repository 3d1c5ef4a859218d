//! What holds of every trace.

ghost use Rattle.session_trace.specs.Growing.{GoesOn, BoardsGoOn, ExchangeGoesOn, MoveGoesOn};
ghost use Rattle.session_trace.specs.Headline.{CallHeadline, Headline, ToldFrames};

use proxy_outside::Machine;
use session_model::Session;

/// For each trace that fits a call and is honest, the bytes given to the client are one `N` for each refusal of
/// encryption, and then begin what one session, never moved, says; or they are the rejection. That session is told
/// each message that was forwarded, once and in order.
pub fn headline<S: Session>()
    ensures call { CallHeadline S.kind S.Store.rules }
    ensures begins { Headline S.kind S.Store.rules }
    ensures told { ToldFrames S.Store.Reply }
{}

/// A trace so far with one round more is one, and the board shows it; so it is after an exchange that leaves the
/// session where it is, and after a move.
pub fn a_trace_goes_on()
    ensures round { GoesOn }
    ensures boards { BoardsGoOn }
    ensures exchange { ExchangeGoesOn }
    ensures moves { MoveGoesOn }
{}
