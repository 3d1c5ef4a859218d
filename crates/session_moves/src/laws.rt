//! What an attempt adds to a trace.

ghost use Rattle.session_moves.specs.Going.{AttemptsGoOn, AttemptsTell};

/// Says of every attempt, where the session stands at a safe point behind a trace so far and the dialer tells its dials
/// and records, that the trace with this attempt is one: the session stands behind it, or the call ended by it with both
/// sides parked. The transfer Query and its reply fit a round, the place was dialed exactly where the old pod gave a
/// state, but for want of memory, and the record says what the attempt came to; a move is to a link whose opening gave
/// just the key that the session has there. What tells its lists behind an attempt did so before it.
pub fn attempts_go_on()
    ensures trace { AttemptsGoOn }
    ensures tells { AttemptsTell }
{}
