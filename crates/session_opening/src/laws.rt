//! What holds of every opening.

ghost use Rattle.session_opening.specs.ClosedCalls.{EndsFit};
ghost use Rattle.session_opening.specs.OpenCalls.{ReadysFit};

/// Says of an opening that came to no session that a trace with no round fits the call that ends so, whatever was refused
/// before, and that what was asked and dialed fits that trace. The trace has the opening of the link that was hung up, where
/// one came. Premises: the dialer tells its dials, and what was got are bytes.
pub fn endings_fit()
    ensures { EndsFit }
{}

/// Says of an opening whose session is ready that it is the first opening of a trace, that the trace so far stands as its
/// rounds begin, and that what was asked, followed by what any rounds ask and by the release, is what a call asks.
pub fn ready_sessions_fit()
    ensures { ReadysFit }
{}
