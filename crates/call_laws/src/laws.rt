//! What holds of every session that ran.

ghost use Rattle.call_laws.specs.Served.{SessionsFit};

/// Says of a session that ran from a ready opening to its end that a trace fits its call, whatever was refused before; that what
/// was asked, dialed and drawn fits that trace, as does the number of asks that came to nothing; and that the board's looks do.
/// Premises: the dialer tells its dials and counted them before, and bytes are told of the links that were hung up and of the
/// client's source.
pub fn sessions_fit()
    ensures { SessionsFit }
{}
