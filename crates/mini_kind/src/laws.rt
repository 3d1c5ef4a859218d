//! The laws of the mini session.

ghost use Rattle.mini_kind.specs.Laws.{MiniLaws};

/// Says of the mini session, over its store, what every kind of session keeps: a session that is begun
/// anew and restored from a dump is the session that was dumped, a transfer changes nothing in a quiet
/// session, as many messages end an answer as ask for one, and replies fit in messages.
pub fn a_mini_session_keeps_the_laws()
    ensures { MiniLaws }
{}
