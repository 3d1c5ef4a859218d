//! What holds of all that a call asks.

ghost use Rattle.session_asks.specs.Laws.{AttemptsAreNamed, OnlyTheAdmittedAreDialed, DialsAreNamed, AsksGoOn};

/// There are as many attempts to move a session as places that the hub named for it.
pub fn attempts_are_named()
    ensures { AttemptsAreNamed }
{}

/// Where the hub didn't admit the client no pod is dialed, and nothing more is asked.
pub fn only_the_admitted_are_dialed()
    ensures { OnlyTheAdmittedAreDialed }
{}

/// No pod is dialed but those that the hub named, in their order.
pub fn dials_are_named()
    ensures { DialsAreNamed }
{}

/// What was asked between rounds, with what is asked after one round more.
pub fn asks_go_on()
    ensures { AsksGoOn }
{}
