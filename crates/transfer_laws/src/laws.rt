//! The laws.

ghost use Rattle.transfer_laws.specs.Refusals.{OldCutsAreSaid, NewCutsAreSaid, RevivalRefusalsAreSaid};
ghost use Rattle.transfer_laws.specs.Accepted.{OldReplyIsHeard, NewPodIsHeard, AcceptedMoves};
ghost use Rattle.transfer_laws.specs.Numbers.{TransferKeepsLinks};

use proxy_links::Dialer;

/// Says of each answer by which a pod was left for a message that this message was the last one that was read,
/// and that no accepted reply or greeting has it at its place; and that every other cut stands where a message
/// was awaited, or a text was sent.
pub fn a_refused_message_is_the_last()
    ensures old_pod { OldCutsAreSaid }
    ensures new_pod { NewCutsAreSaid }
    ensures revival { RevivalRefusalsAreSaid }
{}

/// Says that a pod that gives what is accepted is heard to say just that, and is left only where a count of faults
/// rose, or it was idle for so many reads. So where the old pod gives an accepted reply with a state, the session is
/// moved, unless memory, the dial or the new link failed, or the new pod gave what isn't accepted.
pub fn an_accepted_exchange_moves<D: Dialer>()
    ensures old_pod { OldReplyIsHeard }
    ensures new_pod { NewPodIsHeard }
    ensures moves { AcceptedMoves D.Tx.target D.Rx.origin }
{}

/// Says that the old halves keep their link's number, and that the two halves to which the session was moved have
/// one.
pub fn a_transfer_keeps_its_links<D: Dialer>()
    ensures { TransferKeepsLinks D.Tx.target D.Rx.origin }
{}
