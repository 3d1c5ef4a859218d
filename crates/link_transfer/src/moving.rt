//! A transfer, and what it came to.

ghost use Rattle.std.specs.Prelude.{◌≡◌, ◌≤◌, ℕ, List, None, Some, codes};
ghost use Rattle.pgw_messages.specs.Params.{value_of};
ghost use Rattle.pgw_messages.specs.declared.params.Pair.{Pair as Param};
ghost use Rattle.session_model.specs.declared.transfer.TransferKey.{TransferKey as Key};
ghost use Rattle.proxy_outside.specs.declared.place.Place.{Place as Spot};
ghost use Rattle.transfer_stages.specs.Exchange.{wants, ended};
ghost use Rattle.transfer_stages.specs.declared.stage.Stage.TheVariants as stages;
ghost use Rattle.transfer_stages.specs.declared.stage.Want.TheVariants as want;
ghost use Rattle.transfer_exchange.specs.Course.{key_of, params_of, stage_of};
ghost use Rattle.link_transfer.specs.Transfers.{Tries, Goes, Transfers};
ghost use Rattle.link_transfer.specs.Settling.{IsNewOutcome, IsOldOutcome, new_outcome, old_outcome};

use crate::exchange::{DUE, End, ask, drain, hear_old, meet};
use pgw_frames::Text;
use pgw_messages::{OwnedFields, Params, PodKey};
use proxy_links::{Dialed, Dialer};
use proxy_outside::Place;
use session_model::TransferKey;
use std::alloc::Global;
use transfer_exchange::Exchange;
use transfer_stages::{Cut, Outcome, Want};

/// What a transfer came to. In every case but `Moved` and `OldCut` the session goes on at the old pod.
#[derive(Drop)]
pub enum Transferred<T, R> {
    /// The session is at the other end of this link; its key there is the one of the greeting, where it had one.
    Moved(T, R, Option<PodKey>),
    /// The old pod says why the session can't be moved now, in a text that isn't empty.
    Refused(Text),
    /// The new pod answered with an ErrorResponse of these fields.
    RevivalRefused(OwnedFields),
    /// There is no link to the new pod.
    DialFault,
    /// The new pod was left; its link was hung up.
    NewCut(Cut),
    /// The old pod was left; what it still owes isn't known, and its link is of no more use.
    OldCut(Cut),
    NoMemory,
}

/// What the new pod's messages came to.
#[derive(Drop)]
pub(crate) enum NewSettled {
    Moved(Option<PodKey>),
    Refused(OwnedFields),
    Cut(Cut),
}

/// What the old pod's messages came to, where there is no state.
#[derive(Drop)]
pub(crate) enum OldSettled {
    Refused(Text),
    Cut(Cut),
}

/// What the machine came to, where it ended with the new pod.
fn settle_new(x: Exchange) -> NewSettled
    requires { IsNewOutcome (ended (stage_of x)) }
    ensures { ended (stage_of x) ≡ Some (new_outcome result) }
{
    match x.into_outcome() {
        Some(Outcome::Moved(key)) => NewSettled::Moved(key),
        Some(Outcome::RevivalRefused(fields)) => NewSettled::Refused(fields),
        Some(Outcome::NewCut(c)) => NewSettled::Cut(c),
        Some(Outcome::Refused(_)) => unreachable!(),
        Some(Outcome::DialFault) => unreachable!(),
        Some(Outcome::OldCut(_)) => unreachable!(),
        None => unreachable!(),
    }
}

/// What the machine came to, where it ended with the old pod.
fn settle_old(x: Exchange) -> OldSettled
    requires { IsOldOutcome (ended (stage_of x)) }
    ensures { ended (stage_of x) ≡ Some (old_outcome result) }
{
    match x.into_outcome() {
        Some(Outcome::Refused(t)) => OldSettled::Refused(t),
        Some(Outcome::OldCut(c)) => OldSettled::Cut(c),
        Some(Outcome::Moved(_)) => unreachable!(),
        Some(Outcome::RevivalRefused(_)) => unreachable!(),
        Some(Outcome::NewCut(_)) => unreachable!(),
        Some(Outcome::DialFault) => unreachable!(),
        None => unreachable!(),
    }
}

/// Dials the new pod, and opens the session there. A link that the session isn't moved to is hung up.
fn try_pod<D: Dialer>(
    alloc: Global,
    x: Exchange,
    dialer: &mut D,
    at: Place,
    patience: u64,
) -> Transferred<D::Tx, D::Rx>
    requires patient { 1 ≤ patience }
    requires dials { wants (stage_of x) ≡ want.Dial }
    ensures { (state token : List ℕ) → stage_of x ≡ stages.Dial state token
        → Tries D.Tx.target D.Rx.origin (key_of x) (params_of x) state token at patience
        (D.links dialer.old) (D.links dialer.new) result }
{
    match dialer.dial(at) {
        Dialed::Failed => Transferred::DialFault,
        Dialed::Link(tx, rx) => {
            let mut x = x;
            let mut tx = tx;
            let mut rx = rx;
            x.dialed(true);
            match meet(alloc, &mut x, &mut tx, &mut rx, patience) {
                End::Heard => match settle_new(x) {
                    NewSettled::Moved(key) => Transferred::Moved(tx, rx, key),
                    NewSettled::Refused(fields) => {
                        dialer.hang_up(tx, rx);
                        Transferred::RevivalRefused(fields)
                    }
                    NewSettled::Cut(c) => {
                        dialer.hang_up(tx, rx);
                        Transferred::NewCut(c)
                    }
                },
                End::Lost => {
                    drop(x);
                    dialer.hang_up(tx, rx);
                    Transferred::NoMemory
                }
                End::Cut(c) => {
                    drop(x);
                    dialer.hang_up(tx, rx);
                    Transferred::NewCut(c)
                }
            }
        }
    }
}

/// Hears the old pod's reply to the transfer Query, and tries the new pod where it gave a state.
fn go<D: Dialer>(
    alloc: Global,
    x: Exchange,
    dialer: &mut D,
    old_rx: &mut D::Rx,
    at: Place,
    patience: u64,
) -> Transferred<D::Tx, D::Rx>
    requires patient { 1 ≤ patience }
    requires asked { stage_of x ≡ stages.OldColumns }
    ensures { Goes D.Tx.target D.Rx.origin (key_of x) (params_of x) at patience (D.links dialer.old) (D.links dialer.new)
        (D.Rx.origin old_rx.old) (D.Rx.origin old_rx.new) result }
{
    let mut x = x;
    match hear_old(alloc, &mut x, old_rx, patience) {
        End::Heard => {
            if x.want() == Want::Dial {
                return try_pod(alloc, x, dialer, at, patience);
            }
            match settle_old(x) {
                OldSettled::Refused(t) => Transferred::Refused(t),
                OldSettled::Cut(c) => Transferred::OldCut(c),
            }
        }
        End::Lost => {
            drop(x);
            Transferred::NoMemory
        }
        End::Cut(c) => {
            drop(x);
            Transferred::OldCut(c)
        }
    }
}

/// Reads the old pod's reply and drops it, where there is no memory for the machine.
fn give_up<D: Dialer>(
    old_rx: &mut D::Rx,
    dialer: &mut D,
    patience: u64,
) -> Transferred<D::Tx, D::Rx>
    requires patient { 1 ≤ patience }
    ensures { (t : Key) (p : List Param) (at : Spot) → Goes D.Tx.target D.Rx.origin t p at patience
        (D.links dialer.old) (D.links dialer.new) (D.Rx.origin old_rx.old) (D.Rx.origin old_rx.new) result }
{
    match drain(old_rx, &DUE, 0, patience) {
        Ok(_) => Transferred::NoMemory,
        Err(c) => Transferred::OldCut(c),
    }
}

/// Moves a session from the pod at the other end of these halves to the pod at this place. `params` are those of
/// the session's startup packet. Either pod may be idle fewer than `patience` reads over its whole exchange.
///
/// Unless the answer is `OldCut`, the old pod's reply was read to its end and no byte further. A new link is hung
/// up in every answer but `Moved`.
pub fn transfer<D: Dialer>(
    alloc: Global,
    dialer: &mut D,
    old_tx: &mut D::Tx,
    old_rx: &mut D::Rx,
    at: Place,
    params: &Params,
    key: &TransferKey,
    patience: u64,
) -> Transferred<D::Tx, D::Rx>
    requires patient { 1 ≤ patience }
    requires plain { value_of (codes "crdb:session_revival_token_base64") params.now ≡ None }
    ensures { Transfers D.Tx.target D.Rx.origin key.now params.now at patience (D.links dialer.old) (D.links dialer.new)
        (D.Tx.target old_tx.old) (D.Tx.target old_tx.new) (D.Rx.origin old_rx.old) (D.Rx.origin old_rx.new) result }
{
    if !ask(old_tx, key) {
        return Transferred::OldCut(Cut::WriteFault);
    }
    match Exchange::start(alloc, key, params) {
        Ok(x) => {
            let mut x = x;
            x.sent();
            go(alloc, x, dialer, old_rx, at, patience)
        }
        Err(_) => give_up(old_rx, dialer, patience),
    }
}
