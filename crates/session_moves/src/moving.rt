//! An attempt.

ghost use Rattle.std.specs.Prelude.{◌≡◌, ◌≤◌, None, codes};
ghost use Rattle.pgw_messages.specs.Params.{value_of};
ghost use Rattle.session_round.specs.Halves.{now_of};
ghost use Rattle.session_moves.specs.Attempts.{Draws, Tries};

use link_transfer::{Transferred, transfer};
use pgw_messages::{Params, PodKey};
use proxy_links::{Dialer, Words};
use proxy_outside::{Place, Sink, Source};
use session_model::TransferKey;
use session_round::Live;
use std::alloc::Global;
use transfer_stages::Cut;

/// What an attempt came to.
#[derive(Drop)]
pub enum Tried {
    /// The session is at the new link; its key there is the one of the greeting, where it had one.
    Moved(Option<PodKey>),
    /// It stays where it is: a pod refused, or there was no link to the new one, or that one was left.
    Stayed,
    /// It stays where it is, for want of memory.
    Starved,
    /// The old link is of no more use.
    Cut(Cut),
}

/// What a connection owns behind an attempt, and what that came to.
#[derive(Drop)]
pub struct Attempted<S, K, T, R> {
    pub live: Live<S, K, T, R>,
    pub tried: Tried,
}

/// A key that was not used before, as far as chance can say.
fn draw_key<D: Words>(words: &mut D) -> TransferKey
    ensures { Draws (D.given words.old) (D.given words.new) result }
{
    let high = words.next();
    let low = words.next();
    TransferKey { high, low }
}

/// Tries to move the session to the pod at this place. `params` are those of its startup packet, and either pod may be
/// idle fewer than `patience` reads. Behind `Cut` the link is still to be hung up.
pub fn try_move<S: Source + Drop, K: Sink + Drop, D: Dialer, W: Words>(
    alloc: Global,
    dialer: &mut D,
    words: &mut W,
    live: Live<S, K, D::Tx, D::Rx>,
    at: Place,
    params: &Params,
    patience: u64,
) -> Attempted<S, K, D::Tx, D::Rx>
    requires patient { 1 ≤ patience }
    requires plain { value_of (codes "crdb:session_revival_token_base64") params.now ≡ None }
    requires alike { (D.Tx.target live.tx).link ≡ (D.Rx.origin live.rx).link }
    requires open { 1 ≤ (D.links dialer.old).live }
    ensures { Tries params.now patience at (W.given words.old) (W.given words.new) (D.links dialer.old) (D.links dialer.new)
        (now_of S.origin K.target D.Tx.target D.Rx.origin live) (now_of S.origin K.target D.Tx.target D.Rx.origin result.live)
        result.tried }
{
    let key = draw_key(words);
    let mut live = live;
    match transfer(
        alloc,
        dialer,
        &mut live.tx,
        &mut live.rx,
        at,
        params,
        &key,
        patience,
    ) {
        Transferred::Moved(tx, rx, pod_key) => {
            dialer.hang_up(live.tx, live.rx);
            Attempted {
                live: Live {
                    client_in: live.client_in,
                    client_out: live.client_out,
                    tx,
                    rx,
                    request: live.request,
                    response: live.response,
                },
                tried: Tried::Moved(pod_key),
            }
        }
        Transferred::Refused(why) => {
            drop(why);
            Attempted {
                live,
                tried: Tried::Stayed,
            }
        }
        Transferred::RevivalRefused(fields) => {
            drop(fields);
            Attempted {
                live,
                tried: Tried::Stayed,
            }
        }
        Transferred::DialFault => Attempted {
            live,
            tried: Tried::Stayed,
        },
        Transferred::NewCut(c) => {
            drop(c);
            Attempted {
                live,
                tried: Tried::Stayed,
            }
        }
        Transferred::OldCut(c) => Attempted {
            live,
            tried: Tried::Cut(c),
        },
        Transferred::NoMemory => Attempted {
            live,
            tried: Tried::Starved,
        },
    }
}
