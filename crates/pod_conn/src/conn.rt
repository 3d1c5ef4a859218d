//! One connection, from its first packet to its end.

ghost use Rattle.std.specs.Prelude.{◌≡◌, Some, [], IfSome};
ghost use Rattle.pgw_messages.specs.Params.{value_of};
ghost use Rattle.pod_conn.specs.Logins.{user_name, login};
ghost use Rattle.pod_conn.specs.Replies.{logged_in};
ghost use Rattle.pod_conn.specs.Serving.{At, Ends, Serves, sight};

use crate::end::PodEnd;
use crate::entrance::enter;
use crate::login::open;
use crate::params::USER;
use crate::port::StorePort;
use crate::serving::serve_session;
use crate::settings::PodSettings;
use crate::wire::Wire;
use pgw_frames::{ByteQueue, Text};
use pgw_messages::Params;
use proxy_links::Clock;
use proxy_outside::{Sink, Source};
use session_model::Session;
use std::alloc::Global;
use std::sync::Wait;

/// A connection that was served: its two halves, the user that its startup packet names, where there was memory to keep
/// that, and why it ended.
#[derive(Drop)]
pub struct Served<S, K> {
    pub client_in: S,
    pub client_out: K,
    pub user: Option<Text>,
    pub end: PodEnd,
}

/// The user that these parameters name.
fn user_in(alloc: Global, params: &Params) -> Option<Text>
    ensures { IfSome result (λ u. value_of user_name params.now ≡ Some u) }
{
    Text::of(alloc, params.value(USER)?).ok()
}

/// Serves a client that came with these parameters of a startup packet.
fn serve_visitor<W: Wait, T: Session, S: Source, K: Sink, P: StorePort<T::Store>, C: Clock>(
    rt: &W,
    alloc: Global,
    pod: &PodSettings,
    wire: &mut Wire<S, K>,
    port: &mut P,
    clock: &mut C,
    params: &Params,
) -> PodEnd
    ensures { At (C.given clock.old) (C.given clock.new) (λ now. Ends (λ b rs. logged_in T.kind pod.now (login pod.now now params.now b) rs) wire.old.held
        (sight (S.origin wire.old.client_in) (K.target wire.old.client_out) (P.port port.old))
        (sight (S.origin wire.new.client_in) (K.target wire.new.client_out) (P.port port.new)) result) }
{
    match open(rt, alloc, pod, wire, clock, params) {
        Ok(session) => serve_session::<W, T, S, K, P>(rt, alloc, wire, port, &session),
        Err(end) => end,
    }
}

/// Serves a client from its first packet on, and says who it is.
fn serve_wire<W: Wait, T: Session, S: Source, K: Sink, P: StorePort<T::Store>, C: Clock>(
    rt: &W,
    alloc: Global,
    pod: &PodSettings,
    wire: &mut Wire<S, K>,
    port: &mut P,
    clock: &mut C,
) -> (Option<Text>, PodEnd)
    requires { wire.old.held ≡ [] }
    ensures { Serves T.kind pod.now (C.given clock.old) (C.given clock.new)
        (sight (S.origin wire.old.client_in) (K.target wire.old.client_out) (P.port port.old))
        (sight (S.origin wire.new.client_in) (K.target wire.new.client_out) (P.port port.new)) result.0 result.1 }
{
    match enter(rt, alloc, wire) {
        Ok(params) => {
            let user = user_in(alloc, &params);
            let end = serve_visitor::<W, T, S, K, P, C>(rt, alloc, pod, wire, port, clock, &params);
            (user, end)
        }
        Err(end) => (None, end),
    }
}

/// Serves one connection with a session of this kind, up to its end. The session begins with the parameters of the
/// startup packet and the pod's token.
///
/// What is written is what `conn_course` has for the bytes that were taken, with the answers that the port gave here and,
/// where a revival token is judged, at the moment that the clock gave; but after `WriteFault` and `NoMemory` it may be a
/// front of that. Each end comes by its cause alone.
pub fn serve_conn<W: Wait, T: Session, S: Source, K: Sink, P: StorePort<T::Store>, C: Clock>(
    rt: &W,
    alloc: Global,
    pod: &PodSettings,
    client_in: S,
    client_out: K,
    port: &mut P,
    clock: &mut C,
) -> Served<S, K>
    ensures { Serves T.kind pod.now (C.given clock.old) (C.given clock.new)
        (sight (S.origin client_in) (K.target client_out) (P.port port.old))
        (sight (S.origin result.client_in) (K.target result.client_out) (P.port port.new)) result.user result.end }
{
    let mut wire = Wire {
        client_in,
        client_out,
        held: ByteQueue::new(alloc),
    };
    let (user, end) = serve_wire::<W, T, S, K, P, C>(rt, alloc, pod, &mut wire, port, clock);
    let Wire {
        client_in,
        client_out,
        held: _,
    } = wire;
    Served {
        client_in,
        client_out,
        user,
        end,
    }
}
