//! A session that is told the client's messages.

ghost use Rattle.std.specs.Prelude.{◌≡◌, Err};
ghost use Rattle.std.specs.List.{AllByRecursion};
ghost use Rattle.pgw_frames.specs.Frames.{IsGood, render};
ghost use Rattle.pgw_messages.specs.Startup.{Fits};
ghost use Rattle.pod_conn.specs.Courses.{writes};
ghost use Rattle.pod_conn.specs.Sessions.{served, telling, begun};
ghost use Rattle.pod_conn.specs.Serving.{Ends, sight};
ghost use Rattle.pod_conn.specs.Telling.{WritesOut, TurnsOn};

use crate::end::PodEnd;
use crate::guest::Guest;
use crate::port::StorePort;
use crate::wire::{Wire, read_frame};
use link_io::write_message;
use pgw_frames::{Frame, Frames};
use pgw_messages::Params;
use pgw_messages::tags::TERMINATE;
use proxy_outside::{Sink, Source};
use session_model::Session;
use std::alloc::Global;
use std::sync::Wait;

/// Writes messages whole.
fn write_messages<K: Sink>(client_out: &mut K, messages: &Frames) -> Result<(), PodEnd>
    requires { AllByRecursion IsGood messages.now }
    ensures { WritesOut result (K.target client_out.old) (K.target client_out.new) (render messages.now) }
{
    for f in messages.as_slice() {
        if !write_message(client_out, f) {
            return Err(PodEnd::WriteFault);
        }
    }
    Ok(())
}

/// Tells the session a message, and writes what it replies. A Terminate is the last one.
fn tell<W: Wait, T: Session, S: Source, K: Sink, P: StorePort<T::Store>>(
    rt: &W,
    alloc: Global,
    wire: &mut Wire<S, K>,
    port: &mut P,
    guest: &mut Guest<T>,
    f: &Frame,
) -> Result<(), PodEnd>
    requires { IsGood f.now }
    ensures { TurnsOn result (telling T.kind (T.state guest.old) f.now) (served T.kind (T.state guest.new)) wire.old.held wire.new.held
        (sight (S.origin wire.old.client_in) (K.target wire.old.client_out) (P.port port.old))
        (sight (S.origin wire.new.client_in) (K.target wire.new.client_out) (P.port port.new)) }
{
    let replies = guest.hear(rt, alloc, port, f)?;
    write_messages(&mut wire.client_out, &replies)?;
    if f.tag == TERMINATE {
        return Err(PodEnd::Closed);
    }
    Ok(())
}

/// Reads a message, and tells it to the session.
fn tell_next<W: Wait, T: Session, S: Source, K: Sink, P: StorePort<T::Store>>(
    rt: &W,
    alloc: Global,
    wire: &mut Wire<S, K>,
    port: &mut P,
    guest: &mut Guest<T>,
) -> Result<(), PodEnd>
    ensures { TurnsOn result (served T.kind (T.state guest.old)) (served T.kind (T.state guest.new)) wire.old.held wire.new.held
        (sight (S.origin wire.old.client_in) (K.target wire.old.client_out) (P.port port.old))
        (sight (S.origin wire.new.client_in) (K.target wire.new.client_out) (P.port port.new)) }
{
    let f = read_frame(rt, &mut wire.client_in, &mut wire.held)?;
    tell(rt, alloc, wire, port, guest, &f)?;
    Ok(())
}

/// Tells the session all messages.
fn serve<W: Wait, T: Session, S: Source, K: Sink, P: StorePort<T::Store>>(
    rt: &W,
    alloc: Global,
    wire: &mut Wire<S, K>,
    port: &mut P,
    guest: &mut Guest<T>,
) -> PodEnd
    ensures { Ends (served T.kind (T.state guest.old)) wire.old.held
        (sight (S.origin wire.old.client_in) (K.target wire.old.client_out) (P.port port.old))
        (sight (S.origin wire.new.client_in) (K.target wire.new.client_out) (P.port port.new)) result }
{
    for _ in rt.forever() {
        if let Err(end) = tell_next(rt, alloc, wire, port, guest) {
            return end;
        }
    }
    unreachable!()
}

/// Writes the greeting, and tells the session all messages.
fn greet<W: Wait, T: Session, S: Source, K: Sink, P: StorePort<T::Store>>(
    rt: &W,
    alloc: Global,
    wire: &mut Wire<S, K>,
    port: &mut P,
    guest: &mut Guest<T>,
    greeting: &Frames,
) -> PodEnd
    requires { AllByRecursion IsGood greeting.now }
    ensures { Ends (λ b rs. writes (render greeting.now) (served T.kind (T.state guest.old) b rs)) wire.old.held
        (sight (S.origin wire.old.client_in) (K.target wire.old.client_out) (P.port port.old))
        (sight (S.origin wire.new.client_in) (K.target wire.new.client_out) (P.port port.new)) result }
{
    match write_messages(&mut wire.client_out, greeting) {
        Ok(()) => serve(rt, alloc, wire, port, guest),
        Err(end) => end,
    }
}

/// Begins a session with these parameters, and tells it all messages.
pub(crate) fn serve_session<W: Wait, T: Session, S: Source, K: Sink, P: StorePort<T::Store>>(
    rt: &W,
    alloc: Global,
    wire: &mut Wire<S, K>,
    port: &mut P,
    params: &Params,
) -> PodEnd
    requires { Fits params.now }
    ensures { Ends (begun T.kind params.now) wire.old.held
        (sight (S.origin wire.old.client_in) (K.target wire.old.client_out) (P.port port.old))
        (sight (S.origin wire.new.client_in) (K.target wire.new.client_out) (P.port port.new)) result }
{
    match Guest::<T>::begin(alloc, params) {
        Ok((mut guest, greeting)) => greet(rt, alloc, wire, port, &mut guest, &greeting),
        Err(_) => PodEnd::NoMemory,
    }
}
