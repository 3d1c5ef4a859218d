//! The session of a connection, with what its messages and replies keep.

ghost use Rattle.std.specs.Prelude.{◌≡◌, IfOk};
ghost use Rattle.std.specs.List.{AllByRecursion};
ghost use Rattle.pgw_frames.specs.Frames.{IsGood};
ghost use Rattle.pgw_messages.specs.Startup.{Fits};
ghost use Rattle.pod_conn.specs.Telling.{AnswersBy, HearsOne};

use crate::end::PodEnd;
use crate::port::StorePort;
use pgw_frames::{Frame, Frames, NoMemory};
use pgw_messages::Params;
use proxy_outside::Machine;
use session_model::Session;
use std::alloc::Global;
use std::marker::Model;
use std::sync::Wait;

/// A session that was begun with parameters of a good size and told good messages, so that all that it replies fits in
/// messages. Contracts see the session.
#[derive(Drop)]
pub(crate) struct Guest<T: Session> {
    session: T,
}

impl<T: Session> Model for Guest<T> {
    ghost Value = { T };

    ghost view = { λ g. g.session };

    ghost invariant = { λ g. T.kept (T.state g.session) };
}

/// What the store answers, where something is asked.
fn answer_of<W: Wait, M: Machine, P: StorePort<M>>(
    rt: &W,
    port: &mut P,
    command: Option<M::Command>,
) -> Result<Option<M::Reply>, PodEnd>
    ensures { AnswersBy M.rules result command (P.port port.old) (P.port port.new) }
{
    match command {
        None => Ok(None),
        Some(c) => Ok(Some(port.ask(rt, c)?)),
    }
}

impl<T: Session> Guest<T> {
    /// Begins a session, and says how it greets.
    pub(crate) fn begin(alloc: Global, params: &Params) -> Result<(Guest<T>, Frames), NoMemory>
        requires { Fits params.now }
        ensures state { IfOk result (λ r. T.state r.0 ≡ (T.kind.begins params.now).0) }
        ensures frames { IfOk result (λ r. r.1 ≡ (T.kind.begins params.now).1) }
        ensures good { IfOk result (λ r. AllByRecursion IsGood r.1) }
    {
        let (session, greeting) = T::begin(alloc, params)?;
        Ok((Guest { session }, greeting))
    }

    /// Tells it a message, with the store's answer to what it asks, and says what it replies. After an `Err` it is as
    /// before.
    pub(crate) fn hear<W: Wait, P: StorePort<T::Store>>(
        &mut self,
        rt: &W,
        alloc: Global,
        port: &mut P,
        f: &Frame,
    ) -> Result<Frames, PodEnd>
        requires { IsGood f.now }
        ensures { HearsOne T.kind result (T.state self.old) (T.state self.new) f.now (P.port port.old) (P.port port.new) }
    {
        let command = self.session.ask(alloc, f)?;
        let answer = answer_of(rt, port, command)?;
        let replies = self.session.tell(alloc, f, answer.as_ref())?;
        Ok(replies)
    }
}
