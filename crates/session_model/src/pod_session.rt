//! The session at a pod, with what its messages and replies keep.

ghost use Rattle.std.specs.Prelude.{◌≡◌, IfOk, OnOk};
ghost use Rattle.std.specs.List.{AllByRecursion};
ghost use Rattle.pgw_frames.specs.Frames.{IsGood};
ghost use Rattle.pgw_messages.specs.Startup.{Fits};
ghost use Rattle.session_model.specs.Solo.{store_after, told};

use crate::session::Session;
use crate::shared_store::SharedStore;
use pgw_frames::{Frame, Frames, NoMemory};
use pgw_messages::Params;
use std::alloc::Global;
use std::marker::Model;

/// A session that was begun with parameters of a good size and told good frames, so that all that it
/// replies fits in frames. Contracts see the session.
#[derive(Drop)]
pub struct PodSession<S: Session> {
    session: S,
}

impl<S: Session> Model for PodSession<S> {
    ghost Value = { S };

    ghost view = { λ p. p.session };

    ghost invariant = { λ p. S.kept (S.state p.session) };
}

impl<S: Session> PodSession<S> {
    pub fn begin(alloc: Global, p: &Params) -> Result<(PodSession<S>, Frames), NoMemory>
        requires { Fits p.now }
        ensures state { IfOk result (λ r. S.state r.0 ≡ (S.kind.begins p.now).0) }
        ensures frames { IfOk result (λ r. r.1 ≡ (S.kind.begins p.now).1) }
        ensures good { IfOk result (λ r. AllByRecursion IsGood r.1) }
    {
        let (session, frames) = S::begin(alloc, p)?;
        Ok((PodSession { session }, frames))
    }

    /// Tells it a message, with the store's answer to what it asks. After an `Err` both are given up.
    pub fn hear(
        &mut self,
        alloc: Global,
        store: &mut SharedStore<S::Store>,
        f: &Frame,
    ) -> Result<Frames, NoMemory>
        requires { IsGood f.now }
        ensures state { OnOk result ((t : S.Store.State) → S.Store.stands_for store.old t → S.state self.new ≡ (told S.kind S.Store.rules (S.state self.old) t f.now).0) }
        ensures frames { IfOk result (λ fs. (t : S.Store.State) → S.Store.stands_for store.old t → fs ≡ (told S.kind S.Store.rules (S.state self.old) t f.now).1) }
        ensures store { OnOk result ((t : S.Store.State) → S.Store.stands_for store.old t → S.Store.stands_for store.new (store_after S.Store.rules t (S.kind.asks (S.state self.old) f.now))) }
        ensures good { IfOk result (AllByRecursion IsGood) }
    {
        let command = self.session.ask(alloc, f)?;
        let answer = store.answer(&command)?;
        let replies = self.session.tell(alloc, f, answer.as_ref())?;
        Ok(replies)
    }
}
