//! One session and one store: the session that is never moved.

ghost use Rattle.std.specs.Prelude.{◌≡◌, ◌++◌, [], Some, IsTrue, IsErr, IfOk, OnOk, OnErr};

use crate::session::Session;
use crate::shared_store::answer_of;
use pgw_frames::{Frame, Frames, NoMemory};
use pgw_messages::Params;
use proxy_outside::Machine;
use std::alloc::Global;

/// One session and one store, which other clients step too. After `NoMemory` it is given up: every
/// later call answers `NoMemory`.
#[derive(Drop)]
pub struct Solo<S: Session> {
    session: S,
    store: S::Store,
    given_up: bool,
}

impl<S: Session> Solo<S> {
    ghost use Rattle.session_model.specs.Solo.{Solo as model, Other, begun, takes, does};
    ghost use Rattle.session_model.specs.Stands.{SoloStands, is_given_up};

    /// A session that was just begun, and a store at its opening.
    pub fn begin(alloc: Global, p: &Params) -> Result<Solo<S>, NoMemory>
        ensures { IfOk result (λ s. SoloStands S.state S.Store.stands_for s (begun S.kind S.Store.rules p.now)) }
    {
        let (session, _greeting) = S::begin(alloc, p)?;
        let store = S::Store::opening(alloc)?;
        Ok(Solo {
            session,
            store,
            given_up: false,
        })
    }

    /// Tells the session the next message, with the store's answer to what it asks, and says what it
    /// replies.
    pub fn take(&mut self, alloc: Global, f: &Frame) -> Result<Frames, NoMemory>
        ensures stands { OnOk result ((so : model S.State S.Store.State) → SoloStands S.state S.Store.stands_for self.old so → SoloStands S.state S.Store.stands_for self.new (takes S.kind S.Store.rules so (Some f.now))) }
        ensures replies { IfOk result (λ fs. (so : model S.State S.Store.State) → SoloStands S.state S.Store.stands_for self.old so → (takes S.kind S.Store.rules so (Some f.now)).replied ≡ so.replied ++ fs) }
        ensures err { OnErr result (IsTrue (is_given_up self.new)) }
        ensures given_up { IsTrue (is_given_up self.old) → IsErr result }
    {
        if self.given_up {
            return Err(NoMemory);
        }
        self.given_up = true;
        let command = self.session.ask(alloc, f)?;
        let answer = answer_of(&mut self.store, &command)?;
        let replies = self.session.tell(alloc, f, answer.as_ref())?;
        self.given_up = false;
        Ok(replies)
    }

    /// Steps the store for another client.
    pub fn other(&mut self, c: &<S::Store as Machine>::Command) -> Result<(), NoMemory>
        ensures stands { OnOk result ((so : model S.State S.Store.State) → SoloStands S.state S.Store.stands_for self.old so → SoloStands S.state S.Store.stands_for self.new (does S.kind S.Store.rules [] so (Other c.now))) }
        ensures err { OnErr result (IsTrue (is_given_up self.new)) }
        ensures given_up { IsTrue (is_given_up self.old) → IsErr result }
    {
        if self.given_up {
            return Err(NoMemory);
        }
        self.given_up = true;
        let _reply = self.store.step(c)?;
        self.given_up = false;
        Ok(())
    }
}
