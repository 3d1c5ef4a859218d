//! A kind of session.

ghost use Rattle.std.specs.Prelude.{◌≡◌, IfOk, OnErr};
ghost use Rattle.std.specs.Option.{option_copied};
ghost use Rattle.session_model.specs.Kind.{Kind};
ghost use Rattle.session_model.specs.Laws.{Laws};

use crate::transfer::Dump;
use pgw_frames::{Frame, Frames, NoMemory};
use pgw_messages::Params;
use proxy_outside::Machine;
use std::alloc::Global;

/// A kind of session over a store. Its definition is `kind`, a set of functions on states, and each
/// call equals its function.
pub trait Session: Sized + Drop {
    type Store: Machine;

    ghost State: { Type 0 };

    ghost kind: { Kind State Self.Store.Command Self.Store.Reply };

    ghost state: { Self → State };

    // what holds of each state that is reached with frames and answers that fit
    ghost kept: { State → Type 0 };

    /// Begins a session with the parameters of a startup packet, and says how it greets.
    fn begin(alloc: Global, p: &Params) -> Result<(Self, Frames), NoMemory>
        ensures state { IfOk result (λ r. state r.0 ≡ (kind.begins p.now).0) }
        ensures frames { IfOk result (λ r. r.1 ≡ (kind.begins p.now).1) };

    /// What it asks of the store before it is told a message.
    fn ask(
        &self,
        alloc: Global,
        f: &Frame,
    ) -> Result<Option<<Self::Store as Machine>::Command>, NoMemory>
        ensures { IfOk result (λ c. c ≡ kind.asks (state self.now) f.now) };

    /// Tells it a message, with the store's answer to what it asked, and says what it replies.
    fn tell(
        &mut self,
        alloc: Global,
        f: &Frame,
        answer: Option<&<Self::Store as Machine>::Reply>,
    ) -> Result<Frames, NoMemory>
        ensures state { IfOk result (λ fs. state self.new ≡ (kind.tells (state self.old) f.now (option_copied answer.entry)).0) }
        ensures frames { IfOk result (λ fs. fs ≡ (kind.tells (state self.old) f.now (option_copied answer.entry)).1) }
        ensures err { OnErr result (state self.new ≡ state self.old) };

    /// Its state, or why it cannot be had now.
    fn dump(&self, alloc: Global) -> Result<Dump, NoMemory>
        ensures { IfOk result (λ d. d ≡ kind.dumps (state self.now)) };

    ghost laws: { Laws kind Self.Store.rules kept };
}
