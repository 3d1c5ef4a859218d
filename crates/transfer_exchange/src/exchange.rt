//! The machine.

ghost use Rattle.std.specs.Prelude.{◌≡◌, ◌↔◌, None, codes, IsSome, IfOk, OnOk, OnErr};
ghost use Rattle.std.specs.Option.{option_copied};
ghost use Rattle.pgw_messages.specs.Params.{value_of};
ghost use Rattle.transfer_stages.specs.Exchange.{wants, takes, ended};
ghost use Rattle.transfer_stages.specs.Exchange as expected;
ghost use Rattle.transfer_stages.specs.Rows.{row_of};
ghost use Rattle.transfer_exchange.specs.Course.{key_of, params_of, stage_of, goes, IsSending, IsAwaiting, IsDialing, IsLinked, text_at, sent_at, dialed_at, cut_at, is_packet};

use crate::said::said;
use crate::stages::{after_cut, after_dial, after_frame, after_text, is_startup_at, want_at};
use crate::texts::{packet, query};
use pgw_frames::{Bytes, Frame, NoMemory};
use pgw_messages::Params;
use session_model::{TransferKey, restore_text, transfer_text};
use std::alloc::Global;
use std::marker::Model;
use std::mem;
use transfer_stages::{Cut, Outcome, Said, Stage, Want};

/// One transfer. It says what it wants, and is told what happened:
///
/// ```text
/// SendOld -sent-> AwaitOld -take..-> Dial -dialed-> SendNew -sent-> AwaitNew -take..->
///     SendNew -sent-> AwaitNew -take..-> Ended
/// ```
///
/// Each `take` may end it, and so do a failed dial and a cut. Contracts see its key, the session's
/// parameters, and the stage.
#[derive(Debug, Drop)]
pub struct Exchange {
    alloc: Global,
    key: TransferKey,
    params: Params,
    stage: Stage,
}

impl Model for Exchange {
    ghost use Rattle.std.specs.Prelude.{◌≡◌, None, codes};
    ghost use Rattle.pgw_messages.specs.Params.{value_of};
    ghost use Rattle.transfer_exchange.specs.Course.{Course, IsWithin};

    ghost Value = { Course };

    ghost view = { λ e. record { key = e.key; params = e.params; stage = e.stage } };

    ghost invariant = { λ e. IsWithin e.params e.stage × (value_of (codes "crdb:session_revival_token_base64") e.params ≡ None) };
}

/// What the frame says as the old pod's row, where that is awaited.
fn said_at(
    alloc: Global,
    key: &TransferKey,
    params: &Params,
    stage: &Stage,
    f: &Frame,
) -> Result<Option<Said>, NoMemory>
    ensures ok { IfOk result (λ s. stage.now ≡ Stage.OldRow → s ≡ expected.said key.now params.now (row_of f.now)) }
    ensures no_memory { OnErr result (stage.now ≡ Stage.OldRow) }
{
    match stage {
        Stage::OldRow => said(alloc, key, params, f),
        Stage::AskOld
        | Stage::OldColumns
        | Stage::OldTag(_)
        | Stage::OldReady(_)
        | Stage::Dial(_, _)
        | Stage::Packet(_, _)
        | Stage::NewAuth(_)
        | Stage::NewStatus(_, _, _)
        | Stage::Restore(_, _)
        | Stage::NewColumns(_)
        | Stage::NewRow(_)
        | Stage::NewTag(_)
        | Stage::NewReady(_)
        | Stage::Ended(_) => Ok(None),
    }
}

fn put(place: &mut Stage, stage: Stage)
    ensures { place.new ≡ stage }
{
    *place = stage;
}

impl Exchange {
    /// A transfer of which nothing was sent. The parameters are those of the session's startup packet.
    pub fn start(alloc: Global, key: &TransferKey, params: &Params) -> Result<Exchange, NoMemory>
        requires { value_of (codes "crdb:session_revival_token_base64") params.now ≡ None }
        ensures { IfOk result (λ e. (key_of e ≡ key.now) × (params_of e ≡ params.now) × (stage_of e ≡ Stage.AskOld)) }
    {
        Ok(Exchange {
            alloc,
            key: *key,
            params: params.copy()?,
            stage: Stage::AskOld,
        })
    }

    /// What is to be done next.
    pub fn want(&self) -> Want
        ensures { result ≡ wants (stage_of self.now) }
    {
        want_at(&self.stage)
    }

    /// The bytes that are to be sent.
    pub fn text(&self) -> Result<Bytes, NoMemory>
        requires { IsSending (wants (stage_of self.now)) }
        ensures { IfOk result (λ b. b ≡ text_at (key_of self.now) (params_of self.now) (stage_of self.now)) }
    {
        match &self.stage {
            Stage::AskOld => query(self.alloc, transfer_text(self.alloc, &self.key)?),
            Stage::Packet(_, token) => packet(self.alloc, &self.params, token.as_str()),
            Stage::Restore(state, _) => {
                query(self.alloc, restore_text(self.alloc, state.as_slice())?)
            }
            Stage::OldColumns
            | Stage::OldRow
            | Stage::OldTag(_)
            | Stage::OldReady(_)
            | Stage::Dial(_, _)
            | Stage::NewAuth(_)
            | Stage::NewStatus(_, _, _)
            | Stage::NewColumns(_)
            | Stage::NewRow(_)
            | Stage::NewTag(_)
            | Stage::NewReady(_)
            | Stage::Ended(_) => Ok(Bytes::new(self.alloc)),
        }
    }

    /// Whether what is to be sent is the startup packet.
    pub fn is_startup(&self) -> bool
        ensures { result ≡ is_packet (stage_of self.now) }
    {
        is_startup_at(&self.stage)
    }

    /// The bytes of `text` were sent whole.
    pub fn sent(&mut self)
        requires { IsSending (wants (stage_of self.old)) }
        ensures { self.new ≡ goes self.old (sent_at (stage_of self.old)) }
    {
        let stage = mem::replace(&mut self.stage, Stage::AskOld);
        put(&mut self.stage, after_text(stage));
    }

    /// The new pod was dialed, and `ok` says whether there is a link to it.
    pub fn dialed(&mut self, ok: bool)
        requires { IsDialing (wants (stage_of self.old)) }
        ensures { self.new ≡ goes self.old (dialed_at ok (stage_of self.old)) }
    {
        let stage = mem::replace(&mut self.stage, Stage::AskOld);
        put(&mut self.stage, after_dial(stage, ok));
    }

    /// A frame came from the pod that is awaited. Only the old pod's row takes memory. An `Err` changes
    /// nothing.
    pub fn take(&mut self, f: Frame) -> Result<(), NoMemory>
        requires { IsAwaiting (wants (stage_of self.old)) }
        ensures ok { OnOk result (self.new ≡ goes self.old (takes (key_of self.old) (params_of self.old) (stage_of self.old) f)) }
        ensures no_memory { OnErr result (stage_of self.old ≡ Stage.OldRow) }
        ensures err { OnErr result (self.new ≡ self.old) }
    {
        let said = said_at(self.alloc, &self.key, &self.params, &self.stage, &f)?;
        let stage = mem::replace(&mut self.stage, Stage::AskOld);
        put(&mut self.stage, after_frame(stage, said, f));
        Ok(())
    }

    /// The link to the pod that is written to or awaited is of no more use.
    pub fn cut(&mut self, c: Cut)
        requires { IsLinked (wants (stage_of self.old)) }
        ensures { self.new ≡ goes self.old (cut_at c (stage_of self.old)) }
    {
        let stage = mem::replace(&mut self.stage, Stage::AskOld);
        put(&mut self.stage, after_cut(stage, c));
    }

    /// What it came to, once it has ended.
    pub fn outcome(&self) -> Option<&Outcome>
        ensures value { option_copied result ≡ ended (stage_of self.now) }
        ensures variant { IsSome result ↔ (wants (stage_of self.now) ≡ Want.Ended) }
    {
        match &self.stage {
            Stage::Ended(o) => Some(o),
            _ => None,
        }
    }

    /// The same by value.
    pub fn into_outcome(self) -> Option<Outcome>
        ensures value { result ≡ ended (stage_of self) }
        ensures variant { IsSome result ↔ (wants (stage_of self) ≡ Want.Ended) }
    {
        let Exchange { stage, .. } = self;
        match stage {
            Stage::Ended(o) => Some(o),
            _ => None,
        }
    }
}
