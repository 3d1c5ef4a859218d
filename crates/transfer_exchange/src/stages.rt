//! From one stage to the next.

ghost use Rattle.std.specs.Prelude.{◌≡◌, List};
ghost use Rattle.pgw_messages.specs.declared.params.Pair.{Pair as Param};
ghost use Rattle.session_model.specs.declared.transfer.TransferKey.{TransferKey as Key};
ghost use Rattle.transfer_stages.specs.Exchange as expected;
ghost use Rattle.transfer_stages.specs.Rows.{row_of};
ghost use Rattle.transfer_exchange.specs.Course.{sent_at, dialed_at, cut_at, is_packet};

use crate::{new_pod, old_pod};
use pgw_frames::Frame;
use transfer_stages::{Cut, Outcome, Said, Stage, Want};

/// What is to be done at a stage.
pub(crate) fn want_at(stage: &Stage) -> Want
    ensures { result ≡ expected.wants stage.now }
{
    match stage {
        Stage::AskOld => Want::SendOld,
        Stage::OldColumns | Stage::OldRow | Stage::OldTag(_) | Stage::OldReady(_) => Want::AwaitOld,
        Stage::Dial(_, _) => Want::Dial,
        Stage::Packet(_, _) | Stage::Restore(_, _) => Want::SendNew,
        Stage::NewAuth(_)
        | Stage::NewStatus(_, _, _)
        | Stage::NewColumns(_)
        | Stage::NewRow(_)
        | Stage::NewTag(_)
        | Stage::NewReady(_) => Want::AwaitNew,
        Stage::Ended(_) => Want::Ended,
    }
}

/// Whether a stage sends the startup packet.
pub(crate) fn is_startup_at(stage: &Stage) -> bool
    ensures { result ≡ is_packet stage.now }
{
    match stage {
        Stage::Packet(_, _) => true,
        Stage::AskOld
        | Stage::OldColumns
        | Stage::OldRow
        | Stage::OldTag(_)
        | Stage::OldReady(_)
        | Stage::Dial(_, _)
        | Stage::NewAuth(_)
        | Stage::NewStatus(_, _, _)
        | Stage::Restore(_, _)
        | Stage::NewColumns(_)
        | Stage::NewRow(_)
        | Stage::NewTag(_)
        | Stage::NewReady(_)
        | Stage::Ended(_) => false,
    }
}

/// The stage after a text that was sent.
pub(crate) fn after_text(stage: Stage) -> Stage
    ensures { result ≡ sent_at stage }
{
    match stage {
        Stage::AskOld => Stage::OldColumns,
        Stage::Packet(state, _) => Stage::NewAuth(state),
        Stage::Restore(_, key) => Stage::NewColumns(key),
        Stage::OldColumns
        | Stage::OldRow
        | Stage::OldTag(_)
        | Stage::OldReady(_)
        | Stage::Dial(_, _)
        | Stage::NewAuth(_)
        | Stage::NewStatus(_, _, _)
        | Stage::NewColumns(_)
        | Stage::NewRow(_)
        | Stage::NewTag(_)
        | Stage::NewReady(_)
        | Stage::Ended(_) => stage,
    }
}

/// The stage after a dial.
pub(crate) fn after_dial(stage: Stage, ok: bool) -> Stage
    ensures { result ≡ dialed_at ok stage }
{
    match stage {
        Stage::Dial(state, token) => {
            if ok {
                return Stage::Packet(state, token);
            }
            Stage::Ended(Outcome::DialFault)
        }
        Stage::AskOld
        | Stage::OldColumns
        | Stage::OldRow
        | Stage::OldTag(_)
        | Stage::OldReady(_)
        | Stage::Packet(_, _)
        | Stage::NewAuth(_)
        | Stage::NewStatus(_, _, _)
        | Stage::Restore(_, _)
        | Stage::NewColumns(_)
        | Stage::NewRow(_)
        | Stage::NewTag(_)
        | Stage::NewReady(_)
        | Stage::Ended(_) => stage,
    }
}

/// The stage after a cut of the link that is written to or read.
pub(crate) fn after_cut(stage: Stage, c: Cut) -> Stage
    ensures { result ≡ cut_at c stage }
{
    match want_at(&stage) {
        Want::SendOld | Want::AwaitOld => Stage::Ended(Outcome::OldCut(c)),
        Want::SendNew | Want::AwaitNew => Stage::Ended(Outcome::NewCut(c)),
        Want::Dial | Want::Ended => stage,
    }
}

/// The stage after a frame. Where the old pod's row is awaited, `said` is what the frame says as that row.
pub(crate) fn after_frame(stage: Stage, said: Option<Said>, f: Frame) -> Stage
    ensures { (t : Key) (p : List Param) → (stage ≡ Stage.OldRow → said ≡ expected.said t p (row_of f)) → result ≡ expected.takes t p stage f }
{
    match stage {
        Stage::OldColumns => old_pod::after_columns(f),
        Stage::OldRow => old_pod::after_row(said, f),
        Stage::OldTag(said) => old_pod::after_tag(said, f),
        Stage::OldReady(said) => old_pod::after_ready(said, f),
        Stage::NewAuth(state) => new_pod::after_auth(state, f),
        Stage::NewStatus(state, statuses, key) => new_pod::after_status(state, statuses, key, f),
        Stage::NewColumns(key) => new_pod::after_columns(key, f),
        Stage::NewRow(key) => new_pod::after_row(key, f),
        Stage::NewTag(key) => new_pod::after_tag(key, f),
        Stage::NewReady(key) => new_pod::after_ready(key, f),
        Stage::AskOld => Stage::AskOld,
        Stage::Dial(state, token) => Stage::Dial(state, token),
        Stage::Packet(state, token) => Stage::Packet(state, token),
        Stage::Restore(state, key) => Stage::Restore(state, key),
        Stage::Ended(o) => Stage::Ended(o),
    }
}
