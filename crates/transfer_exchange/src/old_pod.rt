//! What the old pod's frames lead to: four, or an end where one isn't as expected.

ghost use Rattle.std.specs.Prelude.{◌≡◌, List};
ghost use Rattle.pgw_messages.specs.declared.params.Pair.{Pair as Param};
ghost use Rattle.session_model.specs.declared.transfer.TransferKey.{TransferKey as Key};
ghost use Rattle.transfer_stages.specs.Exchange as expected;

use crate::columns::has_names;
use crate::messages::{is_message, is_ready, is_ready_idle};
use pgw_frames::Frame;
use pgw_messages::tags;
use transfer_stages::{Cut, Outcome, Said, Stage};

/// Ends the transfer at a frame that isn't expected here.
fn unexpected(f: Frame) -> Stage
    ensures { result ≡ expected.old_unexpected f }
{
    Stage::Ended(Outcome::OldCut(Cut::Unexpected(f)))
}

#[tactic(auto, unfolding(transfer_stages::specs::Exchange::takes))]
pub(crate) fn after_columns(f: Frame) -> Stage
    ensures { (t : Key) (p : List Param) → result ≡ expected.takes t p Stage.OldColumns f }
{
    let names = [
        "error",
        "session_state_base64",
        "session_revival_token_base64",
        "transfer_key",
    ];
    if has_names(&names, &f) {
        return Stage::OldRow;
    }
    unexpected(f)
}

/// What the row says is known, where it can be taken.
pub(crate) fn after_row(said: Option<Said>, f: Frame) -> Stage
    ensures { result ≡ expected.row_said f said }
{
    match said {
        Some(said) => Stage::OldTag(said),
        None => unexpected(f),
    }
}

#[tactic(auto, unfolding(transfer_stages::specs::Exchange::takes))]
pub(crate) fn after_tag(said: Said, f: Frame) -> Stage
    ensures { (t : Key) (p : List Param) → result ≡ expected.takes t p (Stage.OldTag said) f }
{
    if is_message(&f, tags::COMMAND_COMPLETE, b"SHOW TRANSFER STATE 1\0") {
        return Stage::OldReady(said);
    }
    unexpected(f)
}

/// Only a session outside a transaction may be moved.
#[tactic(auto, unfolding(transfer_stages::specs::Exchange::takes))]
pub(crate) fn after_ready(said: Said, f: Frame) -> Stage
    ensures { (t : Key) (p : List Param) → result ≡ expected.takes t p (Stage.OldReady said) f }
{
    match said {
        Said::Given(state, token) => {
            if is_ready_idle(&f) {
                return Stage::Dial(state, token);
            }
            unexpected(f)
        }
        Said::Refuses(reason) => {
            if is_ready(&f) {
                return Stage::Ended(Outcome::Refused(reason));
            }
            unexpected(f)
        }
    }
}
