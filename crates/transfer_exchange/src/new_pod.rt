//! What the new pod's frames lead to: a greeting, then four frames, or an end where one isn't as expected.

ghost use Rattle.std.specs.Prelude.{◌≡◌, List};
ghost use Rattle.pgw_messages.specs.declared.params.Pair.{Pair as Param};
ghost use Rattle.session_model.specs.declared.transfer.TransferKey.{TransferKey as Key};
ghost use Rattle.transfer_stages.specs.Exchange as expected;

use crate::columns::has_one_column;
use crate::messages::{is_auth_ok, is_message, is_ready_idle, pod_key};
use crate::rows::is_true_row;
use pgw_frames::{Bytes, Frame};
use pgw_messages::{OwnedFields, PodKey, tags};
use transfer_stages::{Cut, Outcome, Stage};

/// The most ParameterStatus of a greeting.
const MOST_STATUSES: u32 = 1000;

/// Ends the transfer at a frame that isn't expected here: an error that can be read is the pod's refusal.
#[tactic(auto, unfolding(transfer_stages::specs::Rows::fault_of))]
fn unexpected(f: Frame) -> Stage
    ensures { result ≡ expected.new_unexpected f }
{
    if f.tag != tags::ERROR_RESPONSE {
        return Stage::Ended(Outcome::NewCut(Cut::Unexpected(f)));
    }
    let Frame { tag, body } = f;
    match OwnedFields::of(body) {
        Ok(fields) => Stage::Ended(Outcome::RevivalRefused(fields)),
        Err(body) => Stage::Ended(Outcome::NewCut(Cut::Unexpected(Frame { tag, body }))),
    }
}

#[tactic(auto, unfolding(transfer_stages::specs::Exchange::takes))]
pub(crate) fn after_auth(state: Bytes, f: Frame) -> Stage
    ensures { (t : Key) (p : List Param) → result ≡ expected.takes t p (Stage.NewAuth state) f }
{
    if is_auth_ok(&f) {
        return Stage::NewStatus(state, 0, None);
    }
    unexpected(f)
}

/// One BackendKeyData at most.
fn after_key(state: Bytes, statuses: u32, key: Option<PodKey>, f: Frame) -> Stage
    ensures { result ≡ expected.keeps_key state statuses f key }
{
    if key.is_some() {
        return unexpected(f);
    }
    match pod_key(&f) {
        Some(key) => Stage::NewStatus(state, statuses, Some(key)),
        None => unexpected(f),
    }
}

#[tactic(auto, unfolding(transfer_stages::specs::Exchange::takes))]
pub(crate) fn after_status(state: Bytes, statuses: u32, key: Option<PodKey>, f: Frame) -> Stage
    ensures { (t : Key) (p : List Param) → result ≡ expected.takes t p (Stage.NewStatus state statuses key) f }
{
    if f.tag == tags::PARAMETER_STATUS && statuses < MOST_STATUSES {
        return Stage::NewStatus(state, statuses + 1, key);
    }
    if f.tag == tags::BACKEND_KEY_DATA {
        return after_key(state, statuses, key, f);
    }
    if is_ready_idle(&f) {
        return Stage::Restore(state, key);
    }
    unexpected(f)
}

#[tactic(auto, unfolding(transfer_stages::specs::Exchange::takes))]
pub(crate) fn after_columns(key: Option<PodKey>, f: Frame) -> Stage
    ensures { (t : Key) (p : List Param) → result ≡ expected.takes t p (Stage.NewColumns key) f }
{
    if has_one_column(&f) {
        return Stage::NewRow(key);
    }
    unexpected(f)
}

#[tactic(auto, unfolding(transfer_stages::specs::Exchange::takes))]
pub(crate) fn after_row(key: Option<PodKey>, f: Frame) -> Stage
    ensures { (t : Key) (p : List Param) → result ≡ expected.takes t p (Stage.NewRow key) f }
{
    if is_true_row(&f) {
        return Stage::NewTag(key);
    }
    unexpected(f)
}

#[tactic(auto, unfolding(transfer_stages::specs::Exchange::takes))]
pub(crate) fn after_tag(key: Option<PodKey>, f: Frame) -> Stage
    ensures { (t : Key) (p : List Param) → result ≡ expected.takes t p (Stage.NewTag key) f }
{
    if is_message(&f, tags::COMMAND_COMPLETE, b"SELECT 1\0") {
        return Stage::NewReady(key);
    }
    unexpected(f)
}

#[tactic(auto, unfolding(transfer_stages::specs::Exchange::takes))]
pub(crate) fn after_ready(key: Option<PodKey>, f: Frame) -> Stage
    ensures { (t : Key) (p : List Param) → result ≡ expected.takes t p (Stage.NewReady key) f }
{
    if is_ready_idle(&f) {
        return Stage::Ended(Outcome::Moved(key));
    }
    unexpected(f)
}
