//! Messages of which one field is looked at.

ghost use Rattle.std.specs.Prelude.{◌≡◌, ◌==◌, ◌&&◌};
ghost use Rattle.std.specs.Result.{result_ok};
ghost use Rattle.std.specs.Str.{bytes_eq};
ghost use Rattle.pgw_messages.specs.Backend.{auth_at};
ghost use Rattle.pgw_messages.specs.Reading.{whole};
ghost use Rattle.transfer_stages.specs.Exchange as expected;
ghost use Rattle.transfer_stages.specs.Rows.{key_of};

use pgw_frames::Frame;
use pgw_messages::{PodKey, tags};

/// Whether it is the message of this type with this body.
pub(crate) fn is_message(f: &Frame, tag: u8, body: &[u8]) -> bool
    ensures { result ≡ ((f.now.tag == tag) && bytes_eq f.now.body body.now) }
{
    f.tag == tag && f.body.as_slice() == body
}

/// A ReadyForQuery outside a transaction.
pub(crate) fn is_ready_idle(f: &Frame) -> bool
    ensures { result ≡ expected.is_ready_idle f.now }
{
    is_message(f, tags::READY_FOR_QUERY, b"I")
}

/// A ReadyForQuery with one of its three bodies.
pub(crate) fn is_ready(f: &Frame) -> bool
    ensures { result ≡ expected.is_ready f.now }
{
    is_ready_idle(f)
        || is_message(f, tags::READY_FOR_QUERY, b"T")
        || is_message(f, tags::READY_FOR_QUERY, b"E")
}

/// Whether an authentication message with this body asks for nothing.
fn asks_nothing(body: &[u8]) -> bool
    ensures { result ≡ expected.has_code_0 (result_ok (whole (auth_at body.now))) }
{
    match body.split_first_chunk::<4>() {
        Some((code, _)) => u32::from_be_bytes(*code) == 0,
        None => false,
    }
}

/// An AuthenticationOk. What stands behind its code doesn't matter.
#[tactic(auto, unfolding(transfer_stages::specs::Exchange::is_auth_ok, transfer_stages::specs::Rows::auth_of))]
pub(crate) fn is_auth_ok(f: &Frame) -> bool
    ensures { result ≡ expected.is_auth_ok f.now }
{
    f.tag == tags::AUTHENTICATION && asks_nothing(f.body.as_slice())
}

/// The key in a BackendKeyData.
#[tactic(auto, unfolding(transfer_stages::specs::Rows::key_of))]
pub(crate) fn pod_key(f: &Frame) -> Option<PodKey>
    ensures { result ≡ key_of f.now }
{
    if f.tag != tags::BACKEND_KEY_DATA {
        return None;
    }
    PodKey::of(f.body.as_slice())
}
