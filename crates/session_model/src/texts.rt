//! The texts of a transfer, and the replies to them.

ghost use Rattle.std.specs.Prelude.{◌≡◌, string_bytes, IfOk};
ghost use Rattle.session_model.specs.Texts.{key_digits};
ghost use Rattle.session_model.specs.Texts as text;

use crate::result_set::{BOOLEAN, TEXT, complete, lent_column, ready, row};
use crate::transfer::{Dump, TransferKey};
use base64::engine::general_purpose::STANDARD;
use pgw_frames::{Frame, Frames, NoMemory, Text};
use pgw_messages::columns_frame;
use std::alloc::Global;

/// How many bytes a transfer Query's text takes, and a zero byte behind it.
const TRANSFER_ROOM: usize = 60;

/// How many bytes a restore Query's text takes at most, but for its blob, and a zero byte behind it.
const RESTORE_ROOM: usize = 66;

/// A key's 32 digits, as a transfer Query and its reply spell them.
pub fn key_text(alloc: Global, k: &TransferKey) -> Result<String, NoMemory>
    ensures { IfOk result (λ t. string_bytes t ≡ key_digits k.now) }
{
    Ok(hex::encode(alloc, &k.to_bytes())?)
}

/// The text of the Query that asks for a session's state.
pub fn transfer_text(alloc: Global, k: &TransferKey) -> Result<Text, NoMemory>
    ensures { IfOk result (λ t. t ≡ text.transfer_text k.now) }
{
    let mut words = String::with_capacity(alloc, TRANSFER_ROOM)?;
    words.push_str("SHOW TRANSFER STATE WITH '")?;
    words.push_str(key_text(alloc, k)?.as_str())?;
    words.push_str("'")?;
    Ok(Text::from_string(words))
}

/// The text of the Query that gives a session the state of this blob.
pub fn restore_text(alloc: Global, blob: &[u8]) -> Result<Text, NoMemory>
    ensures { IfOk result (λ t. t ≡ text.restore_text blob.now) }
{
    let mut words = String::with_capacity(alloc, RESTORE_ROOM + blob.len() / 3 * 4)?;
    words.push_str("SELECT crdb_internal.deserialize_session(decode('")?;
    STANDARD.encode_string(blob, &mut words)?;
    words.push_str("','base64'))")?;
    Ok(Text::from_string(words))
}

/// The columns of the reply to a transfer Query.
#[tactic(auto, unfolding(crate::specs::Texts::transfer_columns))]
pub fn transfer_columns(alloc: Global) -> Result<Frame, NoMemory>
    ensures { IfOk result (λ f. f ≡ text.transfer_columns) }
{
    let columns = [
        lent_column("error", TEXT),
        lent_column("session_state_base64", TEXT),
        lent_column("session_revival_token_base64", TEXT),
        lent_column("transfer_key", TEXT),
    ];
    columns_frame(alloc, &columns)
}

/// The row of the reply to a transfer Query: what was dumped, and the digits of the key.
#[tactic(auto, unfolding(crate::specs::Texts::digits_row))]
pub fn digits_row(alloc: Global, digits: &[u8], d: &Dump, token: &str) -> Result<Frame, NoMemory>
    ensures { IfOk result (λ f. f ≡ text.digits_row digits.now d.now token.now) }
{
    match d {
        Dump::Blob(blob) => {
            let state = STANDARD.encode(alloc, blob.as_slice())?;
            row(alloc, &[&[], state.as_bytes(), token.as_bytes(), digits])
        }
        Dump::Not(reason) => row(alloc, &[reason.as_str().as_bytes(), &[], &[], digits]),
    }
}

/// The end of a transfer Query's reply.
#[tactic(auto, unfolding(crate::specs::Texts::transfer_tag))]
pub fn transfer_tag(alloc: Global) -> Result<Frame, NoMemory>
    ensures { IfOk result (λ f. f ≡ text.transfer_tag) }
{
    complete(alloc, "SHOW TRANSFER STATE 1")
}

/// The reply to a transfer Query whose key has these digits.
pub fn digits_reply(
    alloc: Global,
    digits: &[u8],
    d: &Dump,
    token: &str,
    status: u8,
) -> Result<Frames, NoMemory>
    ensures { IfOk result (λ fs. fs ≡ text.digits_reply digits.now d.now token.now status) }
{
    let columns = transfer_columns(alloc)?;
    let row = digits_row(alloc, digits, d, token)?;
    let tag = transfer_tag(alloc)?;
    let ready = ready(alloc, status)?;
    Ok(Frames::from_vec(vec![in alloc; columns, row, tag, ready]?))
}

/// The reply to a transfer Query.
pub fn transfer_reply(
    alloc: Global,
    k: &TransferKey,
    d: &Dump,
    token: &str,
    status: u8,
) -> Result<Frames, NoMemory>
    ensures { IfOk result (λ fs. fs ≡ text.transfer_reply k.now d.now token.now status) }
{
    let digits = key_text(alloc, k)?;
    digits_reply(alloc, digits.as_bytes(), d, token, status)
}

/// The column of the reply to a restore Query.
#[tactic(auto, unfolding(crate::specs::Texts::restore_columns))]
pub fn restore_columns(alloc: Global) -> Result<Frame, NoMemory>
    ensures { IfOk result (λ f. f ≡ text.restore_columns) }
{
    let column = lent_column("crdb_internal.deserialize_session", BOOLEAN);
    columns_frame(alloc, &[column])
}

/// The row of the reply to a restore Query.
#[tactic(auto, unfolding(crate::specs::Texts::restore_row))]
pub fn restore_row(alloc: Global) -> Result<Frame, NoMemory>
    ensures { IfOk result (λ f. f ≡ text.restore_row) }
{
    row(alloc, &[b"t"])
}

/// The end of a restore Query's reply.
#[tactic(auto, unfolding(crate::specs::Texts::restore_tag))]
pub fn restore_tag(alloc: Global) -> Result<Frame, NoMemory>
    ensures { IfOk result (λ f. f ≡ text.restore_tag) }
{
    complete(alloc, "SELECT 1")
}

/// The reply to a restore Query.
pub fn restore_reply(alloc: Global) -> Result<Frames, NoMemory>
    ensures { IfOk result (λ fs. fs ≡ text.restore_reply) }
{
    let columns = restore_columns(alloc)?;
    let row = restore_row(alloc)?;
    let tag = restore_tag(alloc)?;
    let ready = ready(alloc, b'I')?;
    Ok(Frames::from_vec(vec![in alloc; columns, row, tag, ready]?))
}
