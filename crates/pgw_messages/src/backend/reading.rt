//! Reading a server's messages.

ghost use Rattle.std.specs.Prelude.{◌≡◌, IfOk, Ok};
ghost use Rattle.pgw_messages.specs.Reading.{Gives, Reads, whole};
ghost use Rattle.pgw_messages.specs.Spelling.{Spells};
ghost use Rattle.pgw_messages.specs.Backend.{back_at, back_of, back_tag, back_body, back_frame, IsBack};
ghost use Rattle.pgw_messages.specs.declared.backend.message.BackMsg.{BackMsg};

use crate::backend::auth::AuthMsg;
use crate::backend::columns::Column;
use crate::backend::copy::CopyMsg;
use crate::backend::fields::read_fields;
use crate::backend::message::BackMsg;
use crate::backend::notify::NotifyMsg;
use crate::backend::status::{read_key, read_ready};
use crate::fault::MsgFault;
use crate::params::Pair;
use crate::reader::Reader;
use crate::tags;
use pgw_frames::{Bytes, Frame};
use std::alloc::Global;

/// Reads the body of a message of this type.
fn read_body(tag: u8, r: &mut Reader<'_>) -> Result<BackMsg, MsgFault>
    ensures { Reads result r.new (back_at tag r.old) }
{
    match tag {
        tags::AUTHENTICATION => Ok(BackMsg::Auth(AuthMsg::read(r)?)),
        tags::PARAMETER_STATUS => Ok(BackMsg::Status(Pair::read(r)?)),
        tags::BACKEND_KEY_DATA => Ok(BackMsg::Key(read_key(r)?)),
        tags::READY_FOR_QUERY => Ok(BackMsg::Ready(read_ready(r)?)),
        tags::ROW_DESCRIPTION => Ok(BackMsg::Columns(r.list::<Column>()?)),
        tags::DATA_ROW => Ok(BackMsg::Row(r.list::<Option<Bytes>>()?)),
        tags::COMMAND_COMPLETE => Ok(BackMsg::Complete(r.text()?)),
        tags::EMPTY_QUERY_RESPONSE => Ok(BackMsg::Empty),
        tags::ERROR_RESPONSE => Ok(BackMsg::Fault(read_fields(r)?)),
        tags::NOTICE_RESPONSE => Ok(BackMsg::Notice(read_fields(r)?)),
        tags::NOTIFICATION_RESPONSE => Ok(BackMsg::Notify(NotifyMsg::read(r)?)),
        tags::PARSE_COMPLETE => Ok(BackMsg::ParseDone),
        tags::BIND_COMPLETE => Ok(BackMsg::BindDone),
        tags::CLOSE_COMPLETE => Ok(BackMsg::CloseDone),
        tags::PARAMETER_DESCRIPTION => Ok(BackMsg::ParamTypes(r.list::<u32>()?)),
        tags::NO_DATA => Ok(BackMsg::NoRows),
        tags::PORTAL_SUSPENDED => Ok(BackMsg::Suspended),
        tags::COPY_IN_RESPONSE => Ok(BackMsg::CopyIn(CopyMsg::read(r)?)),
        _ => Err(MsgFault::UnknownTag(tag)),
    }
}

/// Reads a whole body.
fn read_whole(alloc: Global, tag: u8, body: &[u8]) -> Result<BackMsg, MsgFault>
    ensures value { Gives result (whole (back_at tag body.now)) }
    ensures found { IfOk result (Spells back_tag back_body IsBack tag body.now) }
{
    let mut r = Reader::new(alloc, body);
    let message = read_body(tag, &mut r)?;
    r.finish()?;
    Ok(message)
}

/// Reads a server's message. The refusal is the first fault from the type byte to the last byte of
/// the body, each field in turn. `Trailing` comes after all fields.
#[tactic(auto, unfolding(crate::specs::Backend::back_of))]
pub fn read_back(alloc: Global, f: &Frame) -> Result<BackMsg, MsgFault>
    // Which message it is, or which fault.
    ensures value { Gives result (back_of f.now) }
    // What is read is spelled so.
    ensures found { IfOk result (λ m. IsBack m × (f.now ≡ back_frame m)) }
    // What is spelled so is read, unless memory runs out.
    ensures only { (m : BackMsg) → IsBack m → f.now ≡ back_frame m → Gives result (Ok m) }
{
    read_whole(alloc, f.tag, f.body.as_slice())
}
