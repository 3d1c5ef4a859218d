//! Writing a server's messages.

ghost use Rattle.std.specs.Prelude.{◌≡◌, ◌++◌, Ok, OnOk, IfOk};
ghost use Rattle.pgw_messages.specs.Backend.{CanWriteBack, IsBack, back_of, back_tag, back_body, back_frame};

use crate::backend::fields::write_fields;
use crate::backend::message::BackMsg;
use crate::backend::status::write_key;
use crate::tags;
use crate::writer::{Writer, text_body};
use pgw_frames::{Bytes, Frame, NoMemory};
use std::alloc::Global;

fn tag_of(m: &BackMsg) -> u8
    ensures { result ≡ back_tag m.now }
{
    match m {
        BackMsg::Auth(_) => tags::AUTHENTICATION,
        BackMsg::Status(_) => tags::PARAMETER_STATUS,
        BackMsg::Key(_) => tags::BACKEND_KEY_DATA,
        BackMsg::Ready(_) => tags::READY_FOR_QUERY,
        BackMsg::Columns(_) => tags::ROW_DESCRIPTION,
        BackMsg::Row(_) => tags::DATA_ROW,
        BackMsg::Complete(_) => tags::COMMAND_COMPLETE,
        BackMsg::Empty => tags::EMPTY_QUERY_RESPONSE,
        BackMsg::Fault(_) => tags::ERROR_RESPONSE,
        BackMsg::Notice(_) => tags::NOTICE_RESPONSE,
        BackMsg::Notify(_) => tags::NOTIFICATION_RESPONSE,
        BackMsg::ParseDone => tags::PARSE_COMPLETE,
        BackMsg::BindDone => tags::BIND_COMPLETE,
        BackMsg::CloseDone => tags::CLOSE_COMPLETE,
        BackMsg::ParamTypes(_) => tags::PARAMETER_DESCRIPTION,
        BackMsg::NoRows => tags::NO_DATA,
        BackMsg::Suspended => tags::PORTAL_SUSPENDED,
        BackMsg::CopyIn(_) => tags::COPY_IN_RESPONSE,
    }
}

fn write_body(m: &BackMsg, w: &mut Writer) -> Result<(), NoMemory>
    ensures bytes { OnOk result (w.new ≡ w.old ++ back_body m.now) }
    ensures good { CanWriteBack m.now → OnOk result (IsBack m.now) }
{
    match m {
        BackMsg::Auth(auth) => auth.write(w),
        BackMsg::Status(pair) => pair.write(w),
        BackMsg::Key(key) => write_key(key, w),
        BackMsg::Ready(state) => w.u8(*state),
        BackMsg::Columns(columns) => w.list(columns),
        BackMsg::Row(row) => w.list(row),
        BackMsg::Complete(tag) => w.text(tag),
        BackMsg::Fault(fields) | BackMsg::Notice(fields) => write_fields(fields, w),
        BackMsg::Notify(notify) => notify.write(w),
        BackMsg::ParamTypes(types) => w.list(types),
        BackMsg::CopyIn(copy) => copy.write(w),
        BackMsg::Empty
        | BackMsg::ParseDone
        | BackMsg::BindDone
        | BackMsg::CloseDone
        | BackMsg::NoRows
        | BackMsg::Suspended => Ok(()),
    }
}

/// The frame that a server's message is. The count of a longer list than 65,535 items has its low 16
/// bits alone.
pub fn write_back(alloc: Global, m: &BackMsg) -> Result<Frame, NoMemory>
    // Which frame it is.
    ensures value { IfOk result (λ f. f ≡ back_frame m.now) }
    // It is read as this message, where its body has at most 16,777,216 bytes, its texts have no zero
    // byte, each list that has a count has at most 65,535 items, the state of ReadyForQuery is one of
    // its letters, and no field's code is 0.
    ensures again { CanWriteBack m.now → IfOk result (λ f. back_of f ≡ Ok m.now) }
{
    let mut body = Writer::new(alloc)?;
    write_body(m, &mut body)?;
    Ok(Frame {
        tag: tag_of(m),
        body: body.into_bytes(),
    })
}

/// The body of a message that isn't needed any more.
fn into_body(m: BackMsg, alloc: Global) -> Result<Bytes, NoMemory>
    ensures { IfOk result (λ b. b ≡ back_body m) }
{
    match m {
        BackMsg::Complete(tag) => text_body(tag),
        written => {
            let mut body = Writer::new(alloc)?;
            let done = write_body(&written, &mut body);
            drop(written);
            done?;
            Ok(body.into_bytes())
        }
    }
}

impl BackMsg {
    /// The frame that the message is, where the message isn't needed any more. The tag of a CommandComplete
    /// gives its memory to the frame.
    pub fn into_frame(self, alloc: Global) -> Result<Frame, NoMemory>
        ensures { IfOk result (λ f. f ≡ back_frame self) }
    {
        let tag = tag_of(&self);
        let body = into_body(self, alloc)?;
        Ok(Frame { tag, body })
    }
}
