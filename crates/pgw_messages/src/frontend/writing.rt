//! Writing a client's messages.

ghost use Rattle.std.specs.Prelude.{◌≡◌, ◌++◌, Ok, OnOk, IfOk};
ghost use Rattle.pgw_messages.specs.Frontend.{CanWriteFront, IsFront, front_of, front_tag, front_body, front_frame};

use crate::frontend::message::FrontMsg;
use crate::tags;
use crate::writer::{Writer, text_body};
use pgw_frames::{Bytes, Frame, NoMemory};
use std::alloc::Global;

fn tag_of(m: &FrontMsg) -> u8
    ensures { result ≡ front_tag m.now }
{
    match m {
        FrontMsg::Query(_) => tags::QUERY,
        FrontMsg::Parse(_) => tags::PARSE,
        FrontMsg::Bind(_) => tags::BIND,
        FrontMsg::Describe(_) => tags::DESCRIBE,
        FrontMsg::Execute(_) => tags::EXECUTE,
        FrontMsg::Sync => tags::SYNC,
        FrontMsg::Flush => tags::FLUSH,
        FrontMsg::Close(_) => tags::CLOSE,
        FrontMsg::Call(_) => tags::FUNCTION_CALL,
        FrontMsg::CopyData(_) => tags::COPY_DATA,
        FrontMsg::CopyDone => tags::COPY_DONE,
        FrontMsg::CopyFail(_) => tags::COPY_FAIL,
        FrontMsg::Password(_) => tags::PASSWORD_MESSAGE,
        FrontMsg::Terminate => tags::TERMINATE,
    }
}

fn write_body(m: &FrontMsg, w: &mut Writer) -> Result<(), NoMemory>
    ensures bytes { OnOk result (w.new ≡ w.old ++ front_body m.now) }
    ensures good { CanWriteFront m.now → OnOk result (IsFront m.now) }
{
    match m {
        FrontMsg::Query(text) | FrontMsg::CopyFail(text) => w.text(text),
        FrontMsg::Parse(parse) => parse.write(w),
        FrontMsg::Bind(bind) => bind.write(w),
        FrontMsg::Describe(part) | FrontMsg::Close(part) => part.write(w),
        FrontMsg::Execute(execute) => execute.write(w),
        FrontMsg::Call(rest) | FrontMsg::CopyData(rest) | FrontMsg::Password(rest) => {
            w.bytes(rest.as_slice())
        }
        FrontMsg::Sync | FrontMsg::Flush | FrontMsg::CopyDone | FrontMsg::Terminate => Ok(()),
    }
}

/// The frame that a client's message is. The count of a longer list than 65,535 items has its low 16
/// bits alone.
pub fn write_front(alloc: Global, m: &FrontMsg) -> Result<Frame, NoMemory>
    // Which frame it is.
    ensures value { IfOk result (λ f. f ≡ front_frame m.now) }
    // It is read as this message, where its body has at most 16,777,216 bytes, its texts have no zero
    // byte, each list has at most 65,535 items, and `kind` is one of its letters.
    ensures again { CanWriteFront m.now → IfOk result (λ f. front_of f ≡ Ok m.now) }
{
    let mut body = Writer::new(alloc)?;
    write_body(m, &mut body)?;
    Ok(Frame {
        tag: tag_of(m),
        body: body.into_bytes(),
    })
}

/// The body of a message that isn't needed any more.
fn into_body(m: FrontMsg, alloc: Global) -> Result<Bytes, NoMemory>
    ensures { IfOk result (λ b. b ≡ front_body m) }
{
    match m {
        FrontMsg::Query(text) | FrontMsg::CopyFail(text) => text_body(text),
        FrontMsg::Call(rest) | FrontMsg::CopyData(rest) | FrontMsg::Password(rest) => Ok(rest),
        written => {
            let mut body = Writer::new(alloc)?;
            let done = write_body(&written, &mut body);
            drop(written);
            done?;
            Ok(body.into_bytes())
        }
    }
}

impl FrontMsg {
    /// The frame that the message is, where the message isn't needed any more. A message that is one text
    /// or bytes gives its memory to the frame.
    pub fn into_frame(self, alloc: Global) -> Result<Frame, NoMemory>
        ensures { IfOk result (λ f. f ≡ front_frame self) }
    {
        let tag = tag_of(&self);
        let body = into_body(self, alloc)?;
        Ok(Frame { tag, body })
    }
}
