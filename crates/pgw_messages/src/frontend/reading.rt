//! Reading a client's messages.

ghost use Rattle.std.specs.Prelude.{◌≡◌, IfOk, Ok};
ghost use Rattle.pgw_messages.specs.Reading.{Gives, Reads, whole};
ghost use Rattle.pgw_messages.specs.Spelling.{Spells};
ghost use Rattle.pgw_messages.specs.Frontend.{front_at, front_of, front_tag, front_body, front_frame, IsFront};
ghost use Rattle.pgw_messages.specs.declared.frontend.message.FrontMsg.{FrontMsg};

use crate::fault::MsgFault;
use crate::frontend::bind::BindMsg;
use crate::frontend::execute::ExecuteMsg;
use crate::frontend::message::FrontMsg;
use crate::frontend::parse::ParseMsg;
use crate::frontend::part::Part;
use crate::reader::Reader;
use crate::tags;
use pgw_frames::Frame;
use std::alloc::Global;

/// Reads the body of a message of this type.
fn read_body(tag: u8, r: &mut Reader<'_>) -> Result<FrontMsg, MsgFault>
    ensures { Reads result r.new (front_at tag r.old) }
{
    match tag {
        tags::QUERY => Ok(FrontMsg::Query(r.text()?)),
        tags::PARSE => Ok(FrontMsg::Parse(ParseMsg::read(r)?)),
        tags::BIND => Ok(FrontMsg::Bind(BindMsg::read(r)?)),
        tags::DESCRIBE => Ok(FrontMsg::Describe(Part::read(r)?)),
        tags::EXECUTE => Ok(FrontMsg::Execute(ExecuteMsg::read(r)?)),
        tags::SYNC => Ok(FrontMsg::Sync),
        tags::FLUSH => Ok(FrontMsg::Flush),
        tags::CLOSE => Ok(FrontMsg::Close(Part::read(r)?)),
        tags::FUNCTION_CALL => Ok(FrontMsg::Call(r.remaining()?)),
        tags::COPY_DATA => Ok(FrontMsg::CopyData(r.remaining()?)),
        tags::COPY_DONE => Ok(FrontMsg::CopyDone),
        tags::COPY_FAIL => Ok(FrontMsg::CopyFail(r.text()?)),
        tags::PASSWORD_MESSAGE => Ok(FrontMsg::Password(r.remaining()?)),
        tags::TERMINATE => Ok(FrontMsg::Terminate),
        _ => Err(MsgFault::UnknownTag(tag)),
    }
}

/// Reads a whole body.
fn read_whole(alloc: Global, tag: u8, body: &[u8]) -> Result<FrontMsg, MsgFault>
    ensures value { Gives result (whole (front_at tag body.now)) }
    ensures found { IfOk result (Spells front_tag front_body IsFront tag body.now) }
{
    let mut r = Reader::new(alloc, body);
    let message = read_body(tag, &mut r)?;
    r.finish()?;
    Ok(message)
}

/// Reads a client's message. The refusal is the first fault from the type byte to the last byte of
/// the body, each field in turn. `Trailing` comes after all fields.
#[tactic(auto, unfolding(crate::specs::Frontend::front_of))]
pub fn read_front(alloc: Global, f: &Frame) -> Result<FrontMsg, MsgFault>
    // Which message it is, or which fault.
    ensures value { Gives result (front_of f.now) }
    // What is read is spelled so.
    ensures found { IfOk result (λ m. IsFront m × (f.now ≡ front_frame m)) }
    // What is spelled so is read, unless memory runs out.
    ensures only { (m : FrontMsg) → IsFront m → f.now ≡ front_frame m → Gives result (Ok m) }
{
    read_whole(alloc, f.tag, f.body.as_slice())
}
