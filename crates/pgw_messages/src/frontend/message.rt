//! The messages of a client.

use crate::frontend::bind::BindMsg;
use crate::frontend::execute::ExecuteMsg;
use crate::frontend::parse::ParseMsg;
use crate::frontend::part::Part;
use pgw_frames::{Bytes, Text};

/// A message of a client after its startup packet.
#[derive(Debug, Drop)]
pub enum FrontMsg {
    Query(Text),
    Parse(ParseMsg),
    Bind(BindMsg),
    Describe(Part),
    Execute(ExecuteMsg),
    Sync,
    Flush,
    Close(Part),
    /// FunctionCall, whose body is not read.
    Call(Bytes),
    CopyData(Bytes),
    CopyDone,
    /// Why the copy failed.
    CopyFail(Text),
    /// Any message of the password family, whose body is not read: PasswordMessage,
    /// SASLInitialResponse, SASLResponse and GSSResponse have one type.
    Password(Bytes),
    Terminate,
}
