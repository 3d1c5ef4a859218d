//! The messages that ask for authentication.

ghost use Rattle.std.specs.Prelude.{◌≡◌, ◌++◌, OnOk};
ghost use Rattle.pgw_messages.specs.Reading.{Reads};
ghost use Rattle.pgw_messages.specs.Backend.{auth_at, auth_bytes, IsAuth};

use crate::fault::MsgFault;
use crate::reader::Reader;
use crate::writer::Writer;
use pgw_frames::{Bytes, NoMemory};

/// A step of authentication. All of these messages have one type.
#[derive(Debug, Drop)]
pub struct AuthMsg {
    /// 0 is AuthenticationOk, 3 asks for a password in clear text, 5 for an MD5 one; 10 to 12 are of
    /// SASL.
    pub code: u32,
    /// What stands behind the code, which is not read: a salt, or names and data of SASL; bytes behind
    /// the code 0 too.
    pub rest: Bytes,
}

impl AuthMsg {
    pub(crate) fn read(r: &mut Reader<'_>) -> Result<AuthMsg, MsgFault>
        ensures { Reads result r.new (auth_at r.old) }
    {
        let code = r.u32()?;
        let rest = r.remaining()?;
        Ok(AuthMsg { code, rest })
    }

    pub(crate) fn write(&self, w: &mut Writer) -> Result<(), NoMemory>
        ensures bytes { OnOk result (w.new ≡ w.old ++ auth_bytes self.now) }
        ensures good { IsAuth self.now }
    {
        w.u32(self.code)?;
        w.bytes(self.rest.as_slice())?;
        Ok(())
    }
}
